//! Lists of what is shown as a JSON value.

ghost use Rattle.std.specs.Prelude.{◌≡◌, IfOk};
ghost use Rattle.serde_json.specs.Data.{Data};
ghost use Rattle.serde_json.specs.View.{view};
ghost use Rattle.offer_text.specs.Words.{digest_data, list_data};
ghost use Rattle.offer_text.specs.Moves.{signature_data};

use crate::words::digest_value;
use hash_signature::Sig;
use serde_json::Value;
use std::alloc::Global;
use swap_base::{Digest, Listed, NoMemory};

/// What is shown as a JSON value.
pub(crate) trait Shown {
    ghost as_data: { Self → Data };

    fn shown(&self, alloc: Global) -> Result<Value, NoMemory>
        ensures { IfOk result (λ v. view v ≡ as_data self.now) };
}

/// The values, as a list.
pub(crate) fn list_value<T: Shown>(alloc: Global, items: &[T]) -> Result<Value, NoMemory>
    ensures { IfOk result (λ v. view v ≡ list_data T.as_data items.now) }
{
    let mut list = Vec::new(alloc);
    for item in items {
        list.push(item.shown(alloc)?)?;
    }
    Ok(Value::Array(list))
}

impl Shown for [u8; 32] {
    ghost as_data = { digest_data };

    fn shown(&self, alloc: Global) -> Result<Value, NoMemory> {
        digest_value(alloc, self)
    }
}

/// The keys of a party.
impl Shown for Listed<Digest> {
    ghost as_data = { list_data digest_data };

    fn shown(&self, alloc: Global) -> Result<Value, NoMemory> {
        list_value(alloc, self.as_slice())
    }
}

impl Shown for Sig {
    ghost as_data = { signature_data };

    fn shown(&self, alloc: Global) -> Result<Value, NoMemory> {
        let bytes = self.to_bytes();
        Ok(Value::String(hex::encode(alloc, bytes.as_slice())?))
    }
}
