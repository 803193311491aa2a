//! The fields of a call and of a hashkey, appended whole or not at all.

ghost use Rattle.std.specs.Prelude.{◌≡◌, ◌++◌, OnOk, OnErr};
ghost use Rattle.transcript_book.specs.Between.{spaced};
ghost use Rattle.transcript_book.specs.Words.{call_words, key_words};

use crate::entry::{put_call as put_fields, put_hashkey as put_key_fields};
use hashkey_path::Hashkey;
use ledger_core::Call;
use swap_base::NoMemory;

/// Appends the fields of a hashkey. Want of memory leaves the text as it was.
pub fn put_hashkey(out: &mut Vec<u8>, key: &Hashkey) -> Result<(), NoMemory>
    ensures ok { OnOk result (out.new.items ≡ out.old.items ++ spaced (key_words key.now)) }
    ensures err { OnErr result (out.new.items ≡ out.old.items) }
{
    let mut text = Vec::new(*out.allocator());
    put_key_fields(&mut text, key)?;
    out.extend_from_slice(&text)?;
    Ok(())
}

/// Appends the fields of a call. Want of memory leaves the text as it was.
pub fn put_call(out: &mut Vec<u8>, call: &Call) -> Result<(), NoMemory>
    ensures ok { OnOk result (out.new.items ≡ out.old.items ++ spaced (call_words call.now)) }
    ensures err { OnErr result (out.new.items ≡ out.old.items) }
{
    let mut text = Vec::new(*out.allocator());
    put_fields(&mut text, call)?;
    out.extend_from_slice(&text)?;
    Ok(())
}
