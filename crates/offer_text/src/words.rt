//! The JSON of names and digests.

ghost use Rattle.std.specs.Prelude.{◌≡◌, ◌<◌, IfOk, length};
ghost use Rattle.std.specs.Str.{IsUtf8};
ghost use Rattle.serde_json.specs.Data.{string};
ghost use Rattle.serde_json.specs.View.{view};
ghost use Rattle.offer_text.specs.Words.{digest_data, list_data, name_data, AreTexts};
ghost use Rattle.offer_text.specs.Moves.{AreBelow};

use serde_json::Value;
use std::alloc::Global;
use std::str;
use swap_base::{ByteText, Digest, NoMemory, PartyId};

/// The bytes as text.
pub fn to_text(bytes: &[u8]) -> &str
    requires { IsUtf8 bytes.now }
    ensures { result.now ≡ bytes.now }
{
    match str::from_utf8(bytes) {
        Ok(text) => text,
        Err(_) => unreachable!(),
    }
}

/// The name of a party.
pub(crate) fn party_label(names: &[ByteText], p: PartyId) -> &str
    requires party { p < length names.now }
    requires texts { AreTexts names.now }
    ensures { string result.now ≡ name_data names.now p }
{
    to_text(names[p as usize].as_slice())
}

/// A word, as it is.
pub(crate) fn word_value(alloc: Global, word: &str) -> Result<Value, NoMemory>
    ensures { IfOk result (λ v. view v ≡ string word.now) }
{
    Ok(Value::String(String::from_str(alloc, word)?))
}

/// The names of parties, as a list.
pub(crate) fn names_value(
    alloc: Global,
    names: &[ByteText],
    parties: &[PartyId],
) -> Result<Value, NoMemory>
    requires parties { AreBelow (length names.now) parties.now }
    requires texts { AreTexts names.now }
    ensures { IfOk result (λ v. view v ≡ list_data (name_data names.now) parties.now) }
{
    let mut list = Vec::new(alloc);
    for p in parties {
        list.push(word_value(alloc, party_label(names, *p))?)?;
    }
    Ok(Value::Array(list))
}

/// The digits of a digest.
pub(crate) fn digest_value(alloc: Global, digest: &Digest) -> Result<Value, NoMemory>
    ensures { IfOk result (λ v. view v ≡ digest_data digest.now) }
{
    Ok(Value::String(hex::encode(alloc, digest.as_slice())?))
}
