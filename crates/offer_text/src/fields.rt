//! Fields of an object, put one before another.

ghost use Rattle.std.specs.Prelude.{◌≡◌, OnOk, OnErr};
ghost use Rattle.serde_json.specs.Data.{member, string};
ghost use Rattle.serde_json.specs.View.{view, members_view};
ghost use Rattle.offer_text.specs.Words.{number_data, IsBelow};

use crate::words::word_value;
use serde_json::{Map, Value, put};
use std::alloc::Global;
use swap_base::NoMemory;

/// Puts a field before the others, whose names are greater by their bytes. Want of
/// memory leaves them as they were.
pub fn put_first(
    alloc: Global,
    fields: &mut Map<String, Value>,
    name: &str,
    value: Value,
) -> Result<(), NoMemory>
    requires { IsBelow name.now (members_view fields.old.entries) }
    ensures ok { OnOk result (members_view fields.new.entries ≡ member name.now (view value) (members_view fields.old.entries)) }
    ensures err { OnErr result (fields.new.entries ≡ fields.old.entries) }
{
    put(fields, alloc, name, value)?;
    Ok(())
}

/// Puts a text before the others. Want of memory leaves them as they were.
pub fn put_text(
    alloc: Global,
    fields: &mut Map<String, Value>,
    name: &str,
    text: &str,
) -> Result<(), NoMemory>
    requires { IsBelow name.now (members_view fields.old.entries) }
    ensures ok { OnOk result (members_view fields.new.entries ≡ member name.now (string text.now) (members_view fields.old.entries)) }
    ensures err { OnErr result (fields.new.entries ≡ fields.old.entries) }
{
    put_first(alloc, fields, name, word_value(alloc, text)?)
}

/// Puts a number before the others. Want of memory leaves them as they were.
pub fn put_number(
    alloc: Global,
    fields: &mut Map<String, Value>,
    name: &str,
    number: u64,
) -> Result<(), NoMemory>
    requires { IsBelow name.now (members_view fields.old.entries) }
    ensures ok { OnOk result (members_view fields.new.entries ≡ member name.now (number_data number) (members_view fields.old.entries)) }
    ensures err { OnErr result (fields.new.entries ≡ fields.old.entries) }
{
    put_first(alloc, fields, name, Value::from(number))
}
