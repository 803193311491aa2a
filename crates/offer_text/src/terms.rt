//! The JSON of a publish: just the terms that were given.

ghost use Rattle.std.specs.Prelude.{◌≡◌, IfOk, OnOk, codes};
ghost use Rattle.serde_json.specs.Data.{no_members};
ghost use Rattle.serde_json.specs.View.{view, members_view};
ghost use Rattle.offer_text.specs.Words.{digest_data, list_data, number_data, with_optional, IsBelow};
ghost use Rattle.offer_text.specs.Moves.{first_terms, last_terms};

use crate::fields::{put_first, put_number, put_text};
use crate::words::digest_value;
use escrow_core::LockList;
use serde_json::{Map, Value};
use std::alloc::Global;
use swap_base::{ArcId, NoMemory};

/// Puts a number before the others, where it is there.
fn put_optional_number(
    alloc: Global,
    fields: &mut Map<String, Value>,
    name: &str,
    number: Option<u32>,
) -> Result<(), NoMemory>
    requires { IsBelow name.now (members_view fields.old.entries) }
    ensures { OnOk result (members_view fields.new.entries ≡ with_optional name.now number_data number (members_view fields.old.entries)) }
{
    match number {
        None => Ok(()),
        Some(number) => put_number(alloc, fields, name, number as u64),
    }
}

/// Puts units before the others, where they are there.
fn put_amount(
    alloc: Global,
    fields: &mut Map<String, Value>,
    amount: Option<u64>,
) -> Result<(), NoMemory>
    requires { IsBelow (codes "amount") (members_view fields.old.entries) }
    ensures { OnOk result (members_view fields.new.entries ≡ with_optional (codes "amount") number_data amount (members_view fields.old.entries)) }
{
    match amount {
        None => Ok(()),
        Some(amount) => put_number(alloc, fields, "amount", amount),
    }
}

/// The digits of hashlocks, as a list.
fn locks_value(alloc: Global, locks: &LockList) -> Result<Value, NoMemory>
    ensures { IfOk result (λ v. view v ≡ list_data digest_data locks.now) }
{
    let mut list = Vec::new(alloc);
    'locks: for lock in 0..locks.len() {
        list.push(digest_value(alloc, &locks.get(lock))?)?;
    }
    Ok(Value::Array(list))
}

/// Puts hashlocks before the others, where they are there.
fn put_locks(
    alloc: Global,
    fields: &mut Map<String, Value>,
    locks: &Option<LockList>,
) -> Result<(), NoMemory>
    requires { IsBelow (codes "locks") (members_view fields.old.entries) }
    ensures { OnOk result (members_view fields.new.entries
        ≡ with_optional (codes "locks") (list_data digest_data) locks.now (members_view fields.old.entries)) }
{
    match locks {
        None => Ok(()),
        Some(locks) => {
            let value = locks_value(alloc, locks)?;
            put_first(alloc, fields, "locks", value)
        }
    }
}

/// The fields of a publish that come last.
pub(crate) fn put_last_terms(
    alloc: Global,
    fields: &mut Map<String, Value>,
    locks: &Option<LockList>,
    start: Option<u32>,
    timelock: Option<u32>,
) -> Result<(), NoMemory>
    requires { members_view fields.old.entries ≡ no_members }
    ensures { OnOk result (members_view fields.new.entries ≡ last_terms locks.now start timelock) }
{
    put_optional_number(alloc, fields, "timelock", timelock)?;
    put_optional_number(alloc, fields, "start", start)?;
    put_locks(alloc, fields, locks)
}

/// The fields of a publish that come first.
pub(crate) fn put_first_terms(
    alloc: Global,
    fields: &mut Map<String, Value>,
    amount: Option<u64>,
    arc: ArcId,
    bound: Option<u32>,
    delta: Option<u32>,
) -> Result<(), NoMemory>
    requires { IsBelow (codes "do") (members_view fields.old.entries) }
    ensures { OnOk result (members_view fields.new.entries ≡ first_terms amount arc bound delta (members_view fields.old.entries)) }
{
    put_text(alloc, fields, "do", "publish")?;
    put_optional_number(alloc, fields, "delta", delta)?;
    put_optional_number(alloc, fields, "bound", bound)?;
    put_number(alloc, fields, "arc", arc as u64)?;
    put_amount(alloc, fields, amount)
}
