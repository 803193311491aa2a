//! The call of an entry's line.

ghost use Rattle.std.specs.Prelude.{◌≤◌};
ghost use Rattle.transcript_book.specs.Reading.{parse_named_call, parse_call, parse_unlock_fields, parse_locks, parse_publish_fields, read_units};
ghost use Rattle.transcript_book.specs.Taking.{Takes};

use crate::field::{
    byte_field, digest_field, number_field, path_field, signatures_field, small_field, word,
};
use crate::number::{WordFault, misspelt};
use crate::text_parts::Parts;
use escrow_core::{LockList, Terms};
use hashkey_path::Hashkey;
use ledger_core::Call;
use std::alloc::Global;
use swap_base::Shared;

/// Takes this many digests, a field each.
fn parse_locks(count: usize, fields: &mut Parts<'_>) -> Result<LockList, WordFault>
    requires { count ≤ 8 }
    ensures { Takes (λ l. l) result fields.new (parse_locks count fields.old) }
{
    let mut locks = LockList::new();
    'locks: for _ in 0..count {
        locks.push(digest_field(fields)?);
    }
    Ok(locks)
}

#[tactic(auto, unfolding(crate::specs::Reading::parse_publish_fields))]
fn parse_publish_fields(
    alloc: Global,
    count: usize,
    fields: &mut Parts<'_>,
) -> Result<Call, WordFault>
    requires { count ≤ 8 }
    ensures { Takes (λ c. c) result fields.new (parse_publish_fields count fields.old) }
{
    let start = small_field(fields)?;
    let delta = small_field(fields)?;
    let bound = small_field(fields)?;
    let timelock = small_field(fields)?;
    let amount = number_field(fields)?;
    let locks = parse_locks(count, fields)?;
    let terms = Terms {
        locks,
        start,
        delta,
        bound,
        timelock,
        amount,
    };
    Ok(Call::Publish(Shared::new(alloc, terms)?))
}

/// The unlock whose hashkey the next fields say.
#[tactic(auto, unfolding(crate::specs::Reading::parse_unlock_fields))]
pub fn parse_unlock_fields(alloc: Global, fields: &mut Parts<'_>) -> Result<Call, WordFault>
    ensures { Takes (λ c. c) result fields.new (parse_unlock_fields fields.old) }
{
    let lock = byte_field(fields)?;
    let secret = digest_field(fields)?;
    let path = path_field(alloc, fields)?;
    let sigs = signatures_field(alloc, fields)?;
    let key = Hashkey {
        lock,
        secret,
        path,
        sigs,
    };
    Ok(Call::Unlock(Shared::new(alloc, key)?))
}

#[tactic(auto, unfolding(crate::specs::Reading::read_units))]
fn read_units(fields: &mut Parts<'_>) -> Result<Call, WordFault>
    ensures { Takes (λ c. c) result fields.new (read_units fields.old) }
{
    let to = byte_field(fields)?;
    let units = number_field(fields)?;
    Ok(Call::Transfer(to, units))
}

fn parse_named_call(
    alloc: Global,
    count: usize,
    first: &[u8],
    fields: &mut Parts<'_>,
) -> Result<Call, WordFault>
    requires { count ≤ 8 }
    ensures { Takes (λ c. c) result fields.new (parse_named_call count first.now fields.old) }
{
    if first == b"publish".as_slice() {
        parse_publish_fields(alloc, count, fields)
    } else if first == b"unlock".as_slice() {
        parse_unlock_fields(alloc, fields)
    } else if first == b"claim".as_slice() {
        Ok(Call::Claim)
    } else if first == b"refund".as_slice() {
        Ok(Call::Refund)
    } else if first == b"transfer".as_slice() {
        read_units(fields)
    } else {
        Err(misspelt())
    }
}

/// The call that the next fields say, in a deal with this number of locks.
#[tactic(auto, unfolding(crate::specs::Reading::parse_call))]
pub(crate) fn parse_call(
    alloc: Global,
    count: usize,
    fields: &mut Parts<'_>,
) -> Result<Call, WordFault>
    requires { count ≤ 8 }
    ensures { Takes (λ c. c) result fields.new (parse_call count fields.old) }
{
    let first = word(fields)?;
    parse_named_call(alloc, count, first, fields)
}
