//! The hashkeys that a disk's bytes have recorded.

ghost use Rattle.std.specs.Prelude.{◌≡◌, ◌<◌, ◌≤◌, ℕ, map, length, false, true, IfOk, IfErr, IfSome, MatchOption, OnOk};
ghost use Rattle.std.specs.List.{range_with_len};
ghost use Rattle.wallet_journal.specs.Layout.{are_bounded, is_bad, is_damaged, is_recorded, body, parse_count, recorded};
ghost use Rattle.wallet_journal.specs.Opening.{IsLeastDamaged, IsDamage};

use crate::bodies::read_body_hashkey;
use crate::fault::Unopened;
use hashkey_path::Hashkey;
use std::alloc::Global;
use swap_base::{Listed, LockId, Shared};

/// For each lock the hashkey that is recorded, if any.
pub type SignedKeys = Listed<Option<Shared<Hashkey>>>;

/// Whether each vertex is below the number of parties.
fn are_bounded(path: &[u8], parties: u8) -> bool
    ensures { result ≡ are_bounded parties path.now }
{
    path.iter().all(|v| *v < parties)
}

/// The body of a lock that is recorded.
fn open_body(bytes: &[u8], lock: LockId) -> Option<&[u8]>
    requires size { length bytes.now ≡ 549426 }
    requires lock { lock < 8 }
    ensures size { IfSome result (λ b. length b.now ≡ 68673) }
    ensures exact { MatchOption result (is_recorded bytes.now lock ≡ false) (λ b. (is_recorded bytes.now lock ≡ true) × (b.now ≡ body lock bytes.now)) }
{
    if bytes[0] == 1 && bytes[34 + lock as usize] == 1 {
        let at = 42 + 68_673 * lock as usize;
        Some(&bytes[at..at + 68_673])
    } else {
        None
    }
}

/// How many vertices a body has, unless it can't be one of the deal's.
fn sound_count(body: &[u8], limit: u8, parties: u8) -> Option<usize>
    requires size { length body.now ≡ 68673 }
    requires limit { limit ≤ 32 }
    ensures few { IfSome result (λ n. n ≤ 32) }
    ensures exact { MatchOption result (is_bad limit parties body.now ≡ true) (λ n. (n ≡ parse_count body.now) × (is_bad limit parties body.now ≡ false)) }
{
    let count = body[0] as usize;
    if count > limit as usize {
        return None;
    }
    if are_bounded(&body[33..33 + count], parties) {
        Some(count)
    } else {
        None
    }
}

/// The hashkey that is recorded for a lock, if any.
fn read_record(
    alloc: Global,
    bytes: &[u8],
    limit: u8,
    parties: u8,
    lock: LockId,
) -> Result<Option<Shared<Hashkey>>, Unopened>
    requires size { length bytes.now ≡ 549426 }
    requires lock { lock < 8 }
    requires limit { limit ≤ 32 }
    ensures value { IfOk result (λ o. o ≡ recorded bytes.now lock) }
    ensures sound { OnOk result (is_damaged limit parties bytes.now lock ≡ false) }
    ensures fault { IfErr result (IsDamage limit parties bytes.now lock) }
{
    let Some(body) = open_body(bytes, lock) else {
        return Ok(None);
    };
    let Some(count) = sound_count(body, limit, parties) else {
        return Err(Unopened::Damaged(lock));
    };
    let key = read_body_hashkey(alloc, lock, body, count)?;
    Ok(Some(Shared::new(alloc, key)?))
}

/// What is recorded for each lock of a deal, or the least lock whose body can't be one of the
/// deal's.
pub(crate) fn recorded_keys(
    alloc: Global,
    bytes: &[u8],
    limit: u8,
    parties: u8,
    locks: u8,
) -> Result<SignedKeys, Unopened>
    requires size { length bytes.now ≡ 549426 }
    requires locks { locks ≤ 8 }
    requires limit { limit ≤ 32 }
    ensures value { IfOk result (λ s. s ≡ map (recorded bytes.now) (range_with_len 0 locks)) }
    ensures sound { OnOk result ((i : ℕ) → i < locks → is_damaged limit parties bytes.now i ≡ false) }
    ensures fault { IfErr result (IsLeastDamaged limit parties bytes.now locks) }
{
    let mut signed = Vec::new(alloc);
    'locks: for lock in 0..locks {
        signed.push(read_record(alloc, bytes, limit, parties, lock)?)?;
    }
    Ok(Listed::new(signed))
}
