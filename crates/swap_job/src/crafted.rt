//! Hashkeys that parties make together. Each party signs with a key that is made from its seed at
//! every signature.

ghost use Rattle.std.specs.Prelude.{◌≡◌, ◌<◌, IfOk, Some, None, true, is_some, length, slice_index_or};
ghost use Rattle.std.specs.Option.{ForSome};
ghost use Rattle.swap_job.specs.Crafted.{prepend_party, crafted, crafted_within_limit};
ghost use Rattle.swap_job.specs.Fitting.{CanCraft};
ghost use Rattle.swap_job.specs.MoveKeys.{HasPathRoom, IsUsable};

use hashkey_path::Hashkey;
use party_wallet::{sign_onto_anew, sign_own_anew};
use std::alloc::Global;
use swap_base::{Digest, LockId, NoMemory, PartyId};
use swap_digraph::{Deal, path_limit};

/// What a party makes of a hashkey: the same with the party put before its path; its own hashkey,
/// where there is none.
fn prepend_party(
    alloc: Global,
    deal: &Deal,
    seeds: &[Option<Digest>],
    lock: LockId,
    made: Option<Hashkey>,
    party: PartyId,
) -> Result<Hashkey, NoMemory>
    requires party { party < deal.now.graph.n }
    requires seeded { is_some (slice_index_or seeds.now party None) ≡ true }
    requires room { HasPathRoom deal.now 1 made }
    ensures { IfOk result (λ k. k ≡ prepend_party deal.now seeds.now lock made party) }
{
    match &seeds[party as usize] {
        None => unreachable!(),
        Some(seed) => match made {
            None => sign_own_anew(alloc, deal, party, seed, lock),
            Some(key) => sign_onto_anew(alloc, deal, party, seed, &key),
        },
    }
}

/// What the parties make of a hashkey, from the last to the first.
pub(crate) fn craft(
    alloc: Global,
    deal: &Deal,
    seeds: &[Option<Digest>],
    lock: LockId,
    start: Option<Hashkey>,
    via: &[PartyId],
) -> Result<Option<Hashkey>, NoMemory>
    requires crafters { CanCraft deal.now seeds.now via.now }
    requires room { HasPathRoom deal.now (length via.now) start }
    ensures { IfOk result (λ o. o ≡ crafted deal.now seeds.now lock start via.now) }
{
    let mut made = start;
    let mut left = via.len();
    while left > 0 {
        left -= 1;
        made = Some(prepend_party(alloc, deal, seeds, lock, made, via[left])?);
    }
    Ok(made)
}

/// What the parties make of a hashkey that opened the lock: nothing, where there is none or the
/// path would be too long.
pub(crate) fn extend_craft(
    alloc: Global,
    deal: &Deal,
    seeds: &[Option<Digest>],
    lock: LockId,
    inner: Option<Hashkey>,
    via: &[PartyId],
) -> Result<Option<Hashkey>, NoMemory>
    requires crafters { CanCraft deal.now seeds.now via.now }
    requires inner { ForSome inner (IsUsable deal.now) }
    ensures { IfOk result (λ o. o ≡ crafted_within_limit deal.now seeds.now lock inner via.now) }
{
    match inner {
        None => Ok(None),
        Some(key) => {
            if via.len() + key.path.len() > path_limit(deal) as usize {
                return Ok(None);
            }
            craft(alloc, deal, seeds, lock, Some(key), via)
        }
    }
}
