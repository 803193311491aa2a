//! What the parties' seeds give.

ghost use Rattle.std.specs.Prelude.{◌≡◌, ◌≤◌, IfOk, length, map};
ghost use Rattle.std.specs.List.{range_with_len};
ghost use Rattle.hash_signature.specs.Signature.{derive_public_key};
ghost use Rattle.swap_gen.specs.Made.{all_keys, seed_hashlock, seed_keys, seed_or_zeros};

use hash_signature::{derive_secret, hashed_value, keygen};
use std::alloc::Global;
use swap_base::{Digest, Listed, NoMemory, PartyId};
use swap_digraph::{Deal, Mode};

/// The seed of a party, and zeros where it has none.
pub(crate) fn seed_or_zeros(seeds: &[Option<Digest>], p: PartyId) -> Digest
    ensures { result ≡ seed_or_zeros seeds.now p }
{
    match seeds.get(p as usize) {
        Some(Some(seed)) => *seed,
        _ => [0; 32],
    }
}

/// The hashlock of each leader.
pub(crate) fn seed_hashlocks(
    alloc: Global,
    seeds: &[Option<Digest>],
    leaders: &[PartyId],
) -> Result<Listed<Digest>, NoMemory>
    ensures { IfOk result (λ l. l ≡ map (seed_hashlock seeds.now) leaders.now) }
{
    let mut hashlocks = Vec::new(alloc);
    for leader in leaders {
        hashlocks.push(hashed_value(&derive_secret(&seed_or_zeros(seeds, *leader))))?;
    }
    Ok(Listed::new(hashlocks))
}

/// The public keys of a party, one for each lock.
fn seed_keys(
    alloc: Global,
    seeds: &[Option<Digest>],
    locks: u8,
    p: PartyId,
) -> Result<Listed<Digest>, NoMemory>
    ensures { IfOk result (λ l. l ≡ map (derive_public_key (seed_or_zeros seeds.now p) p) (range_with_len 0 locks)) }
{
    let seed = seed_or_zeros(seeds, p);
    let mut keys = Vec::new(alloc);
    'locks: for lock in 0..locks {
        let (_, public) = keygen(alloc, &seed, p, lock)?;
        keys.push(public)?;
    }
    Ok(Listed::new(keys))
}

/// The public keys of each party.
fn seed_rows(
    alloc: Global,
    seeds: &[Option<Digest>],
    deal: &Deal,
) -> Result<Listed<Listed<Digest>>, NoMemory>
    requires { length deal.now.leaders ≤ 8 }
    ensures { IfOk result (λ l. l ≡ map (seed_keys seeds.now deal.now) (range_with_len 0 deal.now.graph.n)) }
{
    let locks = deal.leaders.len() as u8;
    let mut rows = Vec::new(alloc);
    'parties: for p in 0..deal.graph.n() {
        rows.push(seed_keys(alloc, seeds, locks, p)?)?;
    }
    Ok(Listed::new(rows))
}

/// The public keys of each party; none with timelocks.
pub(crate) fn all_keys(
    alloc: Global,
    seeds: &[Option<Digest>],
    deal: &Deal,
) -> Result<Listed<Listed<Digest>>, NoMemory>
    requires { length deal.now.leaders ≤ 8 }
    ensures { IfOk result (λ l. l ≡ all_keys deal.now.mode seeds.now deal.now) }
{
    match deal.mode {
        Mode::Timelocks => Ok(Listed::empty(alloc)),
        Mode::Hashkeys => seed_rows(alloc, seeds, deal),
    }
}
