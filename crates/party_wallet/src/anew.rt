//! Hashkeys with keys that are made from a seed at every signature. Whoever holds a seed may make
//! as many of them as it likes. Each key walks its chains only as far as what it signs opens them.

ghost use Rattle.std.specs.Prelude.{◌≡◌, ◌<◌, length, IfOk};
ghost use Rattle.swap_digraph.specs.Deal.{path_limit};
ghost use Rattle.party_wallet.specs.Keys.{own_key, onto_key};

use crate::bare::bare;
use hash_signature::{derive_secret, unwalked_key};
use hashkey_path::{Hashkey, KeyBack, extend, first};
use std::alloc::Global;
use swap_base::{Digest, LockId, NoMemory, PartyId};
use swap_digraph::{Deal, Mode};

/// A hashkey of the party's own secret, whose path is the party alone; with timelocks the secret
/// alone.
pub fn sign_own_anew(
    alloc: Global,
    deal: &Deal,
    party: PartyId,
    seed: &Digest,
    lock: LockId,
) -> Result<Hashkey, NoMemory>
    requires party { party < deal.now.graph.n }
    ensures { IfOk result (λ k. k ≡ own_key deal.now.mode deal.now party seed.now lock) }
{
    let secret = derive_secret(seed);
    match deal.mode {
        Mode::Timelocks => Ok(bare(alloc, lock, &secret)),
        Mode::Hashkeys => {
            let key = unwalked_key(seed, party, lock);
            or_no_memory(first(alloc, deal, lock, &secret, party, key))
        }
    }
}

/// The inner hashkey with the party put before its path; with timelocks the same secret alone.
pub fn sign_onto_anew(
    alloc: Global,
    deal: &Deal,
    party: PartyId,
    seed: &Digest,
    inner: &Hashkey,
) -> Result<Hashkey, NoMemory>
    requires party { party < deal.now.graph.n }
    requires few { length inner.now.path < path_limit deal.now }
    requires paired { length inner.now.sigs ≡ length inner.now.path }
    ensures { IfOk result (λ k. k ≡ onto_key deal.now.mode deal.now party seed.now inner.now) }
{
    match deal.mode {
        Mode::Timelocks => Ok(bare(alloc, inner.lock, &inner.secret)),
        Mode::Hashkeys => {
            let key = unwalked_key(seed, party, inner.lock);
            or_no_memory(extend(alloc, deal, inner, party, key))
        }
    }
}

/// The hashkey, where it was made; the key is let go where it wasn't.
fn or_no_memory(made: Result<Hashkey, KeyBack>) -> Result<Hashkey, NoMemory>
    ensures { IfOk result (λ k. made ≡ Ok k) }
{
    match made {
        Ok(hashkey) => Ok(hashkey),
        Err(_) => Err(NoMemory),
    }
}
