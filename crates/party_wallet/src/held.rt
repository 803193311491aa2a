//! The hashkeys that a wallet makes, with two holders. All their memory is taken before the key for
//! the lock is spent.

ghost use Rattle.std.specs.Prelude.{◌≡◌, ◌<◌, ℕ, List, None, length, IfOk, OnOk, OnErr};
ghost use Rattle.swap_digraph.specs.Deal.{path_limit};
ghost use Rattle.party_wallet.specs.Keys.{bare_key, own_key, onto_key, unspent};

use crate::bare::bare;
use hash_signature::{OneTimeKey, derive_secret};
use hashkey_path::{Hashkey, extend_held, first_held};
use std::alloc::Global;
use swap_base::{Digest, LockId, NoMemory, PartyId, Shared, TryCopy};
use swap_digraph::{Deal, Mode};

/// A secret alone, with two holders.
fn bare_held(
    alloc: Global,
    lock: LockId,
    secret: &Digest,
) -> Result<(Shared<Hashkey>, Shared<Hashkey>), NoMemory>
    ensures value { IfOk result (λ held. held.0 ≡ bare_key lock secret.now) }
    ensures equal { IfOk result (λ held. held.1 ≡ held.0) }
{
    let one = Shared::new(alloc, bare(alloc, lock, secret))?;
    let other = one.copy()?;
    Ok((one, other))
}

/// The party's own hashkey for a lock that it leads. Want of memory leaves the key where it is,
/// unspent.
pub(crate) fn own_held(
    alloc: Global,
    deal: &Deal,
    party: PartyId,
    seed: &Digest,
    lock: LockId,
    slot: &mut Option<OneTimeKey>,
) -> Result<(Shared<Hashkey>, Shared<Hashkey>), NoMemory>
    requires party { party < deal.now.graph.n }
    requires unspent { slot.old ≡ unspent deal.now.mode seed.now party lock }
    ensures value { IfOk result (λ held. held.0 ≡ own_key deal.now.mode deal.now party seed.now lock) }
    ensures equal { IfOk result (λ held. held.1 ≡ held.0) }
    ensures spent { OnOk result (slot.new ≡ None) }
    ensures back { OnErr result (slot.new ≡ slot.old) }
{
    let secret = derive_secret(seed);
    match deal.mode {
        Mode::Timelocks => bare_held(alloc, lock, &secret),
        Mode::Hashkeys => {
            let key = slot.take().unwrap();
            match first_held(alloc, deal, lock, &secret, party, key) {
                Ok(held) => Ok(held),
                Err(back) => {
                    *slot = Some(back.key);
                    Err(NoMemory)
                }
            }
        }
    }
}

/// The party's hashkey that goes on from another. Want of memory leaves the key where it is,
/// unspent.
pub(crate) fn onto_held(
    alloc: Global,
    deal: &Deal,
    party: PartyId,
    inner: &Hashkey,
    slot: &mut Option<OneTimeKey>,
) -> Result<(Shared<Hashkey>, Shared<Hashkey>), NoMemory>
    requires party { party < deal.now.graph.n }
    requires few { length inner.now.path < path_limit deal.now }
    requires paired { length inner.now.sigs ≡ length inner.now.path }
    requires unspent { (seed : List ℕ) × (slot.old ≡ unspent deal.now.mode seed party inner.now.lock) }
    ensures value { IfOk result (λ held. (seed : List ℕ) → slot.old ≡ unspent deal.now.mode seed party inner.now.lock
        → held.0 ≡ onto_key deal.now.mode deal.now party seed inner.now) }
    ensures equal { IfOk result (λ held. held.1 ≡ held.0) }
    ensures spent { OnOk result (slot.new ≡ None) }
    ensures back { OnErr result (slot.new ≡ slot.old) }
{
    match deal.mode {
        Mode::Timelocks => bare_held(alloc, inner.lock, &inner.secret),
        Mode::Hashkeys => {
            let key = slot.take().unwrap();
            match extend_held(alloc, deal, inner, party, key) {
                Ok(held) => Ok(held),
                Err(back) => {
                    *slot = Some(back.key);
                    Err(NoMemory)
                }
            }
        }
    }
}
