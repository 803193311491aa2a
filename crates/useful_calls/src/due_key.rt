//! The hashkey of the unlocks for a lock.

ghost use Rattle.std.specs.Prelude.{◌≡◌, ◌<◌, false, Some, IfOk, IsSome, length};
ghost use Rattle.ledger_core.specs.Facts.{opened_key};
ghost use Rattle.swap_rules.specs.Due.{due_key, extended};
ghost use Rattle.party_wallet.specs.Value.{signed_hashkey};
ghost use Rattle.due_calls.specs.DueUnlock.{due_base};
ghost use Rattle.due_calls.specs.Unlocks.{make_due_key};
ghost use Rattle.party_machine.specs.Unlocking.{IsSignable};
ghost use Rattle.useful_calls.specs.Asker.{asker_key, asker_wallet, is_stopped, known_entries, IsDealAsker};

use crate::asker::Asker;
use due_calls::{Base, due_base};
use hashkey_path::Hashkey;
use history_index::Index;
use ledger_core::Facts;
use party_wallet::{Signed, sign_onto_anew, sign_own_anew};
use std::alloc::Global;
use swap_base::{LockId, NoMemory, Shared, TryCopy};

/// A copy of the hashkey that was kept for the lock.
fn copy_kept(kept: &Signed, lock: LockId) -> Result<Shared<Hashkey>, NoMemory>
    requires lock { lock < length kept.now.keys }
    requires kept { IsSome (signed_hashkey kept.now.keys lock) }
    ensures { IfOk result (λ k. signed_hashkey kept.now.keys lock ≡ Some k) }
{
    match &kept.keys.as_slice()[lock as usize] {
        Some(key) => key.copy(),
        None => unreachable!(),
    }
}

/// The party's own hashkey for the lock, which isn't stopped.
fn own_key(alloc: Global, asker: &Asker<'_>, lock: LockId) -> Result<Shared<Hashkey>, NoMemory>
    requires asker { IsDealAsker asker.now }
    requires unstopped { is_stopped asker.now lock ≡ false }
    ensures { IfOk result (λ k. k ≡ (asker_wallet asker.now).first lock) }
{
    let key = sign_own_anew(alloc, asker.deal, asker.me, asker.signer.seed, lock)?;
    Shared::new(alloc, key)
}

/// The party's signature put onto the hashkey that opened the lock there, which isn't stopped.
fn extend_key(
    alloc: Global,
    asker: &Asker<'_>,
    index: &Index,
    lock: LockId,
) -> Result<Shared<Hashkey>, NoMemory>
    requires asker { IsDealAsker asker.now }
    requires unstopped { is_stopped asker.now lock ≡ false }
    requires lock { lock < length index.now.terms.locks }
    requires onto { IsSignable asker.now.deal.now lock (opened_key index.now.entries lock) }
    ensures { IfOk result (λ k. extended (asker_wallet asker.now) (opened_key index.now.entries lock) ≡ Some k) }
{
    match index.opened_key(lock) {
        Some(inner) => {
            let key = sign_onto_anew(alloc, asker.deal, asker.me, asker.signer.seed, inner)?;
            Shared::new(alloc, key)
        }
        None => unreachable!(),
    }
}

/// The hashkey that comes from there, for a lock that isn't stopped.
fn make_due_key(
    alloc: Global,
    asker: &Asker<'_>,
    lock: LockId,
    base: Base,
) -> Result<Shared<Hashkey>, NoMemory>
    requires asker { IsDealAsker asker.now }
    requires unstopped { is_stopped asker.now lock ≡ false }
    requires lock { lock < length asker.now.deal.now.leaders }
    requires base { due_base asker.now.deal.now asker.now.me (asker_key asker.now lock) (known_entries asker.now) lock ≡ Some base }
    ensures { IfOk result (λ k. make_due_key (asker_wallet asker.now) (asker_key asker.now) (known_entries asker.now) lock base ≡ Some k) }
{
    match base {
        Base::Signed => copy_kept(asker.signer.kept, lock),
        Base::Own => own_key(alloc, asker, lock),
        Base::Onto(arc) => extend_key(alloc, asker, &asker.known[arc as usize], lock),
    }
}

/// The hashkey of the unlocks for the lock, if there is one, where the lock isn't stopped. It is
/// the kept one. Without a kept one it is the party's own if the party leads the lock, and else the
/// one that it makes from a hashkey that it saw.
pub(crate) fn due_key(
    alloc: Global,
    asker: &Asker<'_>,
    lock: LockId,
) -> Result<Option<Shared<Hashkey>>, NoMemory>
    requires asker { IsDealAsker asker.now }
    requires unstopped { is_stopped asker.now lock ≡ false }
    requires lock { lock < length asker.now.deal.now.leaders }
    ensures { IfOk result (λ o. o ≡ due_key asker.now.deal.now asker.now.me (asker_wallet asker.now) (asker_key asker.now lock) (known_entries asker.now) lock) }
{
    match due_base(asker.deal, asker.me, asker.known, asker.signer.kept, lock) {
        Some(base) => {
            let key = make_due_key(alloc, asker, lock, base)?;
            Ok(Some(key))
        }
        None => Ok(None),
    }
}
