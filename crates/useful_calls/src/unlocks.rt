//! The unlocks that are useful.

ghost use Rattle.std.specs.Prelude.{◌≡◌, ◌<◌, ◌&&◌, ◌||◌, ◌++◌, Some, true, not, OnOk, length};
ghost use Rattle.std.specs.List.{flat_map, list_all};
ghost use Rattle.swap_digraph.specs.Graph.{entering};
ghost use Rattle.swap_digraph.specs.Deal.{locks};
ghost use Rattle.ledger_core.specs.declared.entry.Call.TheVariants.{Unlock};
ghost use Rattle.swap_rules.specs.Party.{is_ready};
ghost use Rattle.swap_rules.specs.Due.{due_key, when_due};
ghost use Rattle.swap_rules.specs.Useful.{pressing_unlocks, takes};
ghost use Rattle.useful_calls.specs.Actions.{actions};
ghost use Rattle.useful_calls.specs.Asker.{asker_at, asker_key, asker_unlocks, asker_wallet, has_unlocked, is_stopped, known_entries, IsDealAsker};

use crate::asker::Asker;
use crate::due_call::{DueCall, put_when};
use crate::due_key::due_key;
use crate::withheld::{is_withheld, takes};
use due_calls::is_ready;
use hashkey_path::Hashkey;
use ledger_core::{Call, CallKind, Facts};
use std::alloc::Global;
use swap_base::{ArcId, LockId, NoMemory, Shared, TryCopy};
use swap_digraph::is_listed;

/// Whether the party made an unlock for the lock on the arc, whatever the reply.
fn has_unlocked(asker: &Asker<'_>, lock: LockId, arc: ArcId) -> bool
    ensures { result ≡ has_unlocked asker.now lock arc }
{
    match asker.known.get(arc as usize) {
        Some(index) => index.called(asker.me, CallKind::Unlock(lock)),
        None => false,
    }
}

/// Whether the party made an unlock for the lock on each entering arc.
fn has_unlocked_all(asker: &Asker<'_>, lock: LockId) -> bool
    requires asker { IsDealAsker asker.now }
    ensures { result ≡ list_all (has_unlocked asker.now lock) (entering asker.now.deal.now.graph asker.now.me) }
{
    let entering = asker.deal.graph.entering(asker.me);
    entering.iter().all(|arc| has_unlocked(asker, lock, *arc))
}

/// Adds the unlock on the arc with the hashkey, where the arc takes it, and the party made none for
/// the lock there.
fn put_unlock(
    asker: &Asker<'_>,
    lock: LockId,
    key: &Shared<Hashkey>,
    arc: ArcId,
    calls: &mut Vec<DueCall>,
) -> Result<(), NoMemory>
    requires asker { IsDealAsker asker.now }
    requires lock { lock < length asker.now.deal.now.leaders }
    ensures { let p = asker.now in
        OnOk result (actions calls.new.items ≡ actions calls.old.items
        ++ when_due (takes p.deal.now (asker_at p) (known_entries p) lock (Some key.now) arc && not (has_unlocked p lock arc)) arc (Unlock key.now)) }
{
    let test = takes(asker, lock, key, arc) && !has_unlocked(asker, lock, arc);
    put_when(calls, test, arc, Call::Unlock(key.copy()?))
}

/// Adds the unlocks for the lock with the hashkey, by entering arc.
fn put_key_unlocks(
    asker: &Asker<'_>,
    lock: LockId,
    key: &Shared<Hashkey>,
    calls: &mut Vec<DueCall>,
) -> Result<(), NoMemory>
    requires asker { IsDealAsker asker.now }
    requires lock { lock < length asker.now.deal.now.leaders }
    ensures { let p = asker.now in
        OnOk result (actions calls.new.items ≡ actions calls.old.items
        ++ flat_map (λ a. when_due (takes p.deal.now (asker_at p) (known_entries p) lock (Some key.now) a && not (has_unlocked p lock a)) a (Unlock key.now))
        (entering p.deal.now.graph p.me)) }
{
    'arcs: for arc in asker.deal.graph.entering(asker.me) {
        put_unlock(asker, lock, key, *arc, calls)?;
    }
    Ok(())
}

/// Whether nothing is presented for the lock: it is stopped, or the party made an unlock for it on
/// each entering arc.
fn is_silent(asker: &Asker<'_>, lock: LockId) -> bool
    requires asker { IsDealAsker asker.now }
    ensures { result ≡ (is_stopped asker.now lock || list_all (has_unlocked asker.now lock) (entering asker.now.deal.now.graph asker.now.me)) }
{
    is_listed(lock, asker.signer.stopped) || has_unlocked_all(asker, lock)
}

/// Adds the unlocks for the lock with its hashkey that are useful where the party is ready: none
/// where the hashkey is withheld.
fn put_unwithheld(
    asker: &Asker<'_>,
    lock: LockId,
    key: &Shared<Hashkey>,
    calls: &mut Vec<DueCall>,
) -> Result<(), NoMemory>
    requires asker { IsDealAsker asker.now }
    requires lock { lock < length asker.now.deal.now.leaders }
    requires ready { is_ready asker.now.deal.now (known_entries asker.now) asker.now.me ≡ true }
    requires key { Some key.now ≡ due_key asker.now.deal.now asker.now.me (asker_wallet asker.now) (asker_key asker.now lock) (known_entries asker.now) lock }
    ensures { let p = asker.now in
        OnOk result (actions calls.new.items ≡ actions calls.old.items
        ++ pressing_unlocks p.deal.now p.me (asker_at p) (asker_wallet p) (asker_key p) (known_entries p) lock) }
{
    if is_withheld(asker, lock, key) {
        return Ok(());
    }
    put_key_unlocks(asker, lock, key, calls)
}

/// Adds the unlocks for the lock that are useful where the party is ready: none where the lock is
/// stopped or its hashkey withheld. Nothing is signed for a stopped lock.
fn put_lock_unlocks(
    alloc: Global,
    asker: &Asker<'_>,
    lock: LockId,
    calls: &mut Vec<DueCall>,
) -> Result<(), NoMemory>
    requires asker { IsDealAsker asker.now }
    requires lock { lock < length asker.now.deal.now.leaders }
    requires ready { is_ready asker.now.deal.now (known_entries asker.now) asker.now.me ≡ true }
    ensures { OnOk result (actions calls.new.items ≡ actions calls.old.items ++ asker_unlocks asker.now lock) }
{
    if is_silent(asker, lock) {
        return Ok(());
    }
    match due_key(alloc, asker, lock)? {
        Some(key) => put_unwithheld(asker, lock, &key, calls),
        None => Ok(()),
    }
}

/// Adds the unlocks that are useful and for no stopped lock, by lock and entering arc.
pub(crate) fn put_unlocks(
    alloc: Global,
    asker: &Asker<'_>,
    calls: &mut Vec<DueCall>,
) -> Result<(), NoMemory>
    requires asker { IsDealAsker asker.now }
    ensures { OnOk result (actions calls.new.items ≡ actions calls.old.items ++ flat_map (asker_unlocks asker.now) (locks asker.now.deal.now)) }
{
    if !is_ready(asker.deal, asker.me, asker.known) {
        return Ok(());
    }
    for lock in 0..asker.deal.leaders.len() as u8 {
        put_lock_unlocks(alloc, asker, lock, calls)?;
    }
    Ok(())
}
