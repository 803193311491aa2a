//! Ledgers that are told lower than they were seen, and the calls that wait for them.

ghost use Rattle.std.specs.Prelude.{◌≡◌, ◌<◌, ◌++◌, IfOk, OnOk, is_none, length, slice_index_or};
ghost use Rattle.swap_digraph.specs.Deal.{IsWellSized};
ghost use Rattle.history_index.specs.Indexes.{all_entries};
ghost use Rattle.party_wallet.specs.Value.{signed_hashkey};
ghost use Rattle.useful_calls.specs.Actions.{actions, due_call_action};
ghost use Rattle.party_answer.specs.Stale.{is_any, is_stale, stale_arcs, stopped_locks, unsigned_locks, unwaiting, waits_for};

use crate::unkept::{Unkept, unkept_locks};
use due_calls::arc_height;
use history_index::Index;
use ledger_core::{Call, is_adjacent};
use party_notes::Kept;
use party_wallet::Signed;
use std::alloc::Global;
use swap_base::{ArcId, LockId, NoMemory, PartyId};
use swap_digraph::{Deal, is_listed};
use useful_calls::DueCall;

/// The greatest height at which the arc's ledger was seen.
pub(crate) fn seen_height(seen: &[u32], arc: ArcId) -> u32
    ensures { result ≡ slice_index_or seen.now arc 0 }
{
    match seen.get(arc as usize) {
        Some(height) => *height,
        None => 0,
    }
}

/// Whether the arc's ledger is next to the party, and told below the height at which it was seen.
fn is_stale(deal: &Deal, me: PartyId, known: &[Index], seen: &[u32], arc: ArcId) -> bool
    requires { arc < length deal.now.graph.arcs }
    ensures { result ≡ is_stale deal.now me (all_entries known.now) seen.now arc }
{
    is_adjacent(deal, arc, me) && arc_height(known, arc) < seen_height(seen, arc)
}

/// The arcs whose ledgers are stale, ascending.
pub(crate) fn stale_arcs(
    alloc: Global,
    deal: &Deal,
    me: PartyId,
    known: &[Index],
    seen: &[u32],
) -> Result<Vec<ArcId>, NoMemory>
    requires { IsWellSized deal.now }
    ensures { IfOk result (λ v. v.items ≡ stale_arcs deal.now me (all_entries known.now) seen.now) }
{
    let mut stale = Vec::new(alloc);
    'arcs: for arc in 0..deal.graph.arcs().len() as ArcId {
        if is_stale(deal, me, known, seen, arc) {
            stale.push(arc)?;
        }
    }
    Ok(stale)
}

/// Whether there is one.
pub(crate) fn is_any(stale: &[ArcId]) -> bool
    ensures { result ≡ is_any stale.now }
{
    match stale {
        [] => false,
        _ => true,
    }
}

/// Whether the call waits for a stale ledger.
fn waits_for(stale: &[ArcId], due: &DueCall) -> bool
    ensures { result ≡ waits_for stale.now (due_call_action due.now) }
{
    if is_listed(due.arc, stale) {
        return true;
    }
    match due.call {
        Call::Publish(_) => is_any(stale),
        _ => false,
    }
}

/// The calls without those that wait for a stale ledger.
pub(crate) fn without_waiting(
    alloc: Global,
    stale: &[ArcId],
    calls: Vec<DueCall>,
) -> Result<Vec<DueCall>, NoMemory>
    ensures { IfOk result (λ v. actions v.items ≡ unwaiting stale.now (actions calls.items)) }
{
    let mut left = Vec::new(alloc);
    'calls: for due in calls {
        if !waits_for(stale, &due) {
            left.push(due)?;
        }
    }
    Ok(left)
}

/// Whether no hashkey was kept for the lock.
fn is_unsigned(kept: &Signed, lock: LockId) -> bool
    ensures { result ≡ is_none (signed_hashkey kept.now.keys lock) }
{
    match kept.keys.as_slice().get(lock as usize) {
        Some(Some(_)) => false,
        _ => true,
    }
}

/// Adds the locks for which a hashkey would have to be signed.
fn put_unsigned(deal: &Deal, kept: &Signed, locks: &mut Vec<LockId>) -> Result<(), NoMemory>
    requires { IsWellSized deal.now }
    ensures { OnOk result (locks.new.items ≡ locks.old.items ++ unsigned_locks deal.now (signed_hashkey kept.now.keys)) }
{
    for lock in 0..deal.leaders.len() as LockId {
        if is_unsigned(kept, lock) {
            locks.push(lock)?;
        }
    }
    Ok(())
}

/// Adds the locks whose notes are torn or differ.
fn put_noted(noted: &[LockId], locks: &mut Vec<LockId>) -> Result<(), NoMemory>
    ensures { OnOk result (locks.new.items ≡ locks.old.items ++ noted.now) }
{
    for lock in noted {
        locks.push(*lock)?;
    }
    Ok(())
}

/// The locks for which nothing is signed and nothing presented.
pub(crate) fn stopped_locks(
    alloc: Global,
    deal: &Deal,
    kept: &Kept,
    unkept: &[Unkept],
    stale: &[ArcId],
) -> Result<Vec<LockId>, NoMemory>
    requires { IsWellSized deal.now }
    ensures { IfOk result (λ v. v.items ≡ stopped_locks deal.now (signed_hashkey kept.now.signed.keys) kept.now.stopped unkept.now stale.now) }
{
    let mut locks = unkept_locks(alloc, unkept)?;
    put_noted(kept.stopped.as_slice(), &mut locks)?;
    if is_any(stale) {
        put_unsigned(deal, &kept.signed, &mut locks)?;
    }
    Ok(locks)
}
