//! Unlocks of a party with hashkeys that it never kept.

ghost use Rattle.std.specs.Prelude.{◌≡◌, ◌≤◌, IfOk, OnOk, length};
ghost use Rattle.swap_rules.specs.Conduct.{is_first_key as is_first};
ghost use Rattle.swap_digraph.specs.Deal.{IsWellSized};
ghost use Rattle.party_wallet.specs.Value.{signed_hashkey};
ghost use Rattle.party_answer.specs.Unkept.{all_unkept, has_lock, noted_locks, unkept_locks, with_unlock, with_unlocks};

use conduct_check::is_first_key;
use hashkey_path::Hashkey;
use party_wallet::Signed;
use std::alloc::Global;
use swap_base::{ArcId, LockId, NoMemory};
use swap_digraph::{Deal, is_listed};
use told_ledgers::{OwnUnlock, ToldLedger};
use useful_calls::kept_key;

/// The first unlock for that lock on the arc with a hashkey that isn't the one that was kept, by
/// its number among all lines of the arc's ledger.
#[derive(Clone, Copy, Debug, PartialEq, Eq)]
pub struct Unkept {
    pub arc: ArcId,
    pub entry: u32,
    pub lock: LockId,
}

/// Whether the hashkey is the one that was kept for its lock.
fn is_kept_key(kept: &Signed, key: &Hashkey) -> bool
    ensures { result ≡ is_first (signed_hashkey kept.now.keys key.now.lock) key.now }
{
    is_first_key(kept_key(kept, key.lock), key)
}

/// Whether one of them is for the lock on the arc.
fn has_lock(list: &[Unkept], arc: ArcId, lock: LockId) -> bool
    ensures { result ≡ has_lock list.now arc lock }
{
    list.iter()
        .any(|unkept| unkept.arc == arc && unkept.lock == lock)
}

/// Adds the unlock on the arc, where its hashkey isn't the one that was kept, and it is the first
/// of its arc and lock.
fn add_unlock(
    kept: &Signed,
    arc: ArcId,
    list: &mut Vec<Unkept>,
    unlock: &OwnUnlock,
) -> Result<(), NoMemory>
    ensures { OnOk result (list.new.items ≡ with_unlock (signed_hashkey kept.now.keys) arc list.old.items unlock.now) }
{
    let lock = unlock.key.lock;
    if !is_kept_key(kept, &unlock.key) && !has_lock(list, arc, lock) {
        list.push(Unkept {
            arc,
            entry: unlock.entry,
            lock,
        })?;
    }
    Ok(())
}

/// Adds those of these unlocks on the arc.
fn add_unlocks(
    kept: &Signed,
    arc: ArcId,
    list: &mut Vec<Unkept>,
    unlocks: &[OwnUnlock],
) -> Result<(), NoMemory>
    ensures { OnOk result (list.new.items ≡ with_unlocks (signed_hashkey kept.now.keys) arc list.old.items unlocks.now) }
{
    for unlock in unlocks {
        add_unlock(kept, arc, list, unlock)?;
    }
    Ok(())
}

/// The first unlock of each arc and lock with a hashkey that isn't the one that was kept, by arc
/// and entry.
pub(crate) fn all_unkept(
    alloc: Global,
    kept: &Signed,
    ledgers: &[ToldLedger],
) -> Result<Vec<Unkept>, NoMemory>
    requires { length ledgers.now ≤ 256 }
    ensures { IfOk result (λ v. v.items ≡ all_unkept (signed_hashkey kept.now.keys) ledgers.now) }
{
    let mut list = Vec::new(alloc);
    let mut arc: u32 = 0;
    for ledger in ledgers {
        add_unlocks(kept, arc as ArcId, &mut list, ledger.unlocks.as_slice())?;
        arc += 1;
    }
    Ok(list)
}

/// The locks whose notes are torn or differ, ascending.
pub(crate) fn noted_locks(
    alloc: Global,
    deal: &Deal,
    noted: &[LockId],
) -> Result<Vec<LockId>, NoMemory>
    requires { IsWellSized deal.now }
    ensures { IfOk result (λ v. v.items ≡ noted_locks deal.now noted.now) }
{
    let mut locks = Vec::new(alloc);
    for lock in 0..deal.leaders.len() as LockId {
        if is_listed(lock, noted) {
            locks.push(lock)?;
        }
    }
    Ok(locks)
}

/// The locks of these.
pub(crate) fn unkept_locks(alloc: Global, list: &[Unkept]) -> Result<Vec<LockId>, NoMemory>
    ensures { IfOk result (λ v. v.items ≡ unkept_locks list.now) }
{
    let mut locks = Vec::new(alloc);
    for unkept in list {
        locks.push(unkept.lock)?;
    }
    Ok(locks)
}
