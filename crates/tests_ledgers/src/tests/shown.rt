//! The deal and the hashkey of the tables, and what is told of a journal.

ghost use Rattle.std.specs.Prelude.{IfOk};
ghost use Rattle.swap_digraph.specs.Deal.{IsWellSized};

use hash_signature::Sig;
use hashkey_path::Hashkey;
use std::alloc::{AllocError, Global};
use std::test::Fail;
use swap_base::{Listed, LockId, NoMemory, Shared};
use swap_digraph::Deal;
use tests_parts::small_deal;
use wallet_journal::{Journal, MemoryDisk, Unopened};

/// A deal of the parties 0 and 1 with two locks, whose id is 32 bytes 7.
pub(crate) fn deal_of_sevens(alloc: Global) -> Result<Deal, Fail>
    ensures { IfOk result (λ d. IsWellSized d) }
{
    let mut deal = small_deal(alloc)?;
    deal.id = [7; 32];
    Ok(deal)
}

fn sigs(alloc: Global) -> Result<Vec<Sig>, NoMemory> {
    let mut sigs = Vec::new(alloc);
    sigs.push(Sig::new([[5; 32]; 67]))?;
    sigs.push(Sig::new([[6; 32]; 67]))?;
    Ok(sigs)
}

/// A hashkey for lock 0, of the vertices 1 and 0.
pub(crate) fn hashkey(alloc: Global) -> Result<Shared<Hashkey>, Fail> {
    let path = Vec::from_slice(alloc, &[1, 0])?;
    let sigs = sigs(alloc)?;
    let key = Hashkey {
        lock: 0,
        secret: [9; 32],
        path: Listed::new(path),
        sigs: Listed::new(sigs),
    };
    Ok(Shared::new(alloc, key)?)
}

/// The hashkey that a journal shows for a lock, if there is such a lock.
fn shown(journal: &Journal<MemoryDisk>, lock: LockId) -> Option<&Hashkey> {
    if (lock as usize) < journal.keys().len() {
        journal.signed(lock)
    } else {
        None
    }
}

fn path_shown(journal: &Journal<MemoryDisk>, lock: LockId) -> Option<&[u8]> {
    match shown(journal, lock) {
        Some(key) => Some(key.path.as_slice()),
        None => None,
    }
}

/// The vertices that a journal shows for its two locks.
pub(crate) fn paths_told(
    alloc: Global,
    journal: &Journal<MemoryDisk>,
) -> Result<String, AllocError> {
    let (first, second) = (path_shown(journal, 0), path_shown(journal, 1));
    format!(in alloc; "{first:?} {second:?}")
}

fn is_same(found: &Hashkey, key: &Hashkey) -> bool {
    found.lock == key.lock
        && found.secret == key.secret
        && found.path.as_slice() == key.path.as_slice()
        && found.sigs.as_slice() == key.sigs.as_slice()
}

/// Which hashkey a journal shows for lock 0, and whether it shows one for lock 1.
pub(crate) fn key_told(journal: &Journal<MemoryDisk>, key: &Hashkey) -> &'static str {
    if shown(journal, 1).is_some() {
        return "a key for lock 1";
    }
    match shown(journal, 0) {
        Some(found) if is_same(found, key) => "the key",
        Some(_) => "another key",
        None => "no key",
    }
}

/// Why a journal isn't opened.
pub(crate) fn refusal(why: Unopened) -> &'static str {
    match why {
        Unopened::DiskFault => "DiskFault",
        Unopened::Foreign => "Foreign",
        Unopened::Damaged(0) => "Damaged 0",
        Unopened::Damaged(1) => "Damaged 1",
        Unopened::Damaged(_) => "Damaged, no lock of the deal",
        Unopened::NoMemory => "NoMemory",
    }
}
