//! How entries are kept: ticks as runs, and an entry in few bytes.

ghost use Rattle.std.specs.Prelude.{◌≤◌, length};

use crate::tests::ledgers::{first_ledger, follow};
use ledger_core::{Entry, EntryList, Ledger, Run};
use std::alloc::Global;
use std::process::Abort;
use std::test::Fail;
use swap_base::{NoMemory, TryCopy};

/// Ticks by 1 and by 2, and calls between them: 12 entries.
const APART: &str = "\
2 times tick 1 => Accepted 100 0 0
2 times tick 2 => Accepted 100 0 0
b claim => NoContract 100 0 0
tick 2 => Accepted 100 0 0
a pay b 1 => Accepted 99 1 0
b claim => NoContract 99 1 0
tick 1 => Accepted 99 1 0
3 times tick 2 => Accepted 99 1 0";

/// Whether a list has `count` entries, by its length and one by one.
fn has(alloc: Global, list: &EntryList, count: usize) -> Result<bool, Fail> {
    let entries = list.to_vec(alloc)?;
    Ok(list.len() == count && entries.len() == count)
}

/// Whether a ledger's copy that begins at place k has `count` entries.
fn has_tail(alloc: Global, ledger: &Ledger, k: usize, count: usize) -> Result<bool, Fail>
    requires { k ≤ length ledger.now.history }
{
    let rest = ledger.copy_tail(k)?;
    has(alloc, &rest, count)
}

fn check_copies(rt: &impl Abort, alloc: Global, ledger: &Ledger, k: usize) -> Result<(), Fail>
    requires { k ≤ 12 }
{
    assert!(rt; k <= ledger.len() as usize);
    let has = has_tail(alloc, ledger, k, 12 - k)?;
    assert!(rt; has, "from {k}");
    Ok(())
}

/// A copy from each entry on has the entries after it.
fn copies(rt: &impl Abort, alloc: Global, ledger: &Ledger) -> Result<(), Fail> {
    for k in 0..13 {
        check_copies(rt, alloc, ledger, k)?;
    }
    Ok(())
}

/// A list of the entries, put in one by one.
fn pushed(alloc: Global, entries: &[Entry]) -> Result<EntryList, Fail> {
    let mut list = EntryList::empty(alloc);
    for entry in entries {
        list.push(entry.copy()?)?;
    }
    Ok(list)
}

/// Whether these are the last ticks: three by 2 above height 9.
fn are_last(run: Run) -> bool {
    run.above == 9 && run.by == 2 && run.count == 3
}

/// Whether three calls stand among seven items, and then the last ticks.
fn is_in_runs(list: EntryList) -> bool {
    if list.calls() != 3 {
        return false;
    }
    let (items, open) = list.into_parts();
    items.len() == 7 && are_last(open)
}

/// The entries of a ledger, put one by one into another list.
fn put_again(alloc: Global, ledger: &Ledger) -> Result<EntryList, Fail> {
    let entries = ledger.copy_tail(0)?.to_vec(alloc)?;
    pushed(alloc, &entries)
}

fn copy_is_in_runs(list: &EntryList) -> Result<bool, NoMemory> {
    Ok(is_in_runs(list.copy()?))
}

/// Whether the last ticks stand in both, a copy of a list and the list.
fn are_in_runs(list: EntryList) -> Result<(bool, bool), NoMemory> {
    let of_copy = copy_is_in_runs(&list)?;
    Ok((of_copy, is_in_runs(list)))
}

/// The ticks of a ledger are runs in a list into which its entries are put one by one, and in a
/// copy of that list.
fn are_runs(rt: &impl Abort, alloc: Global, ledger: &Ledger) -> Result<(), Fail> {
    let (of_copy, of_list) = are_in_runs(put_again(alloc, ledger)?)?;
    assert!(rt; of_copy, "a copy");
    assert!(rt; of_list, "one by one");
    Ok(())
}

fn keeps_runs(rt: &impl Abort, alloc: Global, ledger: &mut Ledger) -> Result<(), Fail> {
    follow(rt, alloc, ledger, APART)?;
    copies(rt, alloc, ledger)?;
    are_runs(rt, alloc, ledger)
}

fn ends_in_runs(rt: &impl Abort, ledger: Ledger) {
    assert!(rt; is_in_runs(ledger.into_history()), "the ledger's");
}

#[test]
fn ticks_are_runs(rt: HostRuntime) -> Result<(), Fail> {
    let mut ledger = first_ledger(rt.alloc())?;
    keeps_runs(&rt, rt.alloc(), &mut ledger)?;
    ends_in_runs(&rt, ledger);
    Ok(())
}

#[test]
fn an_entry_is_small(rt: HostRuntime) {
    assert!(rt; size_of::<Entry>() <= 48);
}
