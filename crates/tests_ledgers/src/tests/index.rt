//! What an index answers over a ledger's entries.

ghost use Rattle.std.specs.Prelude.{◌≡◌, ◌<◌, ◌≤◌, ◌+◌, ◌++◌, ◌∷◌, [], length, IfOk, OnOk};
ghost use Rattle.swap_digraph.specs.Deal.{IsWellSized, party, counterparty};
ghost use Rattle.ledger_core.specs.History.{IsLegal};
ghost use Rattle.history_index.specs.Numbers.{IsIndexable};

use crate::tests::ledgers::{first_ledger, follow};
use history_index::{Index, Steps};
use ledger_core::{BoxedEntry, CallKind, Entry, Facts, Ledger, Published, Settlement};
use std::alloc::Global;
use std::marker::Brand;
use std::process::Abort;
use std::sync::ledger::{Blank, Ledger as Counted};
use std::test::Fail;
use swap_base::{ArcId, TryCopy};
use swap_digraph::Deal;

/// Puts an entry into an index that has room for it.
fn push_copy<L: Counted>(
    alloc: Global,
    entry: &Entry,
    index: &mut Index,
    steps: &mut Steps<L>,
) -> Result<(), Fail>
    requires indexable { IsIndexable index.old.from index.old.to (index.old.entries ++ entry.now ∷ []) }
    requires room { 0 < index.old.spare }
    ensures index { OnOk result (index.new.entries ≡ index.old.entries ++ entry.now ∷ []) }
    ensures from { OnOk result (index.new.from ≡ index.old.from) }
    ensures to { OnOk result (index.new.to ≡ index.old.to) }
    ensures spare { OnOk result (index.old.spare ≤ index.new.spare + 1) }
{
    index.push(BoxedEntry::new(alloc, entry.copy()?)?, steps);
    Ok(())
}

/// Puts entries one by one into an index that has room for all.
fn fill<L: Counted>(
    alloc: Global,
    deal: &Deal,
    arc: ArcId,
    history: &[Entry],
    index: &mut Index,
    steps: &mut Steps<L>,
) -> Result<(), Fail>
    requires sized { IsWellSized deal.now }
    requires legal { IsLegal deal.now arc history.now }
    requires index { index.old.entries ≡ [] }
    requires from { index.old.from ≡ party deal.now arc }
    requires to { index.old.to ≡ counterparty deal.now arc }
    requires room { length history.now ≤ index.old.spare }
    ensures from { OnOk result (index.new.from ≡ party deal.now arc) }
    ensures to { OnOk result (index.new.to ≡ counterparty deal.now arc) }
{
    for entry in history {
        push_copy(alloc, entry, index, steps)?;
    }
    Ok(())
}

/// The entries of a ledger, one by one.
fn ledger_entries(alloc: Global, ledger: &Ledger) -> Result<Vec<Entry>, Fail>
    ensures { IfOk result (λ v. IsLegal ledger.now.deal ledger.now.arc v.items) }
{
    let _history = ledger.history();
    Ok(ledger.copy_tail(0)?.to_vec(alloc)?)
}

/// Whether an index of a ledger's entries tells of the claimed contract below.
fn tell_entries<L: Counted>(
    alloc: Global,
    ledger: &Ledger,
    entries: &[Entry],
    steps: &mut Steps<L>,
) -> Result<bool, Fail>
    requires { IsLegal ledger.now.deal ledger.now.arc entries.now }
{
    let (deal, arc) = (ledger.deal(), ledger.arc());
    let mut index = Index::new(alloc, deal, arc)?;
    index.reserve(entries.len())?;
    fill(alloc, deal, arc, entries, &mut index, steps)?;
    Ok(tells(&index))
}

fn told<L: Counted>(alloc: Global, ledger: &Ledger, steps: &mut Steps<L>) -> Result<bool, Fail> {
    let entries = ledger_entries(alloc, ledger)?;
    tell_entries(alloc, ledger, &entries, steps)
}

fn counted<L: Counted>(alloc: Global, ledger: &Ledger, blank: Blank) -> Result<bool, Fail>
    requires name { blank.name ≡ L.name }
    requires parts { blank.parts ≡ L.parts }
    requires one { blank.parts ≡ 1 }
{
    let mut steps = Steps::<L>::new(blank);
    told(alloc, ledger, &mut steps)
}

fn indexed(alloc: Global, ledger: &Ledger) -> Result<bool, Fail> {
    counted::<Brand>(alloc, ledger, Blank::new(1))
}

/// A contract of other terms, claimed.
const SETTLED: &str = "\
tick 3 => Accepted 100 0 0
a publish 99 => Accepted 1 0 99
b unlock 1 1 => Accepted 1 0 99
b unlock 0 0 => Accepted 1 0 99
b claim => Accepted 1 99 0";

/// Whether the index tells of the claimed contract.
fn tells_settled(index: &Index) -> bool {
    index.height() == 3
        && index.published()
            == Some(Published {
                height: 3,
                correct: false,
            })
        && index.published_number() == Some(1)
        && index.settled() == Some(Settlement::Claimed)
}

/// Whether the index tells how the contract was opened.
fn tells_opened(index: &Index) -> bool {
    index.terms().locks.len() == 2 && index.unlocked(0) == Some(3) && index.unlocked(1) == Some(2)
}

/// Whether the index tells who made a call.
fn tells_called(index: &Index) -> bool {
    index.called(1, CallKind::Unlock(0))
        && index.called(1, CallKind::Claim)
        && !index.called(0, CallKind::Claim)
        && !index.called(0, CallKind::Refund)
}

fn tells(index: &Index) -> bool {
    tells_settled(index) && tells_opened(index) && tells_called(index)
}

fn is_settled(rt: &impl Abort, alloc: Global, ledger: &mut Ledger) -> Result<(), Fail> {
    follow(rt, alloc, ledger, SETTLED)?;
    let told = indexed(alloc, ledger)?;
    assert!(rt; told);
    Ok(())
}

#[test]
fn answers_of_a_settled_contract(rt: HostRuntime) -> Result<(), Fail> {
    let mut ledger = first_ledger(rt.alloc())?;
    is_settled(&rt, rt.alloc(), &mut ledger)
}
