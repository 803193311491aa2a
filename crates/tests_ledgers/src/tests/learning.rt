//! A party that learns a ledger piece by piece takes a step for each entry, whatever the pieces.

ghost use Rattle.std.specs.Prelude.{◌≡◌, ◌<◌, [], true, length, OnOk, IfOk};
ghost use Rattle.swap_digraph.specs.Deal.{IsWellSized};
ghost use Rattle.party_machine.specs.Machine.{new_machine};
ghost use Rattle.tests_ledgers.specs.UpTo.{IsLonger, KnowsFirstEntries};

use escrow_core::Reply;
use history_index::{Index, Steps};
use ledger_core::{Facts, Ledger, share_deal};
use party_machine::Machine;
use party_wallet::Wallet;
use std::alloc::Global;
use std::marker::Brand;
use std::process::Abort;
use std::sync::ledger::{Blank, Ledger as Counted};
use std::test::Fail;
use swap_base::Digest;
use swap_digraph::Deal;
use tests_parts::small_deal;

fn tick_once(ledger: &mut Ledger) -> Result<(), Fail>
    ensures { OnOk result (IsLonger ledger.old ledger.new) }
{
    ledger.reserve()?;
    match ledger.tick(1) {
        Reply::Accepted => Ok(()),
        _ => Err("the clock is full".into()),
    }
}

fn tick_often(ledger: &mut Ledger, count: u32) -> Result<(), Fail>
    ensures { OnOk result (IsLonger ledger.old ledger.new) }
{
    'ticks: for _ in 0..count {
        tick_once(ledger)?;
    }
    Ok(())
}

/// Lets a machine learn a ledger up to its end.
fn look<L: Counted>(
    machine: &mut Machine,
    ledger: &Ledger,
    steps: &mut Steps<L>,
) -> Result<(), Fail>
    requires { KnowsFirstEntries machine.old ledger.now steps.old }
    ensures { OnOk result (KnowsFirstEntries machine.new ledger.now steps.new) }
{
    let arc = ledger.arc();
    let _history = ledger.history();
    let fresh = ledger.copy_tail(machine.known(arc).count() as usize)?;
    machine.learn(arc, fresh, steps)?;
    Ok(())
}

/// Whether an index has 10,000 ticks and no call.
fn are_ticks(index: &Index) -> bool
    ensures { result ≡ true → length index.now.entries ≡ 10000 }
{
    index.count() == 10_000 && index.height() == 10_000 && index.made().is_empty()
}

/// Lets a machine learn ticks in pieces of one size, until there are 10,000 ticks. That takes
/// 10,000 steps.
fn learn_in_pieces<L: Counted>(
    rt: &impl Abort,
    machine: &mut Machine,
    ledger: &mut Ledger,
    piece: u32,
    steps: &mut Steps<L>,
) -> Result<(), Fail>
    requires some { 0 < piece }
    requires up_to { KnowsFirstEntries machine.old ledger.old steps.old }
    ensures { OnOk result (steps.new ≡ 10000) }
{
    'looks: for _ in 0..10_000 / piece {
        tick_often(ledger, piece)?;
        look(machine, ledger, steps)?;
    }
    assert!(rt; are_ticks(machine.known(ledger.arc())));
    Ok(())
}

/// The machine of party b, which leads no lock.
fn make_machine(alloc: Global, deal: &Deal, seed: &Digest) -> Result<Machine, Fail>
    requires sized { IsWellSized deal.now }
    requires party { 1 < deal.now.graph.n }
    ensures { IfOk result (λ m. m ≡ new_machine deal.now 1 seed.now) }
{
    let wallet = Wallet::for_deal(alloc, seed, 1, deal)?;
    match Machine::new(alloc, deal, 1, wallet) {
        Ok(machine) => Ok(machine),
        Err(_) => Err("no machine".into()),
    }
}

/// Lets a machine of its own learn a ledger that has no entry yet.
fn learn_anew<L: Counted>(
    rt: &impl Abort,
    alloc: Global,
    deal: &Deal,
    piece: u32,
    ledger: &mut Ledger,
    steps: &mut Steps<L>,
) -> Result<(), Fail>
    requires some { 0 < piece }
    requires sized { IsWellSized deal.now }
    requires party { 1 < deal.now.graph.n }
    requires arc { 0 < length deal.now.graph.arcs }
    requires new { ledger.old ≡ record { deal = deal.now; arc = 0; history = []; spare = 0 } }
    requires none { steps.old ≡ 0 }
    ensures { OnOk result (steps.new ≡ 10000) }
{
    let mut machine = make_machine(alloc, deal, &[9; 32])?;
    learn_in_pieces(rt, &mut machine, ledger, piece, steps)
}

fn learn_pieces<L: Counted>(
    rt: &impl Abort,
    alloc: Global,
    deal: &Deal,
    piece: u32,
    steps: &mut Steps<L>,
) -> Result<(), Fail>
    requires some { 0 < piece }
    requires sized { IsWellSized deal.now }
    requires party { 1 < deal.now.graph.n }
    requires arc { 0 < length deal.now.graph.arcs }
    requires none { steps.old ≡ 0 }
    ensures { OnOk result (steps.new ≡ 10000) }
{
    let held = share_deal(alloc, deal)?;
    let mut ledger = Ledger::new(alloc, &held, 0)?;
    learn_anew(rt, alloc, deal, piece, &mut ledger, steps)
}

fn count_steps<L: Counted>(
    rt: &impl Abort,
    alloc: Global,
    piece: u32,
    blank: Blank,
) -> Result<(), Fail>
    requires some { 0 < piece }
    requires name { blank.name ≡ L.name }
    requires parts { blank.parts ≡ L.parts }
    requires one { blank.parts ≡ 1 }
{
    let deal = small_deal(alloc)?;
    let mut steps = Steps::<L>::new(blank);
    learn_pieces(rt, alloc, &deal, piece, &mut steps)
}

fn learns(rt: &impl Abort, alloc: Global, piece: u32) -> Result<(), Fail>
    requires { 0 < piece }
{
    count_steps::<Brand>(rt, alloc, piece, Blank::new(1))
}

#[test]
fn learns_ten_thousand_ticks_in_as_many_steps(rt: HostRuntime) -> Result<(), Fail> {
    learns(&rt, rt.alloc(), 1)?;
    learns(&rt, rt.alloc(), 1_000)
}
