//! Three passes on threads of their own, and the ledger that they leave.

ghost use Rattle.std.specs.Prelude.{◌≡◌};
ghost use Rattle.swap_digraph.specs.Deal.{IsWellSized};
ghost use Rattle.ledger_shared.specs.Value.{IsPartyPass, IsCounterpartyPass};
ghost use Rattle.tests_books.specs.Stays.{Stays};

use crate::tests::passes::{make_all, shared_ledger, tick_all};
use crate::tests::replayed::replays;
use ledger_core::{EntryList, Ledger, share_deal};
use ledger_shared::{ClockPass, Pass, SharedLedger};
use std::alloc::Global;
use std::process::Abort;
use std::sync::Wait;
use std::test::Fail;
use std::thread;
use std::thread::Threads;
use swap_digraph::Deal;
use tests_parts::small_deal;

/// Bob's calls and the ticks, each on a thread of its own.
fn two_at_once<R: Threads + Wait + Sync>(
    rt: &R,
    alloc: Global,
    deal: &Deal,
    ledger: &SharedLedger,
    pass: Pass,
    clock: ClockPass,
) -> (Pass, ClockPass)
    requires sized { IsWellSized deal.now }
    requires pass { (pass.lock ≡ ledger.now.lock) × (pass.deal ≡ deal.now) × (pass.arc ≡ 0) }
    requires clock { clock.lock ≡ ledger.now.lock }
    ensures pass { Stays pass result.0 }
    ensures clock { result.1.lock ≡ clock.lock }
{
    thread::join(
        rt,
        move ||
            requires { IsWellSized deal.now × (pass.lock ≡ ledger.now.lock) × (pass.deal ≡ deal.now) × (pass.arc ≡ 0) }
        { make_all(rt, alloc, deal, ledger, pass, 0) },
        move ||
            requires { clock.lock ≡ ledger.now.lock }
        { tick_all(rt, ledger, clock) },
    )
}

/// Each pass on a thread of its own, and the ledger after all of them.
fn raced<R: Threads + Wait + Sync>(
    rt: &R,
    alloc: Global,
    deal: &Deal,
    ledger: SharedLedger,
    first: Pass,
    second: Pass,
    clock: ClockPass,
) -> Box<Ledger>
    requires sized { IsWellSized deal.now }
    requires first { IsPartyPass ledger.lock first × (first.deal ≡ deal.now) × (first.arc ≡ 0) }
    requires second { IsCounterpartyPass ledger.lock second × (second.deal ≡ deal.now) × (second.arc ≡ 0) }
    requires clock { clock.lock ≡ ledger.lock }
{
    let shared = &ledger;
    let (first, rest) = thread::join(
        rt,
        move ||
            requires { IsWellSized deal.now × (first.lock ≡ shared.now.lock) × (first.deal ≡ deal.now) × (first.arc ≡ 0) }
        { make_all(rt, alloc, deal, shared, first, 1) },
        move ||
            requires { IsWellSized deal.now × (second.lock ≡ shared.now.lock) × (second.deal ≡ deal.now) × (second.arc ≡ 0)
                × (clock.lock ≡ shared.now.lock) }
        { two_at_once(rt, alloc, deal, shared, second, clock) },
    );
    let (second, clock) = rest;
    ledger.close(first, second, clock)
}

/// The history has the replies of a ledger of one thread.
fn is_replayed(rt: &impl Abort, alloc: Global, deal: &Deal, history: &EntryList) -> Result<(), Fail>
    requires { IsWellSized deal.now }
{
    let entries = history.to_vec(alloc)?;
    let mut plain = Ledger::new(alloc, &share_deal(alloc, deal)?, 0)?;
    replays(rt, &mut plain, &entries)
}

/// The history that three threads leave has all their entries, and the replies of one thread.
fn is_left(rt: &impl Abort, alloc: Global, deal: &Deal, closed: Box<Ledger>) -> Result<(), Fail>
    requires { IsWellSized deal.now }
{
    let history = Box::into_inner(closed).into_history();
    assert!(rt; history.len() == 164 && history.calls() == 64);
    is_replayed(rt, alloc, deal, &history)
}

fn check_left<R: Threads + Wait + Sync + Abort>(
    rt: &R,
    alloc: Global,
    deal: &Deal,
) -> Result<(), Fail>
    requires { IsWellSized deal.now }
{
    let (ledger, first, second, clock) = shared_ledger(rt, alloc, deal)?;
    is_left(
        rt,
        alloc,
        deal,
        raced(rt, alloc, deal, ledger, first, second, clock),
    )
}

#[test]
fn three_threads_leave_the_replies_of_one(rt: HostRuntime) -> Result<(), Fail> {
    let deal = small_deal(rt.alloc())?;
    check_left(&rt, rt.alloc(), &deal)
}
