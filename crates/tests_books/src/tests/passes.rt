//! A shared ledger of the small deal, and what is called through its passes.

ghost use Rattle.std.specs.Prelude.{◌≡◌, ◌≤◌, IfOk};
ghost use Rattle.swap_digraph.specs.Deal.{IsWellSized};
ghost use Rattle.ledger_shared.specs.Value.{IsPartyPass, IsCounterpartyPass};
ghost use Rattle.tests_books.specs.Stays.{Stays};

use escrow_core::{Reply, stated_terms};
use ledger_core::{Call, Entry, Ledger, Sender, What, fits, share_deal};
use ledger_shared::{ClockPass, Pass, SharedLedger, share};
use std::alloc::Global;
use std::process::Abort;
use std::sync::Wait;
use std::test::Fail;
use swap_base::{NoMemory, PartyId, Shared};
use swap_digraph::Deal;
use tests_parts::small_deal;

/// The first arc's ledger, shared before any entry.
pub(crate) fn shared_ledger<R: Wait>(
    rt: &R,
    alloc: Global,
    deal: &Deal,
) -> Result<(SharedLedger, Pass, Pass, ClockPass), Fail>
    requires { IsWellSized deal.now }
    ensures first { IfOk result (λ s. IsPartyPass s.0.lock s.1 × (s.1.deal ≡ deal.now) × (s.1.arc ≡ 0)) }
    ensures second { IfOk result (λ s. IsCounterpartyPass s.0.lock s.2 × (s.2.deal ≡ deal.now) × (s.2.arc ≡ 0)) }
    ensures clock { IfOk result (λ s. s.3.lock ≡ s.0.lock) }
{
    let held = share_deal(alloc, deal)?;
    let ledger = Box::new(alloc, Ledger::new(alloc, &held, 0)?)?;
    match share(rt, alloc, ledger, 0, 0) {
        Ok(shared) => Ok(shared),
        Err(_) => Err("no memory".into()),
    }
}

/// One of four calls, in turn.
fn call_number(alloc: Global, deal: &Deal, i: u32, to: PartyId) -> Result<Call, NoMemory>
    requires { IsWellSized deal.now }
{
    match i % 4 {
        0 => Ok(Call::Publish(Shared::new(alloc, stated_terms(deal, 0))?)),
        1 => Ok(Call::Transfer(to, 1)),
        2 => Ok(Call::Claim),
        _ => Ok(Call::Refund),
    }
}

/// Makes a call, where it fits and there is memory for it.
fn make<R: Wait>(rt: &R, deal: &Deal, ledger: &SharedLedger, pass: &mut Pass, call: Call)
    requires lock { pass.old.lock ≡ ledger.now.lock }
    requires deal { pass.old.deal ≡ deal.now }
    requires arc { pass.old.arc ≡ 0 }
    requires sized { IsWellSized deal.now }
    ensures { Stays pass.old pass.new }
{
    if fits(deal, 0, &call) {
        let _called = ledger.call(rt, pass, call);
    }
}

/// Makes the call of a number, where there is memory for it.
fn make_number<R: Wait>(
    rt: &R,
    alloc: Global,
    deal: &Deal,
    ledger: &SharedLedger,
    pass: &mut Pass,
    i: u32,
    to: PartyId,
)
    requires lock { pass.old.lock ≡ ledger.now.lock }
    requires deal { pass.old.deal ≡ deal.now }
    requires arc { pass.old.arc ≡ 0 }
    requires sized { IsWellSized deal.now }
    ensures { Stays pass.old pass.new }
{
    if let Ok(call) = call_number(alloc, deal, i, to) {
        make(rt, deal, ledger, pass, call);
    }
}

/// The calls from a number on and below another, of four kinds in turn.
fn make_some<R: Wait>(
    rt: &R,
    alloc: Global,
    deal: &Deal,
    ledger: &SharedLedger,
    pass: &mut Pass,
    to: PartyId,
    from: u32,
    until: u32,
)
    requires lock { pass.old.lock ≡ ledger.now.lock }
    requires deal { pass.old.deal ≡ deal.now }
    requires arc { pass.old.arc ≡ 0 }
    requires sized { IsWellSized deal.now }
    ensures { Stays pass.old pass.new }
{
    'calls: for i in from..until {
        make_number(rt, alloc, deal, ledger, pass, i, to);
    }
}

/// As many calls as a sender may make, of four kinds in turn.
pub(crate) fn make_all<R: Wait>(
    rt: &R,
    alloc: Global,
    deal: &Deal,
    ledger: &SharedLedger,
    mut pass: Pass,
    to: PartyId,
) -> Pass
    requires lock { pass.lock ≡ ledger.now.lock }
    requires deal { pass.deal ≡ deal.now }
    requires arc { pass.arc ≡ 0 }
    requires sized { IsWellSized deal.now }
    ensures { Stays pass result }
{
    make_some(rt, alloc, deal, ledger, &mut pass, to, 0, 32);
    pass
}

/// Ticks once; what is answered is `None` where memory runs out.
fn tick<R: Wait>(rt: &R, ledger: &SharedLedger, pass: &mut ClockPass, k: u32) -> Option<Reply>
    requires lock { pass.old.lock ≡ ledger.now.lock }
    requires some { (1 ≤ k) × (k ≤ 1000000) }
    ensures { pass.new.lock ≡ pass.old.lock }
{
    ledger.tick(rt, pass, k).ok()
}

/// A hundred ticks by 1, as far as there is memory for them.
pub(crate) fn tick_all<R: Wait>(rt: &R, ledger: &SharedLedger, mut pass: ClockPass) -> ClockPass
    requires { pass.lock ≡ ledger.now.lock }
    ensures { result.lock ≡ pass.lock }
{
    'ticks: for _ in 0..100 {
        let _reply = tick(rt, ledger, &mut pass, 1);
    }
    pass
}

/// One entry, by party 0, whose publish is accepted.
fn is_publish(entries: &[Entry]) -> bool {
    match entries.first() {
        Some(entry) => {
            entries.len() == 1
                && entry.sender == Sender::Party(0)
                && entry.reply == Reply::Accepted
                && matches!(entry.what, What::Call(Call::Publish(_)))
        }
        None => false,
    }
}

/// Whether a look shows a publish alone.
fn shows_publish<R: Wait>(
    rt: &R,
    alloc: Global,
    ledger: &SharedLedger,
    pass: &mut Pass,
) -> Result<bool, NoMemory>
    requires { pass.old.lock ≡ ledger.now.lock }
{
    let fresh = ledger.look(rt, pass)?;
    let shown = fresh.to_vec(alloc)?;
    Ok(is_publish(&shown))
}

/// Whether the second of two ticks finds the clock full, and the pass has then seen `seen` entries.
fn fills_clock<R: Wait>(rt: &R, ledger: &SharedLedger, pass: &mut ClockPass, seen: u32) -> bool
    requires { pass.old.lock ≡ ledger.now.lock }
{
    let first = tick(rt, ledger, pass, 1_000_000);
    let second = tick(rt, ledger, pass, 1);
    first == Some(Reply::Accepted) && second == Some(Reply::ClockFull) && pass.seen() == seen
}

/// Whether a claim finds its sender full, and the pass has then seen `seen` entries, with the one
/// that this call added last.
fn is_full<R: Wait>(rt: &R, ledger: &SharedLedger, pass: &mut Pass, seen: u32) -> bool
    requires { pass.old.lock ≡ ledger.now.lock }
{
    match ledger.call(rt, pass, Call::Claim) {
        Ok(called) => {
            called.reply == Reply::SenderFull && called.fresh.len() == 1 && pass.seen() == seen
        }
        Err(_) => false,
    }
}

/// A publish through one pass is accepted, and a look through the other shows it. After 31 further
/// calls their sender is full, and the clock after one tick: neither adds anything then.
fn shows_and_fills<R: Wait + Abort>(
    rt: &R,
    alloc: Global,
    deal: &Deal,
    ledger: &SharedLedger,
    first: &mut Pass,
    second: &mut Pass,
    clock: &mut ClockPass,
) -> Result<(), Fail>
    requires first { (first.old.lock ≡ ledger.now.lock) × (first.old.deal ≡ deal.now) × (first.old.arc ≡ 0) }
    requires second { second.old.lock ≡ ledger.now.lock }
    requires clock { clock.old.lock ≡ ledger.now.lock }
    requires sized { IsWellSized deal.now }
{
    make_some(rt, alloc, deal, ledger, first, 1, 0, 1);
    assert!(rt; shows_publish(rt, alloc, ledger, second)?);
    make_some(rt, alloc, deal, ledger, first, 1, 1, 32);
    assert!(rt; fills_clock(rt, ledger, clock, 33));
    assert!(rt; is_full(rt, ledger, first, 33));
    Ok(())
}

fn shows_and_fills_new_ledger<R: Wait + Abort>(
    rt: &R,
    alloc: Global,
    deal: &Deal,
) -> Result<(), Fail>
    requires { IsWellSized deal.now }
{
    let (ledger, mut first, mut second, mut clock) = shared_ledger(rt, alloc, deal)?;
    shows_and_fills(
        rt,
        alloc,
        deal,
        &ledger,
        &mut first,
        &mut second,
        &mut clock,
    )
}

#[test]
fn a_look_shows_a_publish_and_what_is_full_adds_nothing(rt: HostRuntime) -> Result<(), Fail> {
    let deal = small_deal(rt.alloc())?;
    shows_and_fills_new_ledger(&rt, rt.alloc(), &deal)
}
