//! A ledger under a lock.

ghost use Rattle.std.specs.Prelude.{◌≡◌, ◌≤◌, [], IsTrue, OnOk, OnErr, IfOk, IfErr, length, take, drop};
ghost use mathlib.Core.List.{IsPrefix};
ghost use Rattle.swap_digraph.specs.Deal.{party, counterparty};
ghost use Rattle.ledger_core.specs.History.{fit, IsLegal};
ghost use Rattle.ledger_core.specs.CallSignatures.{is_known_call};
ghost use Rattle.ledger_shared.specs.Value.{party_made, with_seen, party_pass, table_clock, IsPartyPass, IsCounterpartyPass, HasCalled, HasTicked, Closes};
ghost use Rattle.ledger_shared.specs.Value.{ClosesClock};

use crate::locked::{Called, call_at_end, fresh_entries, tick_at_end};
use crate::pass::{ClockPass, Pass};
use crate::seat::{Seated, close, give, seat_three, take};
use crate::shelf::Shelf;
use escrow_core::Reply;
use ledger_core::{Call, EntryList, Ledger};
use std::alloc::Global;
use std::marker::Model;
use std::sync::Wait;
use swap_base::NoMemory;
use turn_lock::TurnLock;

/// A ledger that threads share.
#[derive(Drop)]
pub struct SharedLedger {
    lock: TurnLock<Shelf>,
}

impl Model for SharedLedger {
    ghost use Rattle.std.specs.Prelude.{◌≡◌};
    ghost use Rattle.ledger_shared.specs.Value.{SharedState};

    ghost Value = { SharedState };

    ghost view = { λ s. record { lock = s.lock.lock } };

    ghost invariant = { λ s. s.lock.seats ≡ 3 };
}

/// Memory ran out: the ledger comes back.
#[derive(Debug, Drop)]
pub struct LedgerBack {
    pub ledger: Box<Ledger>,
}

/// Memory ran out: the call comes back, and nothing was called.
#[derive(Debug, Drop)]
pub struct CallBack {
    pub call: Call,
}

/// Shares a ledger. It stays in its box, so that it goes from hand to hand as a pointer. The first
/// pass is for the arc's party and has seen the first `first` entries. The second is for its
/// counterparty and has seen the first `second`. The third is for the clock and has seen all.
pub fn share<R: Wait>(
    rt: &R,
    alloc: Global,
    ledger: Box<Ledger>,
    first: u32,
    second: u32,
) -> Result<(SharedLedger, Pass, Pass, ClockPass), LedgerBack>
    requires first { (first ≤ length ledger.value.history) × (party_made (party ledger.value.deal ledger.value.arc) (drop first ledger.value.history) ≡ []) }
    requires second { (second ≤ length ledger.value.history) × (party_made (counterparty ledger.value.deal ledger.value.arc) (drop second ledger.value.history)
        ≡ []) }
    ensures first { IfOk result (λ s. s.1 ≡ party_pass s.0.lock ledger.value (party ledger.value.deal ledger.value.arc) (take first ledger.value.history)) }
    ensures second { IfOk result (λ s. s.2 ≡ party_pass s.0.lock ledger.value (counterparty ledger.value.deal ledger.value.arc)
        (take second ledger.value.history)) }
    ensures clock { IfOk result (λ s. s.3 ≡ table_clock s.0.lock ledger.value) }
    ensures back { IfErr result (λ b. b.ledger ≡ ledger) }
{
    let whole = ledger.len();
    let arc = ledger.arc();
    let ends = ledger.deal().graph.arcs()[arc as usize];
    match seat_three(rt, alloc, ledger) {
        Ok(seated) => {
            let Seated {
                lock,
                first: one,
                second: two,
                clock: three,
            } = seated;
            let first = Pass {
                seat: one,
                party: ends.from,
                seen: first,
            };
            let second = Pass {
                seat: two,
                party: ends.to,
                seen: second,
            };
            let clock = ClockPass {
                seat: three,
                seen: whole,
            };
            Ok((SharedLedger { lock }, first, second, clock))
        }
        Err(ledger) => Err(LedgerBack { ledger }),
    }
}

impl SharedLedger {
    /// Makes a call, whose signatures are verified while the turn is taken. It waits for the turn.
    pub fn call<R: Wait>(&self, rt: &R, pass: &mut Pass, call: Call) -> Result<Called, CallBack>
        requires lock { pass.old.lock ≡ self.now.lock }
        requires fits { IsTrue (fit pass.old.deal pass.old.arc call) }
        ensures called { IfOk result (λ c. HasCalled pass.old call c.reply c.fresh) }
        ensures seen { IfOk result (λ c. pass.new ≡ with_seen pass.old c.fresh) }
        ensures whole { OnOk result (IsPrefix pass.old.shared pass.new.seen) }
        ensures legal { OnOk result (IsLegal pass.old.deal pass.old.arc pass.new.seen) }
        ensures back { IfErr result (λ b. b.call ≡ call) }
        ensures kept { OnErr result (pass.new ≡ pass.old) }
    {
        self.call_known(rt, pass, call, 0)
    }

    /// Makes a call. The last `verified` of its signatures were verified before, and aren't
    /// verified here. It waits for the turn.
    pub fn call_known<R: Wait>(
        &self,
        rt: &R,
        pass: &mut Pass,
        call: Call,
        verified: usize,
    ) -> Result<Called, CallBack>
        requires lock { pass.old.lock ≡ self.now.lock }
        requires fits { IsTrue (fit pass.old.deal pass.old.arc call) }
        requires known { IsTrue (is_known_call verified pass.old.deal call) }
        ensures called { IfOk result (λ c. HasCalled pass.old call c.reply c.fresh) }
        ensures seen { IfOk result (λ c. pass.new ≡ with_seen pass.old c.fresh) }
        ensures whole { OnOk result (IsPrefix pass.old.shared pass.new.seen) }
        ensures legal { OnOk result (IsLegal pass.old.deal pass.old.arc pass.new.seen) }
        ensures back { IfErr result (λ b. b.call ≡ call) }
        ensures kept { OnErr result (pass.new ≡ pass.old) }
    {
        let mut ledger = take(rt, &self.lock, &mut pass.seat);
        match call_at_end(&mut ledger, pass.seen, pass.party, call, verified) {
            Ok(called) => {
                pass.seen = ledger.len();
                give(&self.lock, &mut pass.seat, ledger);
                Ok(called)
            }
            Err(call) => {
                give(&self.lock, &mut pass.seat, ledger);
                Err(CallBack { call })
            }
        }
    }

    /// The entries that the pass hadn't seen, up to the end of the history at a moment of this
    /// call. It waits for the turn.
    pub fn look<R: Wait>(&self, rt: &R, pass: &mut Pass) -> Result<EntryList, NoMemory>
        requires lock { pass.old.lock ≡ self.now.lock }
        ensures seen { IfOk result (λ fresh. pass.new ≡ with_seen pass.old fresh) }
        ensures foreign { IfOk result (λ fresh. party_made pass.old.party fresh ≡ []) }
        ensures whole { OnOk result (IsPrefix pass.old.shared pass.new.seen) }
        ensures legal { OnOk result (IsLegal pass.old.deal pass.old.arc pass.new.seen) }
        ensures kept { OnErr result (pass.new ≡ pass.old) }
    {
        let ledger = take(rt, &self.lock, &mut pass.seat);
        match fresh_entries(&ledger, pass.seen) {
            Ok(fresh) => {
                pass.seen = ledger.len();
                give(&self.lock, &mut pass.seat, ledger);
                Ok(fresh)
            }
            Err(NoMemory) => {
                give(&self.lock, &mut pass.seat, ledger);
                Err(NoMemory)
            }
        }
    }

    /// Raises the height by k. It waits for the turn.
    pub fn tick<R: Wait>(&self, rt: &R, pass: &mut ClockPass, k: u32) -> Result<Reply, NoMemory>
        requires lock { pass.old.lock ≡ self.now.lock }
        requires some { 1 ≤ k }
        requires below { k ≤ 1000000 }
        ensures ticked { IfOk result (λ r. HasTicked pass.old k r pass.new) }
        ensures whole { OnOk result (IsPrefix pass.old.shared pass.new.seen) }
        ensures legal { OnOk result (IsLegal pass.old.deal pass.old.arc pass.new.seen) }
        ensures kept { OnErr result (pass.new ≡ pass.old) }
    {
        let mut ledger = take(rt, &self.lock, &mut pass.seat);
        match tick_at_end(&mut ledger, k) {
            Ok(reply) => {
                pass.seen = ledger.len();
                give(&self.lock, &mut pass.seat, ledger);
                Ok(reply)
            }
            Err(NoMemory) => {
                give(&self.lock, &mut pass.seat, ledger);
                Err(NoMemory)
            }
        }
    }

    /// The ledger. Its history has all that the passes have seen, and each party's entries in it
    /// are those of its pass. It takes no memory and waits for nobody.
    pub fn close(self, first: Pass, second: Pass, clock: ClockPass) -> Box<Ledger>
        requires first { IsPartyPass self.lock first }
        requires second { IsCounterpartyPass self.lock second }
        requires clock { clock.lock ≡ self.lock }
        ensures first { Closes result.value first }
        ensures second { Closes result.value second }
        ensures clock { ClosesClock result.value clock }
        ensures legal { IsLegal result.value.deal result.value.arc result.value.history }
    {
        let SharedLedger { lock } = self;
        let ledger = close(lock, first.seat, second.seat, clock.seat);
        let _history = ledger.history();
        ledger
    }
}
