//! What passes the gate, round by round, and what strategies are asked there.

ghost use Rattle.std.specs.Prelude.{IfOk};
ghost use Rattle.swap_run.specs.View.{IsView, MayAnswer};

use crate::tests::attackers::Answered;
use crate::tests::deals::HASHKEYS;
use crate::tests::runs::{raced, rule_kit};
use ledger_core::Book;
use party_threads::Gate;
use std::alloc::Global;
use std::sync::Wait;
use std::sync::atomic::AtomicU64;
use std::sync::atomic::Ordering::SeqCst;
use std::test::Fail;
use std::thread::Threads;
use swap_base::{PartyId, Shared, TryCopy};
use swap_digraph::Deal;
use swap_run::Rule;

/// The rounds of a race whose ledgers end at the height 71.
const ROUNDS: u64 = 71;

/// How often each party passed, and the clock, how often a strategy was asked, and what was out of
/// order.
#[derive(Drop)]
struct Tally {
    alice: AtomicU64,
    bob: AtomicU64,
    carol: AtomicU64,
    clock: AtomicU64,
    nobody: AtomicU64,
    asked: AtomicU64,
    astray: AtomicU64,
}

impl Tally {
    fn new() -> Tally {
        Tally {
            alice: AtomicU64::new(0),
            bob: AtomicU64::new(0),
            carol: AtomicU64::new(0),
            clock: AtomicU64::new(0),
            nobody: AtomicU64::new(0),
            asked: AtomicU64::new(0),
            astray: AtomicU64::new(0),
        }
    }

    fn actor_counter(&self, actor: u8) -> &AtomicU64 {
        match actor {
            0 => &self.alice,
            1 => &self.bob,
            2 => &self.carol,
            3 => &self.clock,
            _ => &self.nobody,
        }
    }

    fn hold(&self, right: bool) {
        if !right {
            self.astray.fetch_add(1, SeqCst);
        }
    }

    /// Each round of an actor comes once, and after those before.
    fn pass(&self, actor: u8, round: u32) {
        let before = self.actor_counter(actor).fetch_add(1, SeqCst);
        self.hold(before == round as u64);
    }

    /// A strategy is asked in its party's turn, once it has passed; and what it is shown has no
    /// tick of a turn for which the clock hasn't passed.
    fn ask(&self, me: PartyId, turn: u32, known: &Book) {
        self.asked.fetch_add(1, SeqCst);
        self.hold(self.actor_counter(me).load(SeqCst) == turn as u64 + 1);
        for history in known.histories.as_slice() {
            let ticks = self.clock.load(SeqCst);
            self.hold(history.len() as u64 <= ticks.saturating_add(history.calls() as u64));
        }
    }

    /// Whether each passed once in each round and each party was asked once in each, and nothing
    /// was out of order.
    fn is_right(&self) -> bool {
        self.alice.load(SeqCst) == ROUNDS
            && self.bob.load(SeqCst) == ROUNDS
            && self.carol.load(SeqCst) == ROUNDS
            && self.clock.load(SeqCst) == ROUNDS
            && self.nobody.load(SeqCst) == 0
            && self.asked.load(SeqCst) == 3 * ROUNDS
            && self.astray.load(SeqCst) == 0
    }
}

/// A gate that keeps nobody, and counts.
#[derive(Drop)]
struct Counting {
    tally: Shared<Tally>,
}

impl Gate for Counting {
    fn pass<R: Wait>(&self, _rt: &R, actor: u8, round: u32) {
        self.tally.pass(actor, round);
    }
}

/// A race in which every party is asked in each of its turns, and never calls.
fn race_counted<R: Threads + Wait + Sync>(
    rt: &R,
    alloc: Global,
    tally: Shared<Tally>,
    gate: &Counting,
) -> Result<String, Fail> {
    let rule: Rule = Box::new(
        alloc,
        move |deal: &Deal, me: PartyId, turn: u32, known: &Book| -> Answered
            requires view { IsView deal.now me known.now.histories }
            ensures fits { IfOk result (MayAnswer deal.now me) }
        {
            tally.ask(me, turn, known);
            Ok(None)
        },
    )?;
    let kit = rule_kit(alloc, "counts", rule)?;
    let job = HASHKEYS.replace(
        alloc,
        "\",\"seed\":",
        "\",\"actor\":{\"strategy\":\"counts\"},\"seed\":",
    )?;
    raced(rt, alloc, job.as_str(), gate, &kit)
}

/// Each turn of each party, and each of the clock, passes the gate first, by its number and its
/// round; and a view is asked once.
#[test]
fn every_turn_passes(rt: HostRuntime) -> Result<(), Fail> {
    let tally = Shared::new(rt.alloc(), Tally::new())?;
    let gate = Counting {
        tally: tally.copy()?,
    };
    race_counted(&rt, rt.alloc(), tally.copy()?, &gate)?;
    assert!(rt; tally.is_right());
    Ok(())
}
