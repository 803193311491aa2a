//! Turns that wait for each other: at the gate, and within what they do.

ghost use Rattle.std.specs.Prelude.{IfOk};
ghost use Rattle.swap_run.specs.View.{IsView, MayAnswer};

use crate::tests::attackers::Answered;
use crate::tests::deals::HASHKEYS;
use crate::tests::runs::{Open, raced, rule_kit};
use ledger_core::Book;
use party_threads::Gate;
use std::alloc::Global;
use std::sync::Wait;
use std::sync::atomic::AtomicU64;
use std::sync::atomic::Ordering::SeqCst;
use std::test::Fail;
use std::thread::Threads;
use swap_base::{PartyId, Shared, TryCopy};
use swap_digraph::Deal;
use swap_run::{Kit, Rule};

/// How often it is looked whether another has come.
const TRIES: u64 = 1_000_000_000;

/// How a race ends where every party waits at the gate.
const DEALS: &str = "
party alice conforming: Deal
party bob conforming: Deal
party carol conforming: Deal
findings 0
";

/// How one ends where every party only meets the others.
const NO_DEALS: &str = "
party alice deviator: NoDeal
party bob deviator: NoDeal
party carol deviator: NoDeal
findings 0
";

/// Who comes waits until two are there, or the tries are used up.
#[derive(Drop)]
struct Company {
    there: AtomicU64,
    missed: AtomicU64,
}

impl Company {
    fn new() -> Company {
        Company {
            there: AtomicU64::new(0),
            missed: AtomicU64::new(0),
        }
    }

    fn come(&self) {
        self.there.fetch_add(1, SeqCst);
        for _ in 0..TRIES {
            if self.there.load(SeqCst) >= 2 {
                return;
            }
        }
        self.missed.fetch_add(1, SeqCst);
    }

    fn has_met(&self) -> bool {
        self.there.load(SeqCst) >= 2 && self.missed.load(SeqCst) == 0
    }
}

impl Gate for Company {
    fn pass<R: Wait>(&self, _rt: &R, _actor: u8, round: u32) {
        if round == 0 {
            self.come();
        }
    }
}

/// Whether a race of the job ends so.
fn ends<R: Threads + Wait + Sync, G: Gate>(
    rt: &R,
    alloc: Global,
    job: &str,
    gate: &G,
    kit: &Kit,
    ends: &str,
) -> Result<bool, Fail> {
    let answered = raced(rt, alloc, job, gate, kit)?;
    Ok(answered.as_str().ends_with(ends))
}

#[test]
fn gate(rt: HostRuntime) -> Result<(), Fail> {
    let gate = Company::new();
    assert!(rt;
        ends(
            &rt,
            rt.alloc(),
            HASHKEYS,
            &gate,
            &Kit::new(rt.alloc()),
            DEALS
        )?
    );
    assert!(rt; gate.has_met());
    Ok(())
}

/// Whether a race ends without a deal in which every party comes to the others in its first turn,
/// and never calls.
fn race_of_meeting<R: Threads + Wait + Sync>(
    rt: &R,
    alloc: Global,
    company: Shared<Company>,
) -> Result<bool, Fail> {
    let rule: Rule = Box::new(
        alloc,
        move |deal: &Deal, me: PartyId, turn: u32, known: &Book| -> Answered
            requires view { IsView deal.now me known.now.histories }
            ensures fits { IfOk result (MayAnswer deal.now me) }
        {
            if turn == 0 {
                company.come();
            }
            Ok(None)
        },
    )?;
    let kit = rule_kit(alloc, "meets", rule)?;
    let job = HASHKEYS.replace(
        alloc,
        "\",\"seed\":",
        "\",\"actor\":{\"strategy\":\"meets\"},\"seed\":",
    )?;
    ends(rt, alloc, job.as_str(), &Open, &kit, NO_DEALS)
}

#[test]
fn meeting(rt: HostRuntime) -> Result<(), Fail> {
    let company = Shared::new(rt.alloc(), Company::new())?;
    assert!(rt; race_of_meeting(&rt, rt.alloc(), company.copy()?)?);
    assert!(rt; company.has_met());
    Ok(())
}
