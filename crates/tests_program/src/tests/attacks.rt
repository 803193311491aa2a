//! Attacks: what a run of each reports, and that a race reports the same.

ghost use Rattle.std.specs.Prelude.{IfOk};
ghost use Rattle.swap_run.specs.View.{IsView, MayAnswer};

use crate::tests::attackers::{Answered, Attacker, attack_rule};
use crate::tests::deals::edited;
use crate::tests::runs::{Open, answer, asks, raced, rule_kit};
use ledger_core::Book;
use std::alloc::Global;
use std::sync::Wait;
use std::test::Fail;
use std::thread::Threads;
use swap_base::PartyId;
use swap_digraph::Deal;
use swap_run::{Kit, Rule};

/// The line without the height that an entry's begins with.
fn without_height(line: &str) -> &str {
    line.trim_start_matches(|c: char| c.is_ascii_digit())
}

/// Whether two answers are the same behind that word, but for the heights of entries.
fn is_same(one: &str, other: &str, word: &str) -> bool {
    match (one.split_once(word), other.split_once(word)) {
        (Some((_, one)), Some((_, other))) => {
            one.lines()
                .map(without_height)
                .eq(other.lines().map(without_height))
        }
        _ => false,
    }
}

/// A run of the job gets that answer.
fn runs_so<R: Threads + Wait + Sync>(
    rt: &R,
    alloc: Global,
    kit: &Kit,
    job: &str,
    wanted: &str,
) -> Result<(), Fail> {
    let answered = answer(rt, alloc, "run", job, &Open, kit)?;
    asks(answered.as_str() == wanted, "run", answered.as_str())
}

/// An audit of a race of the job gets the same answer behind that word, but for the heights of
/// entries.
fn races_so<R: Threads + Wait + Sync>(
    rt: &R,
    alloc: Global,
    kit: &Kit,
    job: &str,
    wanted: &str,
    word: &str,
) -> Result<(), Fail> {
    let answered = raced(rt, alloc, job, &Open, kit)?;
    asks(
        is_same(answered.as_str(), wanted, word),
        "race",
        answered.as_str(),
    )
}

/// Both of a case of a deal.
fn comes_so<R: Threads + Wait + Sync>(
    rt: &R,
    alloc: Global,
    kit: &Kit,
    deal: &str,
    case: &str,
    word: &str,
) -> Result<(), Fail> {
    let (edits, wanted) = case.split_once('\n').ok_or("no edits")?;
    let job = edited(alloc, deal, edits)?;
    runs_so(rt, alloc, kit, job.as_str(), wanted)?;
    races_so(rt, alloc, kit, job.as_str(), wanted, word)
}

/// The deal in which the strategy `attacker` goes by that attacker's rule. A case has a line with
/// edits of the deal, and the answer to a run, to which that of a race is compared from a word on.
pub(crate) fn attack<R: Threads + Wait + Sync>(
    rt: &R,
    alloc: Global,
    attacker: Attacker,
    deal: &str,
    case: &str,
    word: &str,
) -> Result<(), Fail> {
    let rule: Rule = Box::new(
        alloc,
        move |deal: &Deal, me: PartyId, turn: u32, known: &Book| -> Answered
            requires view { IsView deal.now me known.now.histories }
            ensures fits { IfOk result (MayAnswer deal.now me) }
        { attack_rule(alloc, attacker, deal, me, turn, known) },
    )?;
    let kit = rule_kit(alloc, "attacker", rule)?;
    comes_so(rt, alloc, &kit, deal, case, word)
}
