//! What an answer warns of.

ghost use Rattle.std.specs.Prelude.{◌≡◌, ◌≤◌, ◌++◌, ◌||◌, ◌==◌, IfOk, OnOk, is_some, length, not};
ghost use Rattle.std.specs.List.{flat_map, list_any};
ghost use Rattle.swap_digraph.specs.Deal.{IsWellSized};
ghost use Rattle.history_index.specs.Indexes.{all_entries};
ghost use Rattle.party_wallet.specs.Value.{signed_hashkey};
ghost use Rattle.party_answer.specs.Inside.{warned_text};
ghost use Rattle.party_answer.specs.Stale.{is_any as is_any_stale, stale_arcs};
ghost use Rattle.party_answer.specs.Text.{bad_lines, noted_text, stale_text};
ghost use Rattle.party_answer.specs.Unkept.{all_unkept as all_unkept_unlocks, noted_locks};

use crate::stale::{is_any, stale_arcs};
use crate::text::{is_any_bad, put_all_noted, put_all_stale, put_all_unkept, put_ledgers};
use crate::unkept::{Unkept, all_unkept, noted_locks};
use history_index::Index;
use party_notes::Asked;
use std::alloc::Global;
use swap_base::{ArcId, LockId, NoMemory};

/// What an answer warns of, but for bad entries.
#[derive(Drop)]
pub struct Warned {
    /// The arcs whose ledgers are stale.
    pub stale: Vec<ArcId>,
    /// The locks whose notes are torn or differ.
    pub noted: Vec<LockId>,
    /// The unlocks that were never kept.
    pub unkept: Vec<Unkept>,
}

/// What the answer to what is asked warns of.
pub(crate) fn collect_warned(
    alloc: Global,
    asked: &Asked,
    known: &[Index],
) -> Result<Warned, NoMemory>
    requires sized { IsWellSized asked.now.deal }
    requires few { length asked.now.ledgers ≤ 256 }
    ensures stale { IfOk result (λ w. w.stale.items ≡ stale_arcs asked.now.deal asked.now.me (all_entries known.now) asked.now.kept.seen) }
    ensures noted { IfOk result (λ w. w.noted.items ≡ noted_locks asked.now.deal asked.now.kept.stopped) }
    ensures unkept { IfOk result (λ w. w.unkept.items ≡ all_unkept_unlocks (signed_hashkey asked.now.kept.signed.keys) asked.now.ledgers) }
{
    let seen = asked.kept.seen.as_slice();
    let stale = stale_arcs(alloc, &asked.deal, asked.me, known, seen)?;
    let unkept = all_unkept(alloc, &asked.kept.signed, asked.ledgers.as_slice())?;
    let noted = noted_locks(alloc, &asked.deal, asked.kept.stopped.as_slice())?;
    Ok(Warned {
        stale,
        noted,
        unkept,
    })
}

/// Appends the lines of stale ledgers, and of locks whose notes are torn or differ.
#[tactic(auto, using(crate::proofs::Joined::put_both))]
fn put_doubted(out: &mut Vec<u8>, seen: &[u32], warned: &Warned) -> Result<(), NoMemory>
    ensures { OnOk result (out.new.items ≡ out.old.items
        ++ (flat_map (stale_text seen.now) warned.now.stale.items ++ flat_map noted_text warned.now.noted.items)) }
{
    put_all_stale(out, seen, &warned.stale)?;
    put_all_noted(out, &warned.noted)
}

/// Appends these lines, and those of unkept unlocks.
#[tactic(auto, using(crate::proofs::Joined::put_both))]
fn put_warned(out: &mut Vec<u8>, seen: &[u32], warned: &Warned) -> Result<(), NoMemory>
    ensures { OnOk result (out.new.items ≡ out.old.items ++ warned_text seen.now warned.now) }
{
    put_doubted(out, seen, warned)?;
    put_all_unkept(out, &warned.unkept)
}

/// Appends what is wrong.
#[tactic(auto, using(crate::proofs::Joined::put_both))]
pub(crate) fn put_warnings(
    out: &mut Vec<u8>,
    asked: &Asked,
    warned: &Warned,
) -> Result<(), NoMemory>
    requires { length asked.now.ledgers ≤ 256 }
    ensures { OnOk result (out.new.items ≡ out.old.items ++ (warned_text asked.now.kept.seen warned.now ++ bad_lines 0 asked.now.ledgers)) }
{
    put_warned(out, asked.kept.seen.as_slice(), warned)?;
    put_ledgers(out, asked.ledgers.as_slice())
}

/// Whether a line warns.
pub(crate) fn is_warning(asked: &Asked, warned: &Warned) -> bool
    ensures { result ≡ (is_any_stale warned.now.stale.items || is_any_stale warned.now.noted.items || not (length warned.now.unkept.items == 0) || list_any (λ t. is_some t.bad) asked.now.ledgers) }
{
    is_any(&warned.stale)
        || is_any(&warned.noted)
        || !warned.unkept.is_empty()
        || is_any_bad(asked.ledgers.as_slice())
}
