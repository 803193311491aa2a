//! The text that answers.

ghost use Rattle.std.specs.Prelude.{◌≡◌, ◌<◌, ◌≤◌, ◌++◌, OnOk, is_some, length};
ghost use Rattle.std.specs.List.{flat_map, list_any};
ghost use Rattle.swap_digraph.specs.Deal.{IsWellSized};
ghost use Rattle.history_index.specs.Indexes.{all_entries, AreIndexes};
ghost use Rattle.party_answer.specs.Text.{bad_entry_line, bad_lines, bad_text, end_text, replies_text, noted_text, rest_text, stale_text, unkept_text, wait_text};

use crate::stale::seen_height;
use crate::timed::Timed;
use crate::unkept::Unkept;
use answer_rules::are_finished;
use command_input::put_reply;
use due_calls::rest_deadline;
use history_index::Index;
use party_notes::Asked;
use swap_base::{ArcId, LockId, NoMemory, PartyId, Piece, put};
use swap_digraph::Deal;
use told_ledgers::{BadEntry, Replies, ToldLedger};

/// Appends what a ledger stated, and what the deal's contract replies, where an entry could be
/// read.
fn put_replies(out: &mut Vec<u8>, replies: Option<Replies>) -> Result<(), NoMemory>
    ensures { OnOk result (out.new.items ≡ out.old.items ++ replies_text replies) }
{
    match replies {
        Some(replies) => {
            put(out, &[Piece::Text(" ")])?;
            put_reply(out, replies.stated)?;
            put(out, &[Piece::Text(" ")])?;
            put_reply(out, replies.replayed)
        }
        None => Ok(()),
    }
}

/// Appends the line of the arc's bad entry.
#[tactic(auto, unfolding(crate::specs::Text::bad_text))]
fn put_bad(out: &mut Vec<u8>, arc: ArcId, bad: &BadEntry) -> Result<(), NoMemory>
    ensures { OnOk result (out.new.items ≡ out.old.items ++ bad_text arc bad.now) }
{
    put(
        out,
        &[
            Piece::Text("bad "),
            Piece::Number(arc as u64),
            Piece::Text(" "),
            Piece::Number(bad.entry as u64),
        ],
    )?;
    put_replies(out, bad.replies)?;
    put(out, &[Piece::Text("\n")])
}

/// Appends the line of the arc's bad entry, if it has one.
fn put_ledger(out: &mut Vec<u8>, arc: ArcId, ledger: &ToldLedger) -> Result<(), NoMemory>
    ensures { OnOk result (out.new.items ≡ out.old.items ++ bad_entry_line arc ledger.now.bad) }
{
    match &ledger.bad {
        Some(bad) => put_bad(out, arc, bad),
        None => Ok(()),
    }
}

/// Appends the lines of bad entries, by arc.
pub(crate) fn put_ledgers(out: &mut Vec<u8>, ledgers: &[ToldLedger]) -> Result<(), NoMemory>
    requires { length ledgers.now ≤ 256 }
    ensures { OnOk result (out.new.items ≡ out.old.items ++ bad_lines 0 ledgers.now) }
{
    let mut arc: u32 = 0;
    for ledger in ledgers {
        put_ledger(out, arc as ArcId, ledger)?;
        arc += 1;
    }
    Ok(())
}

/// Appends the line of the arc's stale ledger.
#[tactic(auto, unfolding(crate::specs::Text::stale_text))]
fn put_stale(out: &mut Vec<u8>, seen: &[u32], arc: ArcId) -> Result<(), NoMemory>
    ensures { OnOk result (out.new.items ≡ out.old.items ++ stale_text seen.now arc) }
{
    put(
        out,
        &[
            Piece::Text("stale "),
            Piece::Number(arc as u64),
            Piece::Text(" "),
            Piece::Number(seen_height(seen, arc) as u64),
            Piece::Text("\n"),
        ],
    )
}

/// Appends the lines of stale ledgers.
pub(crate) fn put_all_stale(
    out: &mut Vec<u8>,
    seen: &[u32],
    stale: &[ArcId],
) -> Result<(), NoMemory>
    ensures { OnOk result (out.new.items ≡ out.old.items ++ flat_map (stale_text seen.now) stale.now) }
{
    for arc in stale {
        put_stale(out, seen, *arc)?;
    }
    Ok(())
}

/// Appends the line of a lock whose notes are torn or differ.
#[tactic(auto, unfolding(crate::specs::Text::noted_text))]
fn put_noted(out: &mut Vec<u8>, lock: LockId) -> Result<(), NoMemory>
    ensures { OnOk result (out.new.items ≡ out.old.items ++ noted_text lock) }
{
    put(
        out,
        &[
            Piece::Text("unkept "),
            Piece::Number(lock as u64),
            Piece::Text("\n"),
        ],
    )
}

/// Appends the lines of locks whose notes are torn or differ.
pub(crate) fn put_all_noted(out: &mut Vec<u8>, locks: &[LockId]) -> Result<(), NoMemory>
    ensures { OnOk result (out.new.items ≡ out.old.items ++ flat_map noted_text locks.now) }
{
    for lock in locks {
        put_noted(out, *lock)?;
    }
    Ok(())
}

/// Appends the line of an unlock that was never kept.
#[tactic(auto, unfolding(crate::specs::Text::unkept_text))]
fn put_unkept(out: &mut Vec<u8>, unkept: &Unkept) -> Result<(), NoMemory>
    ensures { OnOk result (out.new.items ≡ out.old.items ++ unkept_text unkept.now) }
{
    put(
        out,
        &[
            Piece::Text("unkept "),
            Piece::Number(unkept.arc as u64),
            Piece::Text(" "),
            Piece::Number(unkept.entry as u64),
            Piece::Text(" "),
            Piece::Number(unkept.lock as u64),
            Piece::Text("\n"),
        ],
    )
}

/// Appends the lines of unlocks that were never kept.
pub(crate) fn put_all_unkept(out: &mut Vec<u8>, list: &[Unkept]) -> Result<(), NoMemory>
    ensures { OnOk result (out.new.items ≡ out.old.items ++ flat_map unkept_text list.now) }
{
    for unkept in list {
        put_unkept(out, unkept)?;
    }
    Ok(())
}

/// Appends the line that tells up to which height nothing is due.
fn put_wait(out: &mut Vec<u8>, until: Option<u64>) -> Result<(), NoMemory>
    ensures { OnOk result (out.new.items ≡ out.old.items ++ wait_text until) }
{
    match until {
        Some(height) => put(
            out,
            &[
                Piece::Text("wait "),
                Piece::Number(height),
                Piece::Text("\n"),
            ],
        ),
        None => put(out, &[Piece::Text("wait\n")]),
    }
}

/// Appends the line that tells that nothing is left to do, or up to which height nothing is due.
/// Where a ledger is stale neither is known.
#[tactic(auto, unfolding(crate::specs::Text::rest_text))]
fn put_rest(
    out: &mut Vec<u8>,
    is_stale: bool,
    deal: &Deal,
    known: &[Index],
    me: PartyId,
) -> Result<(), NoMemory>
    requires sized { IsWellSized deal.now }
    requires known { AreIndexes deal.now known.now }
    requires me { me < deal.now.graph.n }
    ensures { OnOk result (out.new.items ≡ out.old.items ++ rest_text is_stale deal.now (all_entries known.now) me) }
{
    if is_stale {
        put_wait(out, None)
    } else if are_finished(deal, known, me) {
        put(out, &[Piece::Text("done\n")])
    } else {
        put_wait(out, rest_deadline(deal, me, known))
    }
}

/// Appends that line, where nothing is answered and nothing may land.
pub(crate) fn put_end(
    out: &mut Vec<u8>,
    is_stale: bool,
    asked: &Asked,
    known: &[Index],
    calls: &[Timed],
    landing: &[Timed],
) -> Result<(), NoMemory>
    requires sized { IsWellSized asked.now.deal }
    requires known { AreIndexes asked.now.deal known.now }
    requires me { asked.now.me < asked.now.deal.graph.n }
    ensures { OnOk result (out.new.items ≡ out.old.items
        ++ end_text is_stale asked.now.deal (all_entries known.now) asked.now.me calls.now landing.now) }
{
    match (calls, landing) {
        ([], []) => put_rest(out, is_stale, &asked.deal, known, asked.me),
        _ => Ok(()),
    }
}

/// Whether a ledger has a bad entry.
pub(crate) fn is_any_bad(ledgers: &[ToldLedger]) -> bool
    ensures { result ≡ list_any (λ t. is_some t.bad) ledgers.now }
{
    ledgers.iter().any(|ledger| ledger.bad.is_some())
}
