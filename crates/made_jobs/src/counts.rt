//! What a summary counts.

ghost use Rattle.std.specs.Prelude.{◌≡◌, ◌<◌, ◌≤◌, ℕ, length, count_by};
ghost use Rattle.ledger_core.specs.Book.{history};
ghost use Rattle.ledger_core.specs.Runs.{ledger_entries, expand};
ghost use Rattle.made_jobs.specs.Counts.{ended_so, entry_count, is_counted_accepted, is_refused, refused_count, same_outcome};

use escrow_core::Reply;
use ledger_core::{EntryList, Item};
use swap_rules::Outcome;

fn is_counted_accepted(reply: Reply) -> bool
    ensures { result ≡ is_counted_accepted reply }
{
    match reply {
        Reply::Accepted => true,
        _ => false,
    }
}

/// How many entries of an item are refused; ticks that are one item are none.
#[tactic(auto, using(crate::proofs::Refused::none_refused))]
fn refused_calls(item: &Item) -> usize
    ensures value { result ≡ count_by is_refused (ledger_entries item.now) }
    ensures few { result ≤ 1 }
{
    match item {
        Item::One(entry) => {
            if is_counted_accepted(entry.reply) {
                0
            } else {
                1
            }
        }
        Item::Ticks(_) => 0,
    }
}

fn count_refused(items: &[Item]) -> usize
    ensures { result ≡ count_by is_refused (expand items.now) }
{
    let mut sum: usize = 0;
    for item in items {
        sum += refused_calls(item);
    }
    sum
}

/// How many entries of a history are refused.
#[tactic(auto, using(crate::proofs::Refused::refused_append, crate::proofs::Refused::none_refused))]
fn total_refused(entries: &EntryList) -> usize
    ensures { result ≡ count_by is_refused entries.now }
{
    let (items, _) = entries.parts();
    count_refused(items)
}

/// All entries of a book, ticks too.
pub(crate) fn entry_count(histories: &[EntryList]) -> u64
    requires few { length histories.now ≤ 128 }
    requires short { (a : ℕ) → a < length histories.now → length (history histories.now a) ≤ 20064 }
    ensures { result ≡ entry_count histories.now }
{
    let mut sum: u64 = 0;
    for entries in histories {
        sum += entries.len() as u64;
    }
    sum
}

/// Those of them that are refused.
pub(crate) fn refused_count(histories: &[EntryList]) -> u64
    requires few { length histories.now ≤ 128 }
    requires short { (a : ℕ) → a < length histories.now → length (history histories.now a) ≤ 20064 }
    ensures { result ≡ refused_count histories.now }
{
    let mut sum: u64 = 0;
    for entries in histories {
        sum += total_refused(entries) as u64;
    }
    sum
}

fn same_outcome(a: Outcome, b: Outcome) -> bool
    ensures { result ≡ same_outcome a b }
{
    a == b
}

/// How many parties ended so.
pub(crate) fn ended_so(outcome: Outcome, outcomes: &[Outcome]) -> usize
    ensures { result ≡ ended_so outcome outcomes.now }
{
    outcomes
        .iter()
        .filter(|other| same_outcome(outcome, **other))
        .count()
}
