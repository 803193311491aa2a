//! What stood on an arc before the entry with a number.

ghost use Rattle.std.specs.Prelude.{◌≡◌, ◌<◌, ◌&&◌, nat_lt, not, is_some, length, take};
ghost use Rattle.ledger_core.specs.Book.{history};
ghost use Rattle.ledger_core.specs.History.{is_open, published, triggered};
ghost use Rattle.swap_rules.specs.Party.{expiry, has_expired};
ghost use Rattle.history_index.specs.Indexes.{all_entries};
ghost use Rattle.history_index.specs.Made.{history_calls};
ghost use Rattle.history_index.specs.Numbers.{comes_earlier, published_number};
ghost use Rattle.ledger_core.specs.Facts.{opened_number};
ghost use Rattle.conduct_check.specs.Judged.{judged_book, IsJudged};

use crate::judged::Judged;
use due_calls::expiry;
use history_index::{Index, Made};
use ledger_core::Facts;
use swap_base::{ArcId, LockId};

/// The calls on the arc, with their numbers.
pub(crate) fn made_calls<'a>(known: &'a [Index], arc: ArcId) -> &'a [Made]
    ensures { result.now ≡ history_calls (history (all_entries known.now) arc) }
{
    match known.get(arc as usize) {
        Some(index) => index.made(),
        None => &[],
    }
}

fn comes_earlier(at: Option<u32>, number: u32) -> bool
    ensures { result ≡ comes_earlier at number }
{
    match at {
        None => false,
        Some(n) => n < number,
    }
}

/// The number of the accepted publish on the arc.
fn published_number(known: &[Index], arc: ArcId) -> Option<u32>
    ensures { result ≡ published_number (history (all_entries known.now) arc) }
{
    match known.get(arc as usize) {
        Some(index) => index.published_number(),
        None => None,
    }
}

/// The number of the accepted unlock of the lock on the arc.
fn opened_number(judged: &Judged<'_>, arc: ArcId, lock: LockId) -> Option<u32>
    requires judged { IsJudged judged.now }
    requires lock { lock < length judged.now.deal.now.leaders }
    ensures { result ≡ opened_number (history (judged_book judged.now) arc) lock }
{
    match judged.known.get(arc as usize) {
        Some(index) => index.unlocked(lock),
        None => None,
    }
}

/// Whether a publish was accepted on the arc before.
#[tactic(auto, using(history_index::proofs::Calls::published_before))]
pub(crate) fn was_published(known: &[Index], arc: ArcId, number: u32) -> bool
    ensures { result ≡ is_some (published (take number (history (all_entries known.now) arc))) }
{
    comes_earlier(published_number(known, arc), number)
}

/// Whether the lock was opened on the arc before.
#[tactic(auto, using(history_index::proofs::Calls::open_before))]
fn was_open(judged: &Judged<'_>, arc: ArcId, number: u32, lock: LockId) -> bool
    requires judged { IsJudged judged.now }
    requires lock { lock < length judged.now.deal.now.leaders }
    ensures { result ≡ is_open (take number (history (judged_book judged.now) arc)) lock }
{
    comes_earlier(opened_number(judged, arc, lock), number)
}

/// Whether every lock was opened on the arc before.
pub(crate) fn was_triggered(judged: &Judged<'_>, arc: ArcId, number: u32) -> bool
    requires judged { IsJudged judged.now }
    ensures { result ≡ triggered judged.now.deal.now (take number (history (judged_book judged.now) arc)) }
{
    (0..judged.deal.leaders.len() as u8).all(|lock| was_open(judged, arc, number, lock))
}

/// Whether the lock wasn't opened on the arc before, and the height is above its expiry.
fn was_expired(judged: &Judged<'_>, arc: ArcId, number: u32, at: u32, lock: LockId) -> bool
    requires judged { IsJudged judged.now }
    requires arc { arc < length judged.now.deal.now.graph.arcs }
    requires lock { lock < length judged.now.deal.now.leaders }
    ensures { result ≡ (not (is_open (take number (history (judged_book judged.now) arc)) lock) && nat_lt (expiry judged.now.deal.now arc lock) at) }
{
    !was_open(judged, arc, number, lock) && expiry(judged.deal, arc, lock) < at as u64
}

/// Whether the height is above the expiry of a lock that wasn't opened on the arc before.
pub(crate) fn had_expired(judged: &Judged<'_>, arc: ArcId, number: u32, at: u32) -> bool
    requires judged { IsJudged judged.now }
    requires arc { arc < length judged.now.deal.now.graph.arcs }
    ensures { result ≡ has_expired judged.now.deal.now arc (take number (history (judged_book judged.now) arc)) at }
{
    (0..judged.deal.leaders.len() as u8).any(|lock| was_expired(judged, arc, number, at, lock))
}
