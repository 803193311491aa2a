//! When a party is done.

ghost use Rattle.std.specs.Prelude.{◌≡◌, ◌<◌, ◌^◌, is_some, length, nat_lt, true};
ghost use Rattle.std.specs.List.{list_all};
ghost use Rattle.swap_digraph.specs.Deal.{IsWellSized};
ghost use Rattle.ledger_core.specs.Book.{history};
ghost use Rattle.ledger_core.specs.History.{height, published as published_in, settled};
ghost use Rattle.history_index.specs.Indexes.{all_entries, AreIndexes};
ghost use Rattle.answer_rules.specs.Finished.{are_finished, is_arc_finished, is_shut, greatest_expiry};

use due_calls::{expiry, published};
use history_index::Index;
use ledger_core::Facts;
use swap_base::{ArcId, PartyId};
use swap_digraph::Deal;
use time_bounds::opening_deadline;

/// The greatest height up to which a lock of the arc can be opened.
#[tactic(auto, using(conduct_check::proofs::LateLoops::greatest_more))]
pub fn greatest_expiry(deal: &Deal, arc: ArcId) -> u64
    requires sized { IsWellSized deal.now }
    requires arc { arc < length deal.now.graph.arcs }
    ensures exact { result ≡ greatest_expiry deal.now arc }
    ensures small { result < 2 ^ 62 }
{
    let mut last: u64 = 0;
    'locks: for lock in 0..deal.leaders.len() as u8 {
        last = last.max(expiry(deal, arc, lock));
    }
    last
}

fn is_settled(known: &[Index], arc: ArcId) -> bool
    ensures { result ≡ is_some (settled (history (all_entries known.now) arc)) }
{
    match known.get(arc as usize) {
        Some(index) => index.settled().is_some(),
        None => false,
    }
}

#[tactic(auto, using(conduct_check::proofs::FirstAnswer::some_published))]
fn is_published(deal: &Deal, known: &[Index], arc: ArcId) -> bool
    requires { AreIndexes deal.now known.now }
    ensures { result ≡ is_some (published_in (history (all_entries known.now) arc)) }
{
    published(deal, known, arc).is_some()
}

/// Whether the arc's ledger stands above the height.
fn has_passed_height(known: &[Index], arc: ArcId, least: u64) -> bool
    ensures exact { result ≡ nat_lt least (height (history (all_entries known.now) arc)) }
    ensures within { result ≡ true → arc < length known.now }
{
    match known.get(arc as usize) {
        Some(index) => least < index.height() as u64,
        None => false,
    }
}

/// Whether nothing that helps can begin on the arc.
#[tactic(auto, using(crate::proofs::Arcs::one_each))]
fn is_shut(deal: &Deal, known: &[Index], arc: ArcId) -> bool
    requires sized { IsWellSized deal.now }
    requires known { AreIndexes deal.now known.now }
    ensures { result ≡ is_shut deal.now (all_entries known.now) arc }
{
    let opens = opening_deadline(deal.start, deal.delta, deal.bound);
    if is_published(deal, known, arc) || !has_passed_height(known, arc, opens) {
        return false;
    }
    has_passed_height(known, arc, greatest_expiry(deal, arc))
}

/// Whether the arc's contract is settled, or can't be entered any more.
fn is_arc_finished(deal: &Deal, known: &[Index], arc: ArcId) -> bool
    requires sized { IsWellSized deal.now }
    requires known { AreIndexes deal.now known.now }
    ensures { result ≡ is_arc_finished deal.now (all_entries known.now) arc }
{
    is_settled(known, arc) || is_shut(deal, known, arc)
}

/// Whether each of these arcs is finished.
fn all_finished(deal: &Deal, known: &[Index], arcs: &[ArcId]) -> bool
    requires sized { IsWellSized deal.now }
    requires known { AreIndexes deal.now known.now }
    ensures { result ≡ list_all (is_arc_finished deal.now (all_entries known.now)) arcs.now }
{
    arcs.iter().all(|arc| is_arc_finished(deal, known, *arc))
}

/// Whether each arc that leaves or enters the party is finished.
pub fn are_finished(deal: &Deal, known: &[Index], me: PartyId) -> bool
    requires sized { IsWellSized deal.now }
    requires known { AreIndexes deal.now known.now }
    requires me { me < deal.now.graph.n }
    ensures { result ≡ are_finished deal.now (all_entries known.now) me }
{
    all_finished(deal, known, deal.graph.leaving(me))
        && all_finished(deal, known, deal.graph.entering(me))
}
