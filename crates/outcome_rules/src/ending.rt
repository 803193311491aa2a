//! How a book ended for a party.

ghost use Rattle.std.specs.Prelude.{◌≡◌, ◌<◌};
ghost use Rattle.swap_digraph.specs.Deal.{IsWellSized};
ghost use Rattle.ledger_core.specs.Book.{history};
ghost use Rattle.ledger_core.specs.History.{settled};
ghost use Rattle.history_index.specs.Indexes.{all_entries, AreIndexes};
ghost use Rattle.swap_rules.specs.Outcome.{got, is_claim, lost, outcome};

use due_calls::{is_correct, is_triggered};
use history_index::Index;
use ledger_core::{Facts, Settlement};
use swap_base::{ArcId, PartyId};
use swap_digraph::Deal;
use swap_rules::Outcome;

/// Whether the arc has an accepted claim.
fn is_claimed(known: &[Index], arc: ArcId) -> bool
    ensures { result ≡ is_claim (settled (history (all_entries known.now) arc)) }
{
    match known.get(arc as usize) {
        Some(index) => index.settled() == Some(Settlement::Claimed),
        None => false,
    }
}

/// How many arcs that enter the party have the correct terms and an accepted claim.
fn got(deal: &Deal, known: &[Index], party: PartyId) -> usize
    requires known { AreIndexes deal.now known.now }
    requires party { party < deal.now.graph.n }
    ensures { result ≡ got deal.now (all_entries known.now) party }
{
    let entering = deal.graph.entering(party);
    entering
        .iter()
        .filter(|arc| is_correct(deal, known, **arc) && is_claimed(known, **arc))
        .count()
}

/// How many arcs that leave the party are triggered.
fn lost(deal: &Deal, known: &[Index], party: PartyId) -> usize
    requires sized { IsWellSized deal.now }
    requires known { AreIndexes deal.now known.now }
    requires party { party < deal.now.graph.n }
    ensures { result ≡ lost deal.now (all_entries known.now) party }
{
    let leaving = deal.graph.leaving(party);
    leaving
        .iter()
        .filter(|arc| is_triggered(deal, known, **arc))
        .count()
}

/// How the book ended for the party (Herlihy 2018, section 3). It takes no memory.
#[tactic(auto, unfolding(swap_rules::specs::Outcome::outcome))]
pub fn outcome(deal: &Deal, known: &[Index], party: PartyId) -> Outcome
    requires sized { IsWellSized deal.now }
    requires known { AreIndexes deal.now known.now }
    requires party { party < deal.now.graph.n }
    ensures { result ≡ outcome deal.now (all_entries known.now) party }
{
    let lost = lost(deal, known, party);
    let got = got(deal, known, party);
    if lost == 0 {
        if got == 0 {
            Outcome::NoDeal
        } else {
            Outcome::FreeRide
        }
    } else if got < deal.graph.entering(party).len() {
        Outcome::Underwater
    } else if lost == deal.graph.leaving(party).len() {
        Outcome::Deal
    } else {
        Outcome::Discount
    }
}
