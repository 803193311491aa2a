//! What is read of publishes.

ghost use Rattle.std.specs.Prelude.{◌≡◌, ◌<◌, map};
ghost use Rattle.swap_digraph.specs.Deal.{IsWellSized};
ghost use Rattle.swap_rules.specs.Party.{is_correct, is_good, is_ready, leads_one};
ghost use Rattle.ledger_core.specs.Book.{history};
ghost use Rattle.ledger_core.specs.Facts.{checked_history_publication};
ghost use Rattle.escrow_core.specs.Terms.{stated_terms};
ghost use Rattle.due_calls.specs.DealTerms.{AreDealTerms};

use ledger_core::{Facts, Published};
use swap_base::{ArcId, PartyId};
use swap_digraph::Deal;
use time_bounds::opening_deadline;

/// Whether the party leads a lock.
pub fn leads_one(deal: &Deal, me: PartyId) -> bool
    ensures { result ≡ leads_one deal.now me }
{
    deal.leaders.as_slice().iter().any(|leader| *leader == me)
}

/// The arc's accepted publish: its height, and whether it has the correct terms.
pub fn published<F: Facts>(deal: &Deal, known: &[F], arc: ArcId) -> Option<Published>
    requires known { AreDealTerms F.terms deal.now known.now }
    ensures { result ≡ checked_history_publication (stated_terms deal.now arc) (history (map F.entries known.now) arc) }
{
    match known.get(arc as usize) {
        Some(fact) => fact.published(),
        None => None,
    }
}

/// Whether the arc's accepted publish has the correct terms.
pub fn is_correct<F: Facts>(deal: &Deal, known: &[F], arc: ArcId) -> bool
    requires known { AreDealTerms F.terms deal.now known.now }
    ensures { result ≡ is_correct deal.now (map F.entries known.now) arc }
{
    match published(deal, known, arc) {
        Some(publish) => publish.correct,
        None => false,
    }
}

/// Whether the arc's accepted publish has the correct terms, and came at most at the height by
/// which contracts open.
pub fn is_good<F: Facts>(deal: &Deal, known: &[F], arc: ArcId) -> bool
    requires sized { IsWellSized deal.now }
    requires known { AreDealTerms F.terms deal.now known.now }
    ensures { result ≡ is_good deal.now (map F.entries known.now) arc }
{
    match published(deal, known, arc) {
        Some(publish) => {
            publish.correct
                && publish.height as u64 <= opening_deadline(deal.start, deal.delta, deal.bound)
        }
        None => false,
    }
}

/// Whether every arc that enters the party is good.
#[tactic(auto, unfolding(swap_rules::specs::Party::is_ready))]
pub fn is_ready<F: Facts>(deal: &Deal, me: PartyId, known: &[F]) -> bool
    requires sized { IsWellSized deal.now }
    requires me { me < deal.now.graph.n }
    requires known { AreDealTerms F.terms deal.now known.now }
    ensures { result ≡ is_ready deal.now (map F.entries known.now) me }
{
    let entering = deal.graph.entering(me);
    entering.iter().all(|arc| is_good(deal, known, *arc))
}
