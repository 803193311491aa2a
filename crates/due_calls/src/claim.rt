//! The claim that is due.

ghost use Rattle.std.specs.Prelude.{◌≡◌, ◌<◌, IfSome, map, option_map, length};
ghost use Rattle.std.specs.List.{find};
ghost use Rattle.swap_digraph.specs.Graph.{entering};
ghost use Rattle.swap_digraph.specs.Deal.{IsWellSized};
ghost use Rattle.swap_rules.specs.Due.{due_claims, first, has_called, is_claiming, is_due_claim};
ghost use Rattle.ledger_core.specs.Book.{history};
ghost use Rattle.due_calls.specs.DealTerms.{AreDealTerms};
ghost use Rattle.due_calls.specs.Settling.{claim_action};

use crate::locks::is_triggered;
use crate::readings::is_correct;
use ledger_core::{CallKind, Facts};
use swap_base::{ArcId, PartyId};
use swap_digraph::Deal;

/// Whether the party made a claim on the arc, whatever the reply.
fn has_claimed<F: Facts>(me: PartyId, known: &[F], arc: ArcId) -> bool
    ensures { result ≡ has_called me is_claiming (history (map F.entries known.now) arc) }
{
    match known.get(arc as usize) {
        Some(fact) => fact.called(me, CallKind::Claim),
        None => false,
    }
}

/// Whether the arc is correct and triggered, and the party made no claim there.
#[tactic(auto, unfolding(swap_rules::specs::Due::is_due_claim))]
pub fn is_due_claim<F: Facts>(deal: &Deal, me: PartyId, known: &[F], arc: ArcId) -> bool
    requires sized { IsWellSized deal.now }
    requires known { AreDealTerms F.terms deal.now known.now }
    ensures { result ≡ is_due_claim deal.now me (map F.entries known.now) arc }
{
    is_correct(deal, known, arc) && is_triggered(deal, known, arc) && !has_claimed(me, known, arc)
}

/// The first entering arc that passes the test.
fn first_claim<F: Facts>(deal: &Deal, me: PartyId, known: &[F]) -> Option<ArcId>
    requires sized { IsWellSized deal.now }
    requires me { me < deal.now.graph.n }
    requires known { AreDealTerms F.terms deal.now known.now }
    ensures { result ≡ find (is_due_claim deal.now me (map F.entries known.now)) (entering deal.now.graph me) }
{
    let entering = deal.graph.entering(me);
    entering
        .iter()
        .copied()
        .find(|arc| is_due_claim(deal, me, known, *arc))
}

/// The first entering arc on which the party is to claim. It takes no memory.
pub fn due_claim<F: Facts>(deal: &Deal, me: PartyId, known: &[F]) -> Option<ArcId>
    requires sized { IsWellSized deal.now }
    requires me { me < deal.now.graph.n }
    requires known { AreDealTerms F.terms deal.now known.now }
    ensures first { option_map claim_action result ≡ first (due_claims deal.now me (map F.entries known.now)) }
    ensures arc { IfSome result (λ a. a < length deal.now.graph.arcs) }
{
    first_claim(deal, me, known)
}
