//! The publish that is due.

ghost use Rattle.std.specs.Prelude.{◌≡◌, ◌<◌, ◌||◌, IfSome, map, option_map, length, not};
ghost use Rattle.std.specs.List.{find};
ghost use Rattle.swap_digraph.specs.Graph.{leaving};
ghost use Rattle.swap_digraph.specs.Deal.{IsWellSized};
ghost use Rattle.swap_rules.specs.Party.{is_ready, leads_one};
ghost use Rattle.swap_rules.specs.Conduct.{is_publish};
ghost use Rattle.swap_rules.specs.Due.{due_publishes, first, has_called};
ghost use Rattle.ledger_core.specs.Book.{history};
ghost use Rattle.due_calls.specs.DealTerms.{AreDealTerms};
ghost use Rattle.due_calls.specs.Publish.{publish_action};

use crate::readings::{is_ready, leads_one};
use ledger_core::{CallKind, Facts};
use swap_base::{ArcId, PartyId};
use swap_digraph::Deal;

/// Whether the party made a publish on the arc, whatever the reply.
pub fn has_published<F: Facts>(me: PartyId, known: &[F], arc: ArcId) -> bool
    ensures { result ≡ has_called me is_publish (history (map F.entries known.now) arc) }
{
    match known.get(arc as usize) {
        Some(fact) => fact.called(me, CallKind::Publish),
        None => false,
    }
}

/// The first leaving arc without a publish of the party.
fn first_unpublished<F: Facts>(deal: &Deal, me: PartyId, known: &[F]) -> Option<ArcId>
    requires me { me < deal.now.graph.n }
    ensures { result ≡ find (λ a. not (has_called me is_publish (history (map F.entries known.now) a))) (leaving deal.now.graph me) }
{
    let leaving = deal.graph.leaving(me);
    leaving
        .iter()
        .copied()
        .find(|arc| !has_published(me, known, *arc))
}

/// Whether the party leads or is ready.
pub fn may_publish<F: Facts>(deal: &Deal, me: PartyId, known: &[F]) -> bool
    requires sized { IsWellSized deal.now }
    requires me { me < deal.now.graph.n }
    requires known { AreDealTerms F.terms deal.now known.now }
    ensures { result ≡ (leads_one deal.now me || is_ready deal.now (map F.entries known.now) me) }
{
    leads_one(deal, me) || is_ready(deal, me, known)
}

/// The first leaving arc on which the party is to publish the correct terms. It takes no memory.
pub fn due_publish<F: Facts>(deal: &Deal, me: PartyId, known: &[F]) -> Option<ArcId>
    requires sized { IsWellSized deal.now }
    requires me { me < deal.now.graph.n }
    requires known { AreDealTerms F.terms deal.now known.now }
    ensures first { option_map (publish_action deal.now) result ≡ first (due_publishes deal.now me (map F.entries known.now)) }
    ensures arc { IfSome result (λ a. a < length deal.now.graph.arcs) }
{
    if !may_publish(deal, me, known) {
        return None;
    }
    first_unpublished(deal, me, known)
}
