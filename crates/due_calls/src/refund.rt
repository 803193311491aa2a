//! The refund that is due.

ghost use Rattle.std.specs.Prelude.{◌≡◌, ◌<◌, ◌&&◌, true, IfSome, is_none, is_some, map, option_map, length};
ghost use Rattle.std.specs.List.{find};
ghost use Rattle.swap_digraph.specs.Graph.{leaving};
ghost use Rattle.swap_digraph.specs.Deal.{IsWellSized};
ghost use Rattle.swap_rules.specs.Due.{due_refunds, first, has_called, is_due_refund, is_refunding};
ghost use Rattle.ledger_core.specs.Book.{history};
ghost use Rattle.ledger_core.specs.History.{published, settled};
ghost use Rattle.due_calls.specs.DealTerms.{AreDealTerms};
ghost use Rattle.due_calls.specs.Settling.{refund_action};

use crate::heights::arc_height;
use crate::locks::{has_expired, is_triggered};
use ledger_core::{CallKind, Facts};
use swap_base::{ArcId, PartyId};
use swap_digraph::Deal;

/// Whether the arc carries an accepted publish and isn't settled.
pub(crate) fn is_held<F: Facts>(known: &[F], arc: ArcId) -> bool
    ensures exact { result ≡ (is_some (published (history (map F.entries known.now) arc)) && is_none (settled (history (map F.entries known.now) arc))) }
    ensures within { result ≡ true → arc < length known.now }
{
    match known.get(arc as usize) {
        Some(fact) => fact.published().is_some() && fact.settled().is_none(),
        None => false,
    }
}

/// Whether the party made a refund on the arc, whatever the reply.
pub(crate) fn has_refunded<F: Facts>(me: PartyId, known: &[F], arc: ArcId) -> bool
    ensures { result ≡ has_called me is_refunding (history (map F.entries known.now) arc) }
{
    match known.get(arc as usize) {
        Some(fact) => fact.called(me, CallKind::Refund),
        None => false,
    }
}

/// Whether the arc carries an accepted publish, is neither settled nor triggered, and is above the
/// expiry of a closed lock, and the party made no refund there.
#[tactic(auto, unfolding(swap_rules::specs::Due::is_due_refund))]
pub fn is_due_refund<F: Facts>(deal: &Deal, me: PartyId, known: &[F], arc: ArcId) -> bool
    requires sized { IsWellSized deal.now }
    requires known { AreDealTerms F.terms deal.now known.now }
    ensures { result ≡ is_due_refund deal.now me (map F.entries known.now) arc }
{
    is_held(known, arc)
        && !is_triggered(deal, known, arc)
        && has_expired(deal, known, arc, arc_height(known, arc))
        && !has_refunded(me, known, arc)
}

/// The first leaving arc that passes the test.
fn first_refund<F: Facts>(deal: &Deal, me: PartyId, known: &[F]) -> Option<ArcId>
    requires sized { IsWellSized deal.now }
    requires me { me < deal.now.graph.n }
    requires known { AreDealTerms F.terms deal.now known.now }
    ensures { result ≡ find (is_due_refund deal.now me (map F.entries known.now)) (leaving deal.now.graph me) }
{
    let leaving = deal.graph.leaving(me);
    leaving
        .iter()
        .copied()
        .find(|arc| is_due_refund(deal, me, known, *arc))
}

/// The first leaving arc on which the party is to take a refund. It takes no memory.
pub fn due_refund<F: Facts>(deal: &Deal, me: PartyId, known: &[F]) -> Option<ArcId>
    requires sized { IsWellSized deal.now }
    requires me { me < deal.now.graph.n }
    requires known { AreDealTerms F.terms deal.now known.now }
    ensures first { option_map refund_action result ≡ first (due_refunds deal.now me (map F.entries known.now)) }
    ensures arc { IfSome result (λ a. a < length deal.now.graph.arcs) }
{
    first_refund(deal, me, known)
}
