//! How long a party that has nothing to do may rest.

ghost use Rattle.std.specs.Prelude.{◌≡◌, ◌<◌, true, map, length};
ghost use Rattle.swap_digraph.specs.Deal.{IsWellSized};
ghost use Rattle.swap_rules.specs.Rest.{is_waiting, rest_deadline};
ghost use Rattle.due_calls.specs.DealTerms.{AreDealTerms};

use crate::heights::least_expiry;
use crate::locks::is_triggered;
use crate::refund::{has_refunded, is_held};
use escrow_core::lesser;
use ledger_core::Facts;
use swap_base::{ArcId, PartyId};
use swap_digraph::Deal;

/// Whether the party waits for a refund on the arc, which leaves it.
fn is_waiting<F: Facts>(deal: &Deal, me: PartyId, known: &[F], arc: ArcId) -> bool
    requires sized { IsWellSized deal.now }
    requires known { AreDealTerms F.terms deal.now known.now }
    ensures exact { result ≡ is_waiting deal.now me (map F.entries known.now) arc }
    ensures within { result ≡ true → arc < length known.now }
{
    is_held(known, arc) && !is_triggered(deal, known, arc) && !has_refunded(me, known, arc)
}

/// The height up to which a party for which nothing is due may rest: the least expiry of the
/// refunds that it waits for, none where it waits for none. Ticks up to it make nothing due. It
/// takes no memory.
pub fn rest_deadline<F: Facts>(deal: &Deal, me: PartyId, known: &[F]) -> Option<u64>
    requires sized { IsWellSized deal.now }
    requires me { me < deal.now.graph.n }
    requires known { AreDealTerms F.terms deal.now known.now }
    ensures { result ≡ rest_deadline deal.now me (map F.entries known.now) }
{
    let mut until = None;
    'arcs: for arc in deal.graph.leaving(me) {
        if is_waiting(deal, me, known, *arc) {
            until = Some(lesser(until, least_expiry(deal, known, *arc)));
        }
    }
    until
}
