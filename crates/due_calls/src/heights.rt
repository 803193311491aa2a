//! The heights of ledgers, of publishes, and of the least expiry.

ghost use Rattle.std.specs.Prelude.{◌≡◌, ◌<◌, ◌^◌, length, map};
ghost use Rattle.swap_digraph.specs.Deal.{IsWellSized};
ghost use Rattle.ledger_core.specs.Book.{history};
ghost use Rattle.ledger_core.specs.History.{height, published};
ghost use Rattle.swap_rules.specs.Party.{publication_height, least_expiry, ready_height};
ghost use Rattle.due_calls.specs.DealTerms.{AreDealTerms};

use crate::locks::{expiry, is_open};
use crate::readings::published;
use escrow_core::lesser;
use ledger_core::Facts;
use swap_base::{ArcId, PartyId};
use swap_digraph::Deal;

/// The height of the arc's ledger, the sum of its ticks.
pub fn arc_height<F: Facts>(known: &[F], arc: ArcId) -> u32
    ensures { result ≡ height (history (map F.entries known.now) arc) }
{
    match known.get(arc as usize) {
        Some(fact) => fact.height(),
        None => 0,
    }
}

/// The height of the arc's accepted publish, 0 where there is none.
pub fn publish_height<F: Facts>(deal: &Deal, known: &[F], arc: ArcId) -> u32
    requires known { AreDealTerms F.terms deal.now known.now }
    ensures { result ≡ publication_height (published (history (map F.entries known.now) arc)) }
{
    match published(deal, known, arc) {
        Some(publish) => publish.height,
        None => 0,
    }
}

/// The greatest publish height of the arcs that enter the party.
#[tactic(auto, using(crate::proofs::Greatest::greatest_fold), unfolding(swap_rules::specs::Party::ready_height))]
pub fn ready_height<F: Facts>(deal: &Deal, me: PartyId, known: &[F]) -> u32
    requires me { me < deal.now.graph.n }
    requires known { AreDealTerms F.terms deal.now known.now }
    ensures { result ≡ ready_height deal.now (map F.entries known.now) me }
{
    let entering = deal.graph.entering(me);
    entering
        .iter()
        .map(|arc| publish_height(deal, known, *arc))
        .fold(0, |most, height| most.max(height))
}

/// The least expiry of the locks that aren't opened on the arc, 0 where all are.
#[tactic(auto, using(escrow_core::proofs::Least::unwrap_least))]
pub fn least_expiry<F: Facts>(deal: &Deal, known: &[F], arc: ArcId) -> u64
    requires sized { IsWellSized deal.now }
    requires known { AreDealTerms F.terms deal.now known.now }
    requires arc { arc < length deal.now.graph.arcs }
    ensures exact { result ≡ least_expiry deal.now arc (history (map F.entries known.now) arc) }
    ensures small { result < 2 ^ 62 }
{
    let mut least = None;
    for lock in 0..deal.leaders.len() as u8 {
        if !is_open(deal, known, arc, lock) {
            least = Some(lesser(least, expiry(deal, arc, lock)));
        }
    }
    least.unwrap_or(0)
}
