//! The heights that terms tell of an arc.

ghost use Rattle.std.specs.Prelude.{◌≡◌, ◌<◌, length};
ghost use Rattle.swap_digraph.specs.Deal.{IsWellSized};
ghost use Rattle.party_terms.specs.Times.{awake_height, busy_until, claim_deadline, last_opening, publish_deadline, refund_height, show_deadline};

use answer_rules::greatest_expiry;
use due_calls::leads_one;
use swap_base::{ArcId, PartyId};
use swap_digraph::Deal;
use time_bounds::{opening_deadline, own_expiry};

/// The last height at which a publish of the party is on time.
pub(crate) fn publish_deadline(deal: &Deal, party: PartyId) -> u64
    requires { IsWellSized deal.now }
    ensures { result ≡ publish_deadline deal.now party }
{
    if leads_one(deal, party) {
        deal.delta as u64
    } else {
        opening_deadline(deal.start, deal.delta, deal.bound)
    }
}

/// The height from which what is locked on the arc is refunded, whichever of its locks stay closed.
pub(crate) fn refund_height(deal: &Deal, arc: ArcId) -> u64
    requires sized { IsWellSized deal.now }
    requires arc { arc < length deal.now.graph.arcs }
    ensures { result ≡ refund_height deal.now arc }
{
    greatest_expiry(deal, arc) + 1
}

/// The last height at which a lock of the arc can be opened.
#[tactic(auto, unfolding(crate::specs::Times::last_opening))]
pub(crate) fn last_opening(deal: &Deal, arc: ArcId) -> u64
    requires sized { IsWellSized deal.now }
    requires arc { arc < length deal.now.graph.arcs }
    ensures { result ≡ last_opening deal.now arc }
{
    greatest_expiry(deal, arc)
}

/// The last height by which what was opened on the arc is claimed on time.
#[tactic(auto, unfolding(crate::specs::Times::claim_deadline))]
pub(crate) fn claim_deadline(deal: &Deal, arc: ArcId) -> u64
    requires sized { IsWellSized deal.now }
    requires arc { arc < length deal.now.graph.arcs }
    ensures { result ≡ claim_deadline deal.now arc }
{
    greatest_expiry(deal, arc) + deal.delta as u64
}

/// The last height at which every arc takes a leader's own hashkey.
pub(crate) fn show_deadline(deal: &Deal) -> u64
    requires { IsWellSized deal.now }
    ensures { result ≡ show_deadline deal.now }
{
    own_expiry(deal.start, deal.delta, deal.bound)
}

fn busy_until(deal: &Deal, party: PartyId, arc: ArcId) -> u64
    requires sized { IsWellSized deal.now }
    requires arc { arc < length deal.now.graph.arcs }
    ensures { result ≡ busy_until deal.now party arc }
{
    let ends = deal.graph.arcs()[arc as usize];
    if ends.from == party || ends.to == party {
        claim_deadline(deal, arc)
    } else {
        0
    }
}

/// The height up to which the party's wallet has something to do.
#[tactic(auto, using(conduct_check::proofs::LateLoops::greatest_more), unfolding(crate::specs::Times::awake_height))]
pub(crate) fn awake_height(deal: &Deal, party: PartyId) -> u64
    requires { IsWellSized deal.now }
    ensures { result ≡ awake_height deal.now party }
{
    let mut last: u64 = 0;
    'arcs: for arc in 0..deal.graph.arcs().len() as u8 {
        last = last.max(busy_until(deal, party, arc));
    }
    last
}
