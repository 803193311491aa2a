//! The terms of a contract.

ghost use Rattle.std.specs.Prelude.{◌≡◌, ◌<◌, length};
ghost use Rattle.swap_digraph.specs.Deal.{IsWellSized};
ghost use Rattle.escrow_core.specs.Terms.{same_terms, stated_terms};

use crate::lock_list::LockList;
use swap_base::ArcId;
use swap_digraph::Deal;

/// What a publish states. The contract's times come from its own terms.
#[derive(Clone, Copy, Debug)]
pub struct Terms {
    pub locks: LockList,
    /// Heights, at most 1,000,000 in a call that fits, as are `delta`, `bound` and `timelock`.
    pub start: u32,
    pub delta: u32,
    pub bound: u32,
    pub timelock: u32,
    /// Units, at most 10^12 in a call that fits.
    pub amount: u64,
}

impl Terms {
    /// Whether both state the same.
    pub fn same(&self, other: &Terms) -> bool
        ensures { result ≡ same_terms self.now other.now }
    {
        self.locks.same(&other.locks)
            && self.start == other.start
            && self.delta == other.delta
            && self.bound == other.bound
            && self.timelock == other.timelock
            && self.amount == other.amount
    }
}

/// The correct terms of an arc, which are those of the deal.
pub fn stated_terms(deal: &Deal, arc: ArcId) -> Terms
    requires sized { IsWellSized deal.now }
    requires arc { arc < length deal.now.graph.arcs }
    ensures { result ≡ stated_terms deal.now arc }
{
    Terms {
        locks: LockList::from_slice(deal.hashlocks.as_slice()),
        start: deal.start,
        delta: deal.delta,
        bound: deal.bound,
        timelock: deal.timelocks.as_slice()[arc as usize],
        amount: deal.amounts.as_slice()[arc as usize],
    }
}
