//! The arcs that touch each party, listed once for all rounds of a fair finish.

ghost use Rattle.std.specs.Prelude.{◌≡◌, IfOk};
ghost use Rattle.swap_digraph.specs.Deal.{IsWellSized};
ghost use Rattle.swap_run.specs.Fair.{adjacent_arcs};
ghost use Rattle.swap_world.specs.TouchingArcs.{all_adjacent};

use ledger_core::is_adjacent;
use std::alloc::Global;
use swap_base::{ArcId, Listed, NoMemory, PartyId};
use swap_digraph::Deal;

/// The arcs that touch a party, ascending.
fn adjacent_arcs(alloc: Global, deal: &Deal, p: PartyId) -> Result<Listed<ArcId>, NoMemory>
    requires { IsWellSized deal.now }
    ensures { IfOk result (λ l. l ≡ adjacent_arcs deal.now p) }
{
    let mut near = Vec::new(alloc);
    'arcs: for arc in 0..deal.graph.arcs().len() as ArcId {
        if is_adjacent(deal, arc, p) {
            near.push(arc)?;
        }
    }
    Ok(Listed::new(near))
}

/// The arcs that touch each party, by party, each list ascending.
pub fn arcs_by_party(alloc: Global, deal: &Deal) -> Result<Vec<Listed<ArcId>>, NoMemory>
    requires { IsWellSized deal.now }
    ensures { IfOk result (λ v. v.items ≡ all_adjacent deal.now) }
{
    let mut all = Vec::new(alloc);
    'parties: for p in 0..deal.graph.n() {
        all.push(adjacent_arcs(alloc, deal, p)?)?;
    }
    Ok(all)
}
