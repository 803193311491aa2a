//! The digraph of proposed transfers.

ghost use Rattle.std.specs.Prelude.{◌≡◌, ◌≤◌, length, map, IfOk};
ghost use Rattle.swap_base.specs.Fault.{Gives};
ghost use Rattle.swap_digraph.specs.Graph.{HasEnds};
ghost use Rattle.swap_clear.specs.Proposals.{resolve_arc_ends, proposed_graph, proposals_graph};

use crate::fault::{ClearFault, ClearReason};
use crate::proposed::Proposed;
use std::alloc::Global;
use swap_base::{Fault, NoMemory};
use swap_digraph::{ArcEnds, ArcFault, Digraph, Version};

/// The ends of the proposals, in order.
fn all_ends(alloc: Global, arcs: &[Proposed]) -> Result<Vec<ArcEnds>, NoMemory>
    ensures { IfOk result (λ l. l.items ≡ map resolve_arc_ends arcs.now) }
{
    let mut ends = Vec::new(alloc);
    for arc in arcs {
        ends.push(ArcEnds {
            from: arc.from,
            to: arc.to,
        })?;
    }
    Ok(ends)
}

/// The digraph of the proposals, or the first fault of the least that has one.
pub fn proposals_graph(alloc: Global, n: u8, arcs: &[Proposed]) -> Result<Digraph, ClearFault>
    requires few { length arcs.now ≤ 128 }
    ensures exact { Gives (λ g. g) result (proposals_graph n arcs.now) }
    ensures graph { IfOk result (λ g. (g ≡ proposed_graph n arcs.now) × HasEnds g) }
{
    let ends = all_ends(alloc, arcs)?;
    match Digraph::new(alloc, n, ends, Version::Two) {
        Ok(graph) => Ok(graph),
        Err(Fault::NoMemory) => Err(Fault::NoMemory),
        Err(Fault::Refused(ArcFault::OutOfRange(k))) => Err(Fault::Refused(ClearReason::OutOfRange(
            k as u32,
        ))),
        Err(Fault::Refused(ArcFault::SelfArc(k))) => Err(Fault::Refused(ClearReason::SelfArc(
            k as u32,
        ))),
        Err(Fault::Refused(ArcFault::Parallel(_, _))) => unreachable!(),
    }
}
