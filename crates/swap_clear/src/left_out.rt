//! The arcs that lie on no cycle.

ghost use Rattle.std.specs.Prelude.{◌≡◌, ◌<◌, ◌≤◌, length, IfOk};
ghost use Rattle.swap_digraph.specs.Graph.{HasEnds};
ghost use Rattle.swap_clear.specs.Groups.{reachable_parties, all_left_out};
ghost use Rattle.swap_clear.specs.Rows.{TellsReach};

use crate::answer::LeftOut;
use crate::reach::reaches;
use std::alloc::Global;
use swap_base::{Listed, NoMemory, PartyId};
use swap_digraph::{Digraph, PathList};

/// The parties that v reaches, ascending.
fn reachable_parties(
    alloc: Global,
    graph: &Digraph,
    rows: &[u32],
    v: PartyId,
) -> Result<PathList, NoMemory>
    requires parties { graph.now.n ≤ 32 }
    requires rows { TellsReach graph.now rows.now }
    requires v { v < graph.now.n }
    ensures { IfOk result (λ l. l ≡ reachable_parties graph.now v) }
{
    let mut parties = Vec::new(alloc);
    for w in 0..graph.n() {
        if reaches(rows, v, w) {
            parties.push(w)?;
        }
    }
    Ok(Listed::new(parties))
}

/// The arcs that lie on no cycle, ascending, each with what its counterparty reaches.
pub fn left_out(alloc: Global, graph: &Digraph, rows: &[u32]) -> Result<Listed<LeftOut>, NoMemory>
    requires parties { graph.now.n ≤ 32 }
    requires few { length graph.now.arcs ≤ 128 }
    requires ends { HasEnds graph.now }
    requires rows { TellsReach graph.now rows.now }
    ensures { IfOk result (λ l. l ≡ all_left_out graph.now) }
{
    let mut list = Vec::new(alloc);
    for (number, arc) in graph.arcs().iter().enumerate() {
        if !reaches(rows, arc.to, arc.from) {
            let closed = reachable_parties(alloc, graph, rows, arc.to)?;
            list.push(LeftOut {
                arc: number as u32,
                closed,
            })?;
        }
    }
    Ok(Listed::new(list))
}
