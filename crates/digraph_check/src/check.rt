//! The check of a digraph.

ghost use Rattle.std.specs.Prelude.{◌≡◌, ◌<◌, ◌≤◌, length, IfOk};
ghost use Rattle.swap_digraph.specs.Graph.{HasEnds, IsStronglyConnected};
ghost use Rattle.digraph_check.specs.Reach.{closed_set, reversed};
ghost use Rattle.digraph_check.specs.Closed.{IsClosedSet};
ghost use Rattle.digraph_check.specs.Tree.{AreTrees, IsSearch};
ghost use Rattle.digraph_check.specs.Shown.{set_shown, IfStrong, IfClosed};

use crate::certificate::{Strength, Trees};
use crate::search::{entered_parties, enters_all, missed_parties, reversed, tree_from_zero};
use std::alloc::Global;
use swap_base::{ArcId, Listed, NoMemory};
use swap_digraph::Digraph;

/// The tree from party 0.
fn forward_tree(alloc: Global, graph: &Digraph) -> Result<Listed<Option<ArcId>>, NoMemory>
    requires parties { (2 ≤ graph.now.n) × (graph.now.n ≤ 32) }
    requires few { length graph.now.arcs ≤ 128 }
    requires ends { HasEnds graph.now }
    ensures { IfOk result (λ t. IsSearch graph.now t) }
{
    tree_from_zero(alloc, graph.n(), graph.arcs())
}

/// The tree from party 0, with each arc turned round.
fn reversed_tree(alloc: Global, graph: &Digraph) -> Result<Listed<Option<ArcId>>, NoMemory>
    requires parties { (2 ≤ graph.now.n) × (graph.now.n ≤ 32) }
    requires few { length graph.now.arcs ≤ 128 }
    requires ends { HasEnds graph.now }
    ensures { IfOk result (λ t. IsSearch (reversed graph.now) t) }
{
    let turned = reversed(alloc, graph.arcs())?;
    tree_from_zero(alloc, graph.n(), &turned)
}

/// Whether the digraph is strongly connected, with a certificate. If it is, the certificate is two
/// trees. If it isn't, it is a closed set: what party 0 reaches, or if party 0 reaches all, the
/// parties that don't reach party 0.
pub fn strong(alloc: Global, graph: &Digraph) -> Result<Strength, NoMemory>
    requires parties { (2 ≤ graph.now.n) × (graph.now.n ≤ 32) }
    requires few { length graph.now.arcs ≤ 128 }
    requires ends { HasEnds graph.now }
    ensures exact { IfOk result (λ s. set_shown s ≡ closed_set graph.now) }
    ensures connected { IfOk result (λ s. IfStrong s (λ t. IsStronglyConnected graph.now)) }
    ensures trees { IfOk result (λ s. IfStrong s (λ t. AreTrees graph.now t)) }
    ensures closed { IfOk result (λ s. IfClosed s (λ set. IsClosedSet graph.now set)) }
    ensures not_connected { IfOk result (λ s. IfClosed s (λ set. IsStronglyConnected graph.now → ⊥)) }
{
    let from_zero = forward_tree(alloc, graph)?;
    if !enters_all(from_zero.as_slice()) {
        let reached = entered_parties(alloc, from_zero.as_slice())?;
        return Ok(Strength::Closed(reached));
    }
    let to_zero = reversed_tree(alloc, graph)?;
    if !enters_all(to_zero.as_slice()) {
        let stranded = missed_parties(alloc, to_zero.as_slice())?;
        return Ok(Strength::Closed(stranded));
    }
    Ok(Strength::Strong(Trees { from_zero, to_zero }))
}
