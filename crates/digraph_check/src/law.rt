//! What reaching means.

ghost use Rattle.std.specs.Prelude.{◌≡◌, ◌<◌, ◌≤◌, ◌↔◌, ℕ, List, Some, None, IsTrue};
ghost use Rattle.swap_digraph.specs.Graph.{HasEnds, IsConnectingPath, IsStronglyConnected};
ghost use Rattle.digraph_check.specs.Reach.{reaches, closed_set};
ghost use Rattle.digraph_check.specs.Closed.{IsClosedSet};

use swap_digraph::Digraph;

/// Does nothing. Its contract is the law of closed sets. One party reaches another exactly where a
/// path of distinct parties leads there. The named set is closed. There is no closed set exactly
/// where the digraph is strongly connected.
pub fn paths_tell(graph: &Digraph)
    ensures paths { (u v : ℕ) → u < graph.now.n → v < graph.now.n
        → (IsTrue (reaches graph.now u v) ↔ ((p : List ℕ) × IsConnectingPath graph.now u v p)) }
    ensures connected { (closed_set graph.now ≡ None) ↔ IsStronglyConnected graph.now }
    ensures closed { HasEnds graph.now → 1 ≤ graph.now.n
        → (set : List ℕ) → closed_set graph.now ≡ Some set → IsClosedSet graph.now set }
    ensures excluded { (set : List ℕ) → IsClosedSet graph.now set → IsStronglyConnected graph.now → ⊥ }
{}
