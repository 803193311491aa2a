//! Whether a list of vertices is a path.

ghost use Rattle.std.specs.Prelude.{◌≡◌, ◌<◌};
ghost use Rattle.swap_digraph.specs.Graph.{is_path, has_arc, first_is, last_is};

use swap_base::PartyId;
use swap_digraph::{Digraph, is_listed};

fn has_arc(graph: &Digraph, from: PartyId, to: PartyId) -> bool
    ensures { result ≡ has_arc graph.now from to }
{
    graph
        .arcs()
        .iter()
        .any(|arc| arc.from == from && arc.to == to)
}

/// Whether the vertices are distinct, each with an arc to the next. It goes down the list as far as
/// they are.
pub(crate) fn is_path(graph: &Digraph, path: &[PartyId]) -> bool
    ensures { result ≡ is_path graph.now path.now }
{
    match path {
        [] => false,
        [v] => *v < graph.n(),
        [u, v, ..] => {
            let rest = &path[1..];
            *u < graph.n() && !is_listed(*u, rest) && has_arc(graph, *u, *v) && is_path(graph, rest)
        }
    }
}

pub(crate) fn first_is(v: PartyId, path: &[PartyId]) -> bool
    ensures { result ≡ first_is v path.now }
{
    match path {
        [first, ..] => *first == v,
        [] => false,
    }
}

pub(crate) fn last_is(v: PartyId, path: &[PartyId]) -> bool
    ensures { result ≡ last_is v path.now }
{
    match path {
        [.., last] => *last == v,
        [] => false,
    }
}
