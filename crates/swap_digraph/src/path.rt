//! Whether a vertex is on a path.

ghost use Rattle.std.specs.Prelude.{◌≡◌};
ghost use Rattle.swap_digraph.specs.Graph.{is_listed};

use swap_base::PartyId;

/// Whether the vertex is on the path, or in the set.
pub fn is_listed(vertex: PartyId, path: &[PartyId]) -> bool
    ensures { result ≡ is_listed vertex path.now }
{
    path.iter().any(|other| *other == vertex)
}
