//! What a party knows before it has learnt anything.

ghost use Rattle.std.specs.Prelude.{◌≡◌, map, IfOk};
ghost use Rattle.swap_digraph.specs.Graph.{arcs};
ghost use Rattle.swap_digraph.specs.Deal.{IsWellSized};
ghost use Rattle.history_index.specs.Value.{new_index};

use history_index::Index;
use std::alloc::Global;
use swap_base::NoMemory;
use swap_digraph::Deal;

/// One index per arc, without entries.
pub(crate) fn build_indexes(alloc: Global, deal: &Deal) -> Result<Vec<Index>, NoMemory>
    requires { IsWellSized deal.now }
    ensures { IfOk result (λ v. v.items ≡ map (new_index deal.now) (arcs deal.now.graph)) }
{
    let count = deal.graph.arcs().len() as u8;
    let mut known = Vec::new(alloc);
    'arcs: for arc in 0..count {
        known.push(Index::new(alloc, deal, arc)?)?;
    }
    Ok(known)
}
