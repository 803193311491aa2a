//! The arcs that touch each party of each swap, listed once for all rounds of a fair finish.

ghost use Rattle.std.specs.Prelude.{◌≡◌, IfOk, map};
ghost use Rattle.swap_many.specs.TouchingArcs.{swap_adjacent_arcs};

use std::alloc::Global;
use swap_base::{ArcId, Listed, NoMemory};
use swap_world::{World, arcs_by_party};

/// The arcs that touch each party, by swap and party.
pub(crate) fn arcs_by_swap(
    alloc: Global,
    worlds: &[World],
) -> Result<Vec<Listed<Listed<ArcId>>>, NoMemory>
    ensures { IfOk result (λ v. v.items ≡ map swap_adjacent_arcs worlds.now) }
{
    let mut all = Vec::new(alloc);
    'swaps: for world in worlds {
        all.push(Listed::new(arcs_by_party(alloc, world.deal())?))?;
    }
    Ok(all)
}
