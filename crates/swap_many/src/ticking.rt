//! Ticks of the ledgers of several worlds that stand on one chain.

ghost use Rattle.std.specs.Prelude.{◌≡◌, ◌<◌, ◌≤◌, length};
ghost use Rattle.swap_many.specs.Ticking.{AreTickable, AreTicked, some_stopped};

use swap_base::{ArcId, Listed};
use swap_world::World;

/// Ticks each ledger of each world that stands on the chain by k heights. Those of each swap that
/// do are told.
pub(crate) fn tick_worlds(worlds: &mut Vec<World>, on: &[Listed<ArcId>], k: u32)
    requires some { 1 ≤ k }
    requires below { k ≤ 1000000 }
    requires fits { AreTickable on.now worlds.old.items }
    ensures { AreTicked on.now k (length worlds.old.items) worlds.old.items worlds.new.items }
{
    'swaps: for s in 0..worlds.len() {
        worlds[s].tick_ledgers(on[s].as_slice(), k);
    }
}

/// Whether memory ran out in one of the worlds.
pub(crate) fn has_stopped(worlds: &[World]) -> bool
    ensures { result ≡ some_stopped worlds.now }
{
    worlds.iter().any(|world| world.is_stopped())
}
