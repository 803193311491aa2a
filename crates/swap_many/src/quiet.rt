//! For how many rounds nobody of any swap has anything to do.

ghost use Rattle.std.specs.Prelude.{◌≡◌, ◌⊎◌, ◌<◌, ◌≤◌, ◌+◌, ℕ, false, length, slice_index_or};
ghost use Rattle.swap_world.specs.Quiet.{IsQuietState};
ghost use Rattle.swap_world.specs.Value.{world_cast};
ghost use Rattle.swap_many.specs.TouchingArcs.{AreAdjacentArcs};
ghost use Rattle.swap_many.specs.Ticking.{nth};
ghost use Rattle.swap_many.specs.Value.{no_chain};

use crate::chain_accounts::Chain;
use swap_base::{ArcId, Listed};
use swap_world::World;

/// Up to `most` rounds, each with one tick, for which the height stays at or below the horizon.
fn remaining_rounds(height: u32, horizon: u64, most: u64) -> u64
    ensures few { result ≤ most }
    ensures low { 0 < result → height + result ≤ horizon }
{
    let height = height as u64;
    if horizon < height {
        return 0;
    }
    let room = horizon - height;
    if most < room { most } else { room }
}

/// The greater of two numbers of rounds.
fn more(a: u64, b: u64) -> u64
    ensures one { (result ≡ a) ⊎ (result ≡ b) }
    ensures first { a ≤ result }
{
    if a < b { b } else { a }
}

/// Up to `most` rounds for which some chain stays at or below the horizon.
pub(crate) fn horizon_rounds(chains: &[Chain], horizon: u64, most: u64) -> u64
    ensures few { result ≤ most }
    ensures low { 0 < result → (q : ℕ) × (q < length chains.now) × ((slice_index_or chains.now q no_chain).clock.height + result ≤ horizon) }
{
    let mut rounds = 0;
    'chains: for i in 0..chains.len() {
        rounds = more(rounds, remaining_rounds(chains[i].height(), horizon, most));
    }
    rounds
}

/// Up to `most` rounds in which nobody makes a call.
pub(crate) fn rounds_still(worlds: &[World], near: &[Listed<Listed<ArcId>>], most: u64) -> u64
    requires near { AreAdjacentArcs near.now worlds.now }
    requires go_on { (s : ℕ) → s < length worlds.now → (nth worlds.now s).stopped ≡ false }
    ensures few { result ≤ most }
    ensures still { 0 < result → (s : ℕ) → s < length worlds.now → IsQuietState (world_cast (nth worlds.now s)) result (nth worlds.now s).state }
{
    let mut rounds = most;
    'swaps: for s in 0..worlds.len() {
        if rounds == 0 {
            return 0;
        }
        rounds = worlds[s].rest_rounds(near[s].as_slice(), rounds);
    }
    rounds
}
