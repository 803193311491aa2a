//! The starts of a key's chains, four side by side.

ghost use Rattle.std.specs.Prelude.{◌≡◌, ℕ, ◌+◌, ◌*◌, ◌<◌, [], length, slice_index_or};
ghost use Rattle.hash_chains.specs.Chains.{chain_start};
ghost use Rattle.hash_chains.specs.Fours.{AreStarts};

use crate::blocks::four_starts;
use crate::chains::{CHAINS, ChainValue, FOURS};
use crate::values::{four_values, value_lanes};

// The starts by fours. The last of them has one that isn't the key's.
fn starts_by_fours(seed: &ChainValue, party: u8, lock: u8) -> [[ChainValue; 4]; FOURS]
    ensures { (g : ℕ) → g < 17 → AreStarts seed.now party lock (4 * g) (slice_index_or result g []) }
{
    let words = value_lanes(&[*seed, *seed, *seed, *seed]);
    let mut fours = [[[0; 32]; 4]; FOURS];
    'fours: for g in 0..FOURS {
        fours[g] = four_values(&four_starts(words, party, lock, 4 * g as u8));
    }
    fours
}

/// The starts of all chains of a party's key for a lock.
pub fn chain_starts(seed: &ChainValue, party: u8, lock: u8) -> [ChainValue; CHAINS]
    ensures each { (j : ℕ) → j < 67 → slice_index_or result j [] ≡ chain_start seed.now party lock j }
    ensures long { length result ≡ 67 }
{
    let fours = starts_by_fours(seed, party, lock);
    let mut starts = [[0; 32]; CHAINS];
    'chains: for j in 0..CHAINS {
        starts[j] = fours[j / 4][j % 4];
    }
    starts
}
