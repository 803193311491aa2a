//! The blocks that chains are made of: a start, and a step.

ghost use Rattle.std.specs.Prelude.{◌≡◌, ℕ, ◌+◌, ◌<◌, ◌∷◌, [], slice_index, take};
ghost use Rattle.std.specs.Int.{w32, to_be_bytes};
ghost use Rattle.sha2.specs.Sha256.{digest_bytes};
ghost use Rattle.hash_chains.specs.Chains.{chain_start};
ghost use Rattle.hash_chains.specs.Lanes.{block_words, lane, word_start, word_step};

use crate::ops::{V, joined, splat};
use crate::rounds::first_hash;

// The words of a block: the byte `kind`, the 32 bytes of `y`, the first three of `tail`, the word
// `next`, zeros, and the length of the message in bits.
#[inline(always)]
fn block(kind: u32, y: [V; 8], tail: V, next: u32, bits: u32) -> [V; 16]
    ensures { (j : ℕ) → j < 4 → lane result j ≡ block_words kind (lane y j) (slice_index tail j) next bits }
{
    let [a, b, c, d, e, f, g, h] = y;
    let none = splat(0);
    [
        joined(splat(kind), a),
        joined(a, b),
        joined(b, c),
        joined(c, d),
        joined(d, e),
        joined(e, f),
        joined(f, g),
        joined(g, h),
        joined(h, tail),
        splat(next),
        none,
        none,
        none,
        none,
        none,
        splat(bits),
    ]
}

/// A step of the chain in each lane. Its message has 33 bytes.
pub(crate) fn chain_step(y: [V; 8]) -> [V; 8]
    ensures { (j : ℕ) → j < 4 → lane result j ≡ word_step (lane y j) }
{
    first_hash(block(2, y, splat(0x8000_0000), 0, 264))
}

// The start that each lane's seed and the first three bytes of its tail give. Its message has 36
// bytes.
fn lane_start(seed: [V; 8], tail: V) -> [V; 8]
    ensures { (j : ℕ) → j < 4 → lane result j ≡ word_start (lane seed j) (slice_index tail j) }
{
    first_hash(block(1, seed, tail, 0x8000_0000, 288))
}

fn tail(party: u8, lock: u8, chain: u8) -> u32
    ensures { take 3 (to_be_bytes w32 result) ≡ party ∷ lock ∷ chain ∷ [] }
{
    u32::from_be_bytes([party, lock, chain, 0])
}

fn tails(party: u8, lock: u8, first: u8) -> V
    requires { first < 250 }
    ensures { (j : ℕ) → j < 4 → take 3 (to_be_bytes w32 (slice_index result j)) ≡ party ∷ lock ∷ (first + j) ∷ [] }
{
    V::from_array([
        tail(party, lock, first),
        tail(party, lock, first + 1),
        tail(party, lock, first + 2),
        tail(party, lock, first + 3),
    ])
}

/// The starts of four chains in a row, from the seed that stands in each lane.
pub(crate) fn four_starts(seed: [V; 8], party: u8, lock: u8, first: u8) -> [V; 8]
    requires { first < 250 }
    ensures { (j : ℕ) → j < 4 → digest_bytes (lane result j) 8 ≡ chain_start (digest_bytes (lane seed j) 8) party lock (first + j) }
{
    lane_start(seed, tails(party, lock, first))
}
