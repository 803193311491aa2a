//! Four chains of different lengths side by side.

ghost use Rattle.std.specs.Prelude.{◌≡◌, ℕ, ◌<◌, ◌≤◌, slice_index, nat_lt, cond};
ghost use Rattle.sha2.specs.Sha256.{digest_bytes};
ghost use Rattle.hash_chains.specs.Chains.{chain_value};
ghost use Rattle.hash_chains.specs.Lanes.{first_eight, lane};

use crate::blocks::chain_step;
use crate::ops::V;
use std::simd::prelude::*;

#[inline(always)]
fn advanced_chain(reached: V, next: V, at: u32, counts: V) -> V
    ensures { (j : ℕ) → j < 4 → slice_index result j ≡ cond (nat_lt at (slice_index counts j)) (slice_index next j) (slice_index reached j) }
{
    V::splat(at).simd_lt(counts).select(next, reached)
}

// The values of `next` in the lanes whose count is above `at`, and else those of `reached`.
#[inline(always)]
fn all_advanced(reached: [V; 8], next: [V; 8], at: u32, counts: V) -> [V; 8]
    ensures { (j : ℕ) → j < 4 → lane result j ≡ cond (nat_lt at (slice_index counts j)) (first_eight (lane next j)) (first_eight (lane reached j)) }
{
    let [a, b, c, d, e, f, g, h] = next;
    let [p, q, r, s, t, u, v, w] = reached;
    [
        advanced_chain(p, a, at, counts),
        advanced_chain(q, b, at, counts),
        advanced_chain(r, c, at, counts),
        advanced_chain(s, d, at, counts),
        advanced_chain(t, e, at, counts),
        advanced_chain(u, f, at, counts),
        advanced_chain(v, g, at, counts),
        advanced_chain(w, h, at, counts),
    ]
}

/// The value of each chain after the number of steps in `counts`; no count is above `most`.
pub(crate) fn chain_after_each(y: [V; 8], counts: V, most: u32) -> [V; 8]
    requires { (j : ℕ) → j < 4 → slice_index counts j ≤ most }
    ensures { (j : ℕ) → j < 4 → digest_bytes (lane result j) 8 ≡ chain_value (slice_index counts j) (digest_bytes (lane y j) 8) }
{
    let mut reached = y;
    'steps: for i in 0..most {
        let next = chain_step(reached);
        let moved = all_advanced(reached, next, i, counts);
        reached = moved;
    }
    reached
}
