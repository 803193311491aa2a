//! Values as bytes and as words in lanes.

ghost use Rattle.std.specs.Prelude.{◌≡◌, ℕ, ◌+◌, ◌*◌, ◌<◌, length, slice_index, slice_index_or, [], take, drop};
ghost use Rattle.std.specs.Int.{w32, to_be_bytes};
ghost use Rattle.sha2.specs.Sha256.{digest_bytes};
ghost use Rattle.hash_chains.specs.Lanes.{lane};

use crate::chains::ChainValue;
use crate::ops::V;

fn word(value: &ChainValue, i: usize) -> u32
    requires { i < 8 }
    ensures bytes { to_be_bytes w32 result ≡ take 4 (drop (4 * i) value.now) }
    ensures long { length value.now ≡ 32 }
{
    u32::from_be_bytes([
        value[4 * i],
        value[4 * i + 1],
        value[4 * i + 2],
        value[4 * i + 3],
    ])
}

fn column(values: &[ChainValue; 4], i: usize) -> V
    requires { i < 8 }
    ensures bytes { (j : ℕ) → j < 4 → to_be_bytes w32 (slice_index result j) ≡ take 4 (drop (4 * i) (slice_index_or values.now j [])) }
    ensures long { (j : ℕ) → j < 4 → length (slice_index_or values.now j []) ≡ 32 }
{
    V::from_array([
        word(&values[0], i),
        word(&values[1], i),
        word(&values[2], i),
        word(&values[3], i),
    ])
}

/// The words of four values.
pub(crate) fn value_lanes(values: &[ChainValue; 4]) -> [V; 8]
    ensures { (j : ℕ) → j < 4 → digest_bytes (lane result j) 8 ≡ slice_index_or values.now j [] }
{
    [
        column(values, 0),
        column(values, 1),
        column(values, 2),
        column(values, 3),
        column(values, 4),
        column(values, 5),
        column(values, 6),
        column(values, 7),
    ]
}

// The value in a lane.
fn lane_value(words: &[V; 8], j: usize) -> ChainValue
    requires { j < 4 }
    ensures { result ≡ digest_bytes (lane words.now j) 8 }
{
    let mut out = [0u8; 32];
    'words: for i in 0..8 {
        let lanes = words[i].to_array();
        out[4 * i..4 * i + 4].copy_from_slice(&lanes[j].to_be_bytes());
    }
    out
}

/// The values in the four lanes.
pub(crate) fn four_values(words: &[V; 8]) -> [ChainValue; 4]
    ensures { (j : ℕ) → j < 4 → slice_index_or result j [] ≡ digest_bytes (lane words.now j) 8 }
{
    [
        lane_value(words, 0),
        lane_value(words, 1),
        lane_value(words, 2),
        lane_value(words, 3),
    ]
}
