//! Operations on four words side by side. The functions of SHA-256 are made of them (FIPS 180-4,
//! sections 3.2 and 4.1.2).

ghost use Rattle.std.specs.Prelude.{◌≡◌, ℕ, ◌+◌, ◌-◌, ◌*◌, ◌/◌, ◌%◌, ◌^◌, ◌<◌, slice_index, bit_and, bit_or, bit_xor};
ghost use Rattle.std.specs.Int.{w32, bit_not, rotate_right};
ghost use Rattle.sha2.specs.Sha256.{add32, big_sigma0, big_sigma1, ch, maj, small_sigma0, small_sigma1};
ghost use Rattle.hash_chains.specs.Lanes.{joined_word};

use std::simd::prelude::*;

pub type V = u32x4;

#[inline(always)]
pub(crate) fn sum(x: V, y: V) -> V
    ensures { (j : ℕ) → j < 4 → slice_index result j ≡ add32 (slice_index x j) (slice_index y j) }
{
    x + y
}

#[inline(always)]
fn xor(x: V, y: V) -> V
    ensures { (j : ℕ) → j < 4 → slice_index result j ≡ bit_xor (slice_index x j) (slice_index y j) }
{
    x ^ y
}

#[inline(always)]
fn and(x: V, y: V) -> V
    ensures { (j : ℕ) → j < 4 → slice_index result j ≡ bit_and (slice_index x j) (slice_index y j) }
{
    x & y
}

#[inline(always)]
fn or(x: V, y: V) -> V
    ensures { (j : ℕ) → j < 4 → slice_index result j ≡ bit_or (slice_index x j) (slice_index y j) }
{
    x | y
}

#[inline(always)]
fn not(x: V) -> V
    ensures { (j : ℕ) → j < 4 → slice_index result j ≡ bit_not w32 (slice_index x j) }
{
    !x
}

#[inline(always)]
pub(crate) fn splat(k: u32) -> V
    ensures { (j : ℕ) → j < 4 → slice_index result j ≡ k }
{
    V::splat(k)
}

#[inline(always)]
pub(crate) fn right(x: V, by: u32) -> V
    requires { by < 32 }
    ensures { (j : ℕ) → j < 4 → slice_index result j ≡ slice_index x j / 2 ^ by }
{
    x >> by
}

#[inline(always)]
pub(crate) fn left(x: V, by: u32) -> V
    requires { by < 32 }
    ensures { (j : ℕ) → j < 4 → slice_index result j ≡ slice_index x j * 2 ^ by % 2 ^ 32 }
{
    x << by
}

#[inline(always)]
fn rotated(x: V, by: u32) -> V
    requires low { 0 < by }
    requires high { by < 32 }
    ensures { (j : ℕ) → j < 4 → slice_index result j ≡ rotate_right w32 (slice_index x j) by }
{
    or(right(x, by), left(x, 32 - by))
}

#[inline(always)]
pub(crate) fn ch(x: V, y: V, z: V) -> V
    ensures { (j : ℕ) → j < 4 → slice_index result j ≡ ch (slice_index x j) (slice_index y j) (slice_index z j) }
{
    xor(and(x, y), and(not(x), z))
}

#[inline(always)]
pub(crate) fn maj(x: V, y: V, z: V) -> V
    ensures { (j : ℕ) → j < 4 → slice_index result j ≡ maj (slice_index x j) (slice_index y j) (slice_index z j) }
{
    xor(xor(and(x, y), and(x, z)), and(y, z))
}

#[inline(always)]
pub(crate) fn big_sigma0(x: V) -> V
    ensures { (j : ℕ) → j < 4 → slice_index result j ≡ big_sigma0 (slice_index x j) }
{
    xor(xor(rotated(x, 2), rotated(x, 13)), rotated(x, 22))
}

#[inline(always)]
pub(crate) fn big_sigma1(x: V) -> V
    ensures { (j : ℕ) → j < 4 → slice_index result j ≡ big_sigma1 (slice_index x j) }
{
    xor(xor(rotated(x, 6), rotated(x, 11)), rotated(x, 25))
}

#[inline(always)]
pub(crate) fn small_sigma0(x: V) -> V
    ensures { (j : ℕ) → j < 4 → slice_index result j ≡ small_sigma0 (slice_index x j) }
{
    xor(xor(rotated(x, 7), rotated(x, 18)), right(x, 3))
}

#[inline(always)]
pub(crate) fn small_sigma1(x: V) -> V
    ensures { (j : ℕ) → j < 4 → slice_index result j ≡ small_sigma1 (slice_index x j) }
{
    xor(xor(rotated(x, 17), rotated(x, 19)), right(x, 10))
}

// The words that begin with the last byte of those of `x`, and go on with the first three of those
// of `y`.
#[inline(always)]
pub(crate) fn joined(x: V, y: V) -> V
    ensures { (j : ℕ) → j < 4 → slice_index result j ≡ joined_word (slice_index x j) (slice_index y j) }
{
    sum(left(x, 24), right(y, 8))
}
