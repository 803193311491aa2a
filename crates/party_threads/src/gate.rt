//! What each turn passes first.

use std::sync::Wait;

/// It is passed at the beginning of each turn, by its party's number, or by the number of parties
/// for the clock.
pub trait Gate: Sync {
    fn pass<R: Wait>(&self, rt: &R, actor: u8, round: u32);
}
