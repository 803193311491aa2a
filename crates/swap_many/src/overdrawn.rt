//! Why chains can't be opened.

use swap_base::Fault;

/// An account of a chain has fewer units than the arcs that it pays for.
#[derive(Clone, Copy, Debug, PartialEq, Eq)]
pub struct Overdrawn {
    pub chain: u8,
    pub account: u8,
    pub have: u64,
    pub wanted: u64,
}

/// Why many swaps don't begin: an account, or want of memory.
pub type ManyFault = Fault<Overdrawn>;
