//! Chains of SHA-256, walked four at a time.
//!
//! A step hashes 33 bytes, which are one block, so that the steps of four chains are the same
//! operations on four words side by side. `Chains` has every value of a key's chains,
//! `chain_starts` their starts alone, and `carried` goes on from values that are given.
//! `specs/Chains.antt` says what a chain is.
#![tactic(auto)]

mod blocks;
mod carry;
mod chains;
mod consts;
mod each;
mod ops;
mod rounds;
mod starts;
mod values;

pub use carry::carried;
pub use chains::{CHAINS, ChainValue, Chains, STEPS};
pub use starts::chain_starts;
