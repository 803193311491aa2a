//! The answers over a list of entries, kept beside it entry by entry, so that none of them reads
//! the list again.
//!
//! Read `specs/Numbers.antt` first: the lists that an index takes; then `specs/Made.antt`: the
//! calls that it keeps of them, and `proofs/Calls.antt`: what may be asked of these alone. What
//! each answer is stands in `ledger_core`, at the trait `Facts`.
#![tactic(auto)]

mod answers;
mod caller;
mod entry_facts;
mod extend;
mod index;
mod kinds;
mod made;
mod steps;

pub use index::Index;
pub use made::{Made, Opened};
pub use steps::Steps;
