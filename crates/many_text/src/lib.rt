//! The text of many swaps: the report of each, what is free on each chain, and how many findings
//! there are.
//!
//! Read `specs/ManyText.antt` first: the text, line by line.
#![tactic(auto)]

mod chains;
mod swaps;
mod text;

pub use text::write_many;
