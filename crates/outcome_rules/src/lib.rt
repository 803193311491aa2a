//! The outcome of a book: how each party ended, what is found, and the report of both (Herlihy
//! 2018, section 3).
//!
//! A book is read once, into one index per arc; all else asks the indexes.
//!
//! Read `specs/Report.antt` first, then `specs/Promises.antt`, which says what the answer promises
//! the parties that conform, and the rules in `swap_rules`.
#![tactic(auto)]

mod ending;
mod indexes;
mod listing;
mod report;

pub use ending::outcome;
pub use indexes::build_indexes;
pub use listing::{findings, findings_indexed, unfinished};
pub use report::{Report, build_report};
