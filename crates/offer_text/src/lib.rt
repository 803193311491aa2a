//! The header line of a job: compact JSON, as `serde_json` writes it.
//!
//! Read `specs/HeaderLine.antt` first: the JSON of a header, field by field, and its line.
//! `specs/Moves.antt` has that of a move.
#![tactic(auto)]

mod deal;
mod fields;
mod header;
mod moves;
mod parties;
mod shown;
mod terms;
mod words;

pub use fields::{put_first, put_number, put_text};
pub use header::write_deal;
pub use words::to_text;
