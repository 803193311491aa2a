//! The texts of a swap: the report of a book, and its transcript, each line in its one spelling.
//!
//! Read `specs/Report.antt` first: the text of a report, line by line. The text that
//! `write_transcript` writes stands in `Lines.antt` of `transcript_book`.
#![tactic(auto)]

mod entries;
mod entry;
mod findings;
mod ledgers;
mod report;
mod transcript;
mod transcript_ledgers;
mod whole;
mod words;

pub use findings::put_count;
pub use report::{hand_report, report_text, write_report};
pub use transcript::write_transcript;
pub use whole::{put_call, put_hashkey};
pub use words::{put_digits, put_path, put_signatures};
