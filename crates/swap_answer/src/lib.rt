//! The program `swap` as a function: words and an input in memory go in, and a status and a text
//! come out. It starts no thread and opens no file, so words that ask for a race are wrong words.
//!
//! Read `specs/Answered.antt` first: what `swap_plain` promises, over memory.
#![tactic(auto)]

mod answer;
mod slice_source;
mod words;

pub use answer::{Answered, swap_answer};
pub use slice_source::SliceSource;
pub use words::told_words;
