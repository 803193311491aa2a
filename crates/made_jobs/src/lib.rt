//! Jobs that nobody writes by hand, as they are written: the job that is made of a plain one, and
//! the job that a number gives, or the summary of its run.
//!
//! Read `specs/Making.antt` first: `made_output` says what is written of an input's bytes.
//! `specs/Generating.antt` says what is written of a number.
#![tactic(auto)]

mod counts;
mod generated;
mod header;
mod plain;
mod played;
mod summary;
mod summary_lines;

pub use generated::write_generated;
pub use plain::{copy_line, made_line};
pub use summary::{Summary, summarize};
