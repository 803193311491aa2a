//! The words after the program's name, as the task that they ask for.
//!
//! `read_task` tests first whether the words are well formed, and then reads their values with one
//! `clap` command per first word. Read `specs/Tables.antt` first, the table of first words, options
//! and numbers, and then `specs/Words.antt`: which words are well formed, and what they ask for.
#![tactic(auto)]

mod choice;
mod read;
mod task;
mod verb;
mod well_formed;

pub use read::read_task;
pub use task::{Order, Request, Task};
