//! The program's one call: words, a source and a sink.
//!
//! Read `specs/Answer.antt` first: what each status promises; then `specs/Process.antt`: the same of
//! what a process read and wrote; then `specs/Exit.antt`: what the process ends with. What is
//! written for an input, and what is promised of it, stands in `swap_commands`, which does what each
//! command asks for.
#![tactic(auto)]

mod exit;
mod laws;
mod program;
mod top;
mod words;

pub use command_input::{Exit, Status, Told, refusal_line};
pub use exit::ending;
pub use laws::the_text_is_determined;
pub use program::Program;
pub use program_words::Order;
pub use top::{swap_plain, swap_top};
pub use words::may_race;
