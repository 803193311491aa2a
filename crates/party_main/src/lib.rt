//! The call of the program `party`: words, a source and a sink.
//!
//! Read `specs/Output.antt` first: what is written of an input, by the command that
//! `specs/Words.antt` takes from the words; then `specs/Says.antt` and `specs/Exit.antt`: what each
//! status says, and how the process ends.
#![tactic(auto)]

mod command;
mod exit;
mod next;
mod output;
mod reason;
mod top;

pub use command::{Command, JUDGE_LIMIT, NEXT_LIMIT, SHORT_LIMIT};
pub use command_input::{Exit, Told};
pub use exit::ending;
pub use reason::{PartyFault, PartyReason, reason_line};
pub use top::{PartyStatus, party_top};
