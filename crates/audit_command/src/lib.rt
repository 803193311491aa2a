//! The command `audit`: a transcript is read line by line, every ledger is replayed, and the report
//! is written. Its reader keeps the book that the lines state and none of their text.
//!
//! Read `specs/Output.antt` first: what is written for an input, or the first reason why it is
//! refused; then `specs/Says.antt`: what each status says; then `specs/Promised.antt`: what is
//! promised of the book whose report was written. `specs/Stages.antt` says which line of a
//! transcript stands next, and when it is bad, and `specs/TranscriptReading.antt` what the reader
//! answers at the end.
#![tactic(auto)]

mod command;
mod copied;
mod header;
mod input;
mod judged;
mod reader;
mod reason;
mod stage;
mod story;
mod text;

ghost use Rattle.audit_command.specs.Laws.{ReadTextIsWhole, WholeTextIsRead};

pub use command::audit_transcript;
pub use header::parse_deal_header;
pub use reader::TranscriptReader;
pub use reason::{TranscriptFault, TranscriptReason};
pub use text::read_transcript;

/// Bytes that give a job and a book are a whole transcript of them.
pub fn read_is_whole()
    ensures { ReadTextIsWhole }
{}

/// A whole transcript gives its job and its book.
pub fn whole_is_read()
    ensures { WholeTextIsRead }
{}
