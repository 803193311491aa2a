//! What a wallet's input tells: what the wallet wrote down, the deal that its owner agreed on, and
//! what each ledger did so far; or the first reason against it.
//!
//! Read `specs/Notes.antt` first: what a wallet wrote down; then `specs/Kept.antt`: what these notes
//! keep for a party of a deal; and `specs/Asked.antt`: what an input asks.
#![tactic(auto)]

mod asked;
mod counted;
mod kept;
mod note;
mod notes;
mod reason;
mod said;

pub use asked::{Asked, said_asked};
pub use counted::counted_book;
pub use kept::Kept;
pub use reason::{AnswerFault, AnswerReason, refusal_fault};
pub use said::{Said, read_said};
