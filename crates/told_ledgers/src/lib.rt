//! What a wallet tells of its ledgers, read into a legal book: noise is passed over unread, and a
//! bad entry stops its own ledger alone.
//!
//! Read `specs/Words.antt` first: what a line is by its words alone; then `specs/Ledger.antt`: what
//! the lines of one ledger make of it; and `specs/Telling.antt`: which line stands next.
#![tactic(auto)]

mod chain_line;
mod heading;
mod kind;
mod one_ledger;
mod reader;
mod stage;
mod telling;
mod tick;
mod told_ledger;

pub use telling::read_ledgers;
pub use told_ledger::{BadEntry, OwnUnlock, Replies, ToldLedger};
