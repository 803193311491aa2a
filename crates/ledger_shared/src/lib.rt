//! A ledger that threads share: one legal history, which each thread calls through a pass of its
//! own.
//!
//! A call through a pass makes exactly one entry, at the end of what the pass has then seen, with
//! the reply that the ledger gives there. A full sender's call makes none. A look shows what others
//! did, and never less than what was shared. At the end the closed ledger's history begins with
//! what each pass has seen. Each party's entries in it are those that its pass has seen, and its
//! ticks are the clock's.
//!
//! Read `specs/Value.antt` first: what callers see of a pass, and what a call, a tick and the
//! closing of a ledger tell. `specs/Lines.antt` has the history that the lock keeps.
#![tactic(auto)]

mod locked;
mod pass;
mod seat;
mod shared;
mod shelf;

pub use locked::Called;
pub use pass::{ClockPass, Pass};
pub use shared::{CallBack, LedgerBack, SharedLedger, share};
