//! What an answer to a party's wallet goes by, beside what is useful to it: up to which height each
//! call is on time and accepted, when the party is done, and for which locks it has stopped because
//! an unlock stands in its name that it never made.
//!
//! Read `specs/Laws.antt` first, then `specs/Heights.antt`, `specs/Finished.antt` and
//! `specs/Stopped.antt`.
#![tactic(auto)]

ghost use Rattle.answer_rules.specs.Laws.{FinishedStays, TicksLeaveNothing, UnlocksHaveLast, UsefulHasHeight};

mod accepted;
mod finished;
mod heights;

pub use accepted::last_accepted;
pub use finished::{are_finished, greatest_expiry};
pub use heights::last_on_time;

/// Each useful call has the height up to which it is on time, and each useful unlock the last one
/// at which the contract accepts it.
pub fn heights_are_told()
    ensures by { UsefulHasHeight }
    ensures until { UnlocksHaveLast }
{}

/// Where every arc next to the party is finished nothing that lands makes anything useful; and
/// where nothing is left of what is useful, ticks leave nothing.
pub fn rest_is_kept()
    ensures finished { FinishedStays }
    ensures ticks { TicksLeaveNothing }
{}
