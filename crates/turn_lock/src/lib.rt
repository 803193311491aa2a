//! A lock round a value with a history that only grows, taken in turns by up to eight seats.
//!
//! A seat that takes the turn finds a history that goes on from all that it knew. Nobody else made
//! an entry in its name. While it has the turn, it may only add entries of its own. So there is one
//! history, and at the end each number's entries are exactly those that its seat made. Only `new`
//! and `take` may wait, and promise what they promise if they return.
//!
//! Read `specs/SeatHistory.antt` first: the entries of an author, and what a history says to a
//! seat. `specs/Turns.antt` has the rule that holds between any two steps.
#![tactic(auto)]

mod journal;
mod lock;
mod plays;
mod seating;
mod view;

pub use journal::Journal;
pub use lock::{TurnLock, ValueBack};
pub use view::{TurnSeat, View};
