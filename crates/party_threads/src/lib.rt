//! Parties that race: every party and the clock take their turns on threads, over shared ledgers,
//! round by round; where the round before brought no call, one after another.
//!
//! A race leads to a legal book. Every ledger has one tick a round and is above the horizon. Every
//! conforming party kept its conduct. A party that follows a script or a strategy made just the
//! calls that answer its round views, and nobody else made a call. An action that is enabled for a
//! conforming party is done within two rounds' ticks, so no conforming party is late if two ticks
//! fit in delta. If besides all parties conform, nothing is found and everything moves. Nothing is
//! promised of time, nor that a turn ever ends.
//!
//! The book comes by such rounds, and the books at their ends are what the law on races in time
//! speaks of.
//!
//! Read `specs/Race.antt` first: what a round does to the book and to what each party has noted,
//! and what a race is.
#![tactic(auto)]

mod clock;
mod first_turns;
mod gate;
mod handing;
mod home;
mod hooks;
mod laws;
mod play;
mod round;
mod rounds;
mod setting;
mod side;
mod turn;
mod watching;

pub use gate::Gate;
pub use hooks::Hooks;
pub use laws::rest_shows_in_calls;
pub use rounds::{race, race_fitting};
