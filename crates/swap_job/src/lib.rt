//! What a job asks for: its deal, its parties and their roles, its events; and the calls that moves
//! stand for.
//!
//! Read `specs/Resolved.antt` first: the call that a move stands for; then `specs/Step.antt`: the
//! events that a job may have.
#![tactic(auto)]

mod crafted;
mod event;
mod job;
mod moves;
mod openings;
mod resolved;

pub use event::Event;
pub use job::{Finish, Job, Purpose, Role};
pub use moves::{Move, MoveList, arc_of_move};
pub use openings::{find_opened_key, opened_key};
pub use resolved::{opening_named, resolve, resolve_keyed_move};
