//! The lines of many swaps: what stands before their events, where their arcs stand, and their
//! events, each with the first reason why it is refused.
//!
//! Read `specs/Fields.antt` first: what each line that is no JSON says; then `specs/Heading.antt`,
//! `specs/Places.antt` and `specs/Event.antt`. What holds of all that is read is in
//! `specs/Whole.antt`; which events can come, in `specs/Setup.antt`.
#![tactic(auto)]

mod accounts;
mod chain_list;
mod event;
mod fault;
mod heading;
mod many_job;
mod number;
mod payment;
mod places;
mod said;
mod stage;
mod swap;

pub use event::next_many;
pub use heading::Heading;
pub use many_job::ManyJob;
pub use places::find_places;
pub use stage::{Stage, SwapLine};
