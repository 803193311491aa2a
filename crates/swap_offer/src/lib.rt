//! Reads an offer: its header as an accepted deal, and its events.
//!
//! Read `specs/Job.antt` first: `parse_job` says what the bytes of an offer are, or the first
//! reason against them. `specs/Proposed.antt` says what a deal has before its parties' seeds give
//! it hashlocks, keys and timelocks; every accepted deal has it too.
#![tactic(auto)]

mod checks;
mod header;
mod job;
mod laws;
mod prepared;
mod wallets;

pub use command_input::{HeaderFault, OfferFault, Reason};
pub use header::{admit, assemble_job, read_header};
pub use job::{count_event, next_event, read_job};
pub use laws::admitted_is_accepted;
pub use offer_events::read_event;
pub use prepared::Prepared;
