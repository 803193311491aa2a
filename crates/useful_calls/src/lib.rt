//! All that is useful to a party: what is due by the rule book, less the calls that can only hurt the
//! party and the unlocks for locks that are stopped (`due` and `useful` of `swap_rules`,
//! `useful_unless_stopped` of `answer_rules`).
//!
//! Read `specs/Actions.antt` first, then `specs/Landing.antt`: at which height a call lands, and
//! which publishes may land; and `specs/Asker.antt`: who asks.
#![tactic(auto)]

mod all;
mod asker;
mod due_call;
mod due_key;
mod landing;
mod publishes;
mod settling;
mod signer;
mod unlocks;
mod withheld;

pub use all::all_useful;
pub use due_call::{DueCall, without_sent};
pub use landing::landing_publishes;
pub use signer::{Signer, kept_key};
