//! A conforming party of the swap: what it knows, what is due for it, and the call that it makes
//! next.
//!
//! Read `specs/Machine.antt` first: `next_action` is the first of what is due.
//! `specs/Recording.antt` says what is recorded before a call is answered.
#![tactic(auto)]

mod actions;
mod knowledge;
mod law;
mod machine;
mod misfit;
mod reading;
mod recording;
mod rest;
mod signing;

pub use law::fitting_is_good;
pub use machine::Machine;
pub use misfit::{MachineFault, Misfit};
