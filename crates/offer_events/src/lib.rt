//! Reads one event line of an offer: a tick of a ledger, a party's look at one, its act, or a call
//! that it makes.
//!
//! Read `specs/Event.antt` first: `parse_event` is the event of a line, or the first reason against
//! it.
#![tactic(auto)]

mod event;
mod plain;
mod raw;
mod reading;

pub use event::read_event;
