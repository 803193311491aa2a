//! The header of an offer: its fields, its names and its limits, each step with the first reason
//! why it is refused.
//!
//! Read `specs/Header.antt` first: `parse_whole_header` says what a line gives, and
//! `IsHeaderInLimits` what holds of every header.
#![tactic(auto)]

mod fields;
mod header;
mod header_lists;
mod limits;
mod names;
mod raw;
mod scripts;
mod versions;

pub use header::{Header, parse_header};
pub use names::{Ends, add_name, is_known, is_name, kept_names, resolve_arc_ends};
pub use raw::{RawActor, RawArc, RawParty, Reading, is_plain};
