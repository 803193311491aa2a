//! Proposed transfers become swaps: which of them lie on no cycle, and the groups of parties that
//! reach each other, with leaders, a cycle for each leader, and a bound. They are read of a line of
//! wishes, and written as the transfers that are left out and each group's plain job.
//!
//! Read `specs/Proposals.antt`, `specs/Groups.antt` and `specs/Leaders.antt` first: what is
//! answered. `specs/Cyclic.antt`, `specs/Together.antt`, `specs/Led.antt` and `specs/Ready.antt`
//! say what that means, of all paths and cycles. `specs/Cleared.antt` says what a line gives, or
//! the first reason against it, and `specs/ClearedText.antt` the text, line by line.
#![tactic(auto)]

mod answer;
mod cleared;
mod clearing;
mod fault;
mod fields;
mod group;
mod group_digraph;
mod groups;
mod law;
mod leaders;
mod left_out;
mod limits;
mod lists;
mod names;
mod proposals;
mod proposed;
mod reach;
mod text;

pub use answer::{Clearing, Group, LeftOut};
pub use cleared::{Cleared, read_cleared};
pub use clearing::clear;
pub use fault::{ClearFault, ClearReason};
pub use law::clearings_tell;
pub use limits::Wishes;
pub use proposed::Proposed;
pub use swap_digraph::{Listed, NoMemory, PartyId, PathList};
pub use text::cleared_line;
