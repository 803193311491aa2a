//! Whether the leaders of a digraph are a feedback vertex set: with the levels of the parties, or
//! with a cycle of followers (Herlihy 2018, section 2). And how far the parties stand from the one
//! leader of a deal in timelocks mode (section 4).
//!
//! Read `specs/Levels.antt` and `specs/Cycles.antt` first: the level of a party, and which cycle is
//! shown; then `specs/Distance.antt`.
#![tactic(auto)]

mod check;
mod cycle;
mod distance_laws;
mod distances;
mod laws;
mod leader_answer;
mod rounds;

pub use check::{height, is_feedback, levels};
pub use cycle::{find_cycle, leads_each};
pub use distance_laws::distances_follow_arcs;
pub use distances::dist;
pub use laws::{greatest_level_is_height, no_cycle_is_feedback, paths_to_leaders_are_bounded};
pub use leader_answer::{LeaderAnswer, Levels};
