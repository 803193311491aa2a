//! The digraph of a swap and the deal that its parties agree to (Herlihy 2018, section 2).
//!
//! Read `specs/Graph.antt` first: paths, strong connectivity, feedback vertex sets, the longest
//! path of followers, and distances.
#![tactic(auto)]

mod arc_ends;
mod deal;
mod digraph;
mod fault;
mod path;

pub use arc_ends::ArcEnds;
pub use deal::{Deal, Mode, Version, copy_deal, path_limit};
pub use digraph::Digraph;
pub use fault::{ArcFault, DigraphFault};
pub use path::is_listed;
pub use swap_base::{ArcId, ByteText, Digest, Listed, LockId, NoMemory, PartyId, TryCopy};

/// Parties, in the order of a path, or ascending as a set.
pub type PathList = Listed<PartyId>;
