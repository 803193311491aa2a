//! Whether a digraph is strongly connected (Herlihy 2018, section 2.1), with a certificate for
//! either answer: two trees, or a closed set.
//!
//! Read `specs/Reach.antt` first: which party reaches which, and the closed set that is answered.
//! `paths_tell` says that reaching is by paths.
#![tactic(auto)]

mod certificate;
mod check;
mod law;
mod search;

pub use certificate::{Strength, Trees};
pub use check::strong;
pub use law::paths_tell;
pub use swap_digraph::{ArcEnds, ArcId, Digraph, Listed, NoMemory, PartyId, PathList};
