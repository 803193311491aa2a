//! What every crate of the swap stands on: lists and texts that contracts see as lists, want of
//! memory, faults with a reason, and texts put together from pieces.
//!
//! Read `specs/Fault.antt` first: `Gives` says that a call answers what a definition answers,
//! unless memory runs out.
#![tactic(auto)]

mod copy;
mod fault;
mod ghost_list;
mod ids;
mod listed;
mod pieces;
mod shared;
mod text;

pub use copy::TryCopy;
pub use fault::{Fault, NoMemory};
pub use ghost_list::GhostList;
pub use ids::{ArcId, Digest, LockId, PartyId};
pub use listed::Listed;
pub use pieces::{Piece, put, put_whole};
pub use shared::Shared;
pub use text::{ByteText, find_place};
