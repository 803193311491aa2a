//! Events of a schedule.

use crate::moves::Move;
use swap_base::{ArcId, PartyId, Shared};

/// One event of a schedule.
#[derive(Debug, Drop)]
pub enum Event {
    /// The arc's ledger ticks by that many heights.
    Tick(ArcId, u32),
    /// The party looks at an adjacent ledger.
    Look(PartyId, ArcId),
    /// The party acts as its role says.
    Act(PartyId),
    /// A party that doesn't conform makes a move.
    Call(PartyId, Shared<Move>),
    /// A conforming party begins its act. Its machine stops within the disk call with this number,
    /// counted from 0. The party then restarts with what a crash leaves of its disk. The last
    /// number says what bytes hold that weren't synced: 0 keeps the old values, 1 the new ones, and
    /// any other number is the value itself.
    Crash(PartyId, u8, u8),
}
