//! Moves of a party that doesn't conform.

ghost use Rattle.std.specs.Prelude.{◌≡◌};
ghost use Rattle.swap_job.specs.Resolved.{move_arc};

use escrow_core::LockList;
use hashkey_path::Hashkey;
use swap_base::{ArcId, Listed, LockId, NoMemory, PartyId, TryCopy};
use swap_digraph::PathList;

/// A move on an arc.
#[derive(Debug, Drop)]
pub enum Move {
    /// A publish of the correct terms, with the given ones in their place.
    Publish {
        arc: ArcId,
        start: Option<u32>,
        delta: Option<u32>,
        bound: Option<u32>,
        timelock: Option<u32>,
        amount: Option<u64>,
        locks: Option<LockList>,
    },
    /// An unlock with a hashkey that the parties of `via` make from their seeds, the last one
    /// first. Where `onto` is given, they put themselves before the hashkey that opened the lock
    /// there.
    Craft {
        arc: ArcId,
        lock: LockId,
        via: PathList,
        onto: Option<ArcId>,
    },
    /// An unlock with the hashkey that opened the lock on another arc.
    Replay {
        arc: ArcId,
        lock: LockId,
        onto: ArcId,
    },
    /// An unlock with just this hashkey.
    Raw {
        arc: ArcId,
        key: Hashkey,
    },
    Claim {
        arc: ArcId,
    },
    Refund {
        arc: ArcId,
    },
    Transfer {
        arc: ArcId,
        to: PartyId,
        units: u64,
    },
    /// Waits for a height of the arc's ledger; only in scripts.
    Wait {
        arc: ArcId,
        height: u32,
    },
}

/// Moves, in the order in which they are made.
pub type MoveList = Listed<Move>;

/// The arc on which a move stands.
pub fn arc_of_move(mv: &Move) -> ArcId
    ensures { result ≡ move_arc mv.now }
{
    match mv {
        Move::Publish { arc, .. } => *arc,
        Move::Craft { arc, .. } => *arc,
        Move::Replay { arc, .. } => *arc,
        Move::Raw { arc, .. } => *arc,
        Move::Claim { arc } => *arc,
        Move::Refund { arc } => *arc,
        Move::Transfer { arc, .. } => *arc,
        Move::Wait { arc, .. } => *arc,
    }
}

impl TryCopy for Move {
    fn copy(&self) -> Result<Move, NoMemory> {
        match self {
            Move::Publish {
                arc,
                start,
                delta,
                bound,
                timelock,
                amount,
                locks,
            } => Ok(Move::Publish {
                arc: *arc,
                start: *start,
                delta: *delta,
                bound: *bound,
                timelock: *timelock,
                amount: *amount,
                locks: *locks,
            }),
            Move::Craft {
                arc,
                lock,
                via,
                onto,
            } => Ok(Move::Craft {
                arc: *arc,
                lock: *lock,
                via: via.copy()?,
                onto: *onto,
            }),
            Move::Replay { arc, lock, onto } => Ok(Move::Replay {
                arc: *arc,
                lock: *lock,
                onto: *onto,
            }),
            Move::Raw { arc, key } => Ok(Move::Raw {
                arc: *arc,
                key: key.copy()?,
            }),
            Move::Claim { arc } => Ok(Move::Claim { arc: *arc }),
            Move::Refund { arc } => Ok(Move::Refund { arc: *arc }),
            Move::Transfer { arc, to, units } => Ok(Move::Transfer {
                arc: *arc,
                to: *to,
                units: *units,
            }),
            Move::Wait { arc, height } => Ok(Move::Wait {
                arc: *arc,
                height: *height,
            }),
        }
    }
}
