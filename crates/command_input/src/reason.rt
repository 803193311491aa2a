//! Why an input is refused.

use escrow_core::Reply;
use swap_base::{ArcId, ByteText, Fault, LockId, PartyId};
use swap_digraph::PathList;

/// Why an input is refused. A line is counted from 1; a field goes by its own name, without its
/// place.
#[derive(Debug, Drop)]
pub enum Reason {
    /// The line is no JSON, or no object.
    NotJson(u32),
    Missing(u32, ByteText),
    WrongKind(u32, ByteText),
    UnknownField(u32, ByteText),
    BadName(u32, ByteText),
    Duplicate(u32, ByteText),
    Unknown(u32, ByteText),
    /// A number, or a list's length, outside its range.
    OverLimit(u32, ByteText, u64),
    WrongHex(u32, ByteText),
    NotAdjacent(u32),
    ConformingCall(u32),
    EventInRace(u32),
    SelfArc(ArcId),
    Parallel(ArcId, ArcId),
    /// A set that no arc leaves.
    NotStrong(PathList),
    ManyLeaders(u32),
    /// A cycle of followers.
    NotFeedback(PathList),
    /// The bound that was given, and the least that is needed.
    BoundTooSmall(u64, u64),
    /// The start and delta.
    StartTooSoon(u64, u64),
    /// The timelock that was given, and the one that is wanted.
    WrongTimelock(ArcId, u64, u64),
    NoSeed(PartyId),
    WrongWallet(PartyId, LockId),
    BadLine(u32),
    CutShort,
    /// The reply that was stated, and the one of the replay.
    BadReply(ArcId, u32, Reply, Reply),
    /// The group of parties, and how many leaders it needs.
    TooManyLeaders(u32, u32),
    /// The swap and its arc one of whose parties has no account on the arc's chain.
    NoAccount(u8, ArcId),
    /// The chain and the name of its account, the units that this has, and those that are wanted of
    /// it.
    Overdrawn(u8, ByteText, u64, u64),
    /// A crash is of a party that doesn't conform.
    NotConforming(u32),
}

/// Why an offer gives no job: a reason, or want of memory.
pub type OfferFault = Fault<Reason>;
