//! Why arcs are no digraph.

use swap_base::{ArcId, Fault};

/// What is wrong with the least arc that has a fault.
#[derive(Clone, Copy, Debug, PartialEq, Eq)]
pub enum ArcFault {
    /// An end of the arc is no party.
    OutOfRange(ArcId),
    /// The arc leads from a party to itself.
    SelfArc(ArcId),
    /// The second arc has the ends of the first, which is the least such.
    Parallel(ArcId, ArcId),
}

/// Why there is no digraph: a fault of the arcs, or want of memory.
pub type DigraphFault = Fault<ArcFault>;
