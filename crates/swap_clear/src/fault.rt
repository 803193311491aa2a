//! Why proposals aren't cleared.

use swap_base::Fault;

/// What is wrong with the least arc that has a fault, or which group has too many leaders.
#[derive(Clone, Copy, Debug, PartialEq, Eq)]
pub enum ClearReason {
    /// An end of the arc is no party.
    OutOfRange(u32),
    /// The arc leads from a party to itself.
    SelfArc(u32),
    /// The group with the first number has the second number of leaders, more than 8. It is the
    /// least such group.
    TooManyLeaders(u32, u32),
}

/// Why there is no clearing: a reason of the proposals, or want of memory.
pub type ClearFault = Fault<ClearReason>;
