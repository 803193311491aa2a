//! What happened to the call that an event makes.

use escrow_core::Reply;

/// What a party is told of its call.
#[derive(Clone, Copy, Debug, PartialEq, Eq)]
pub enum Told {
    /// The event made no call.
    Nothing,
    /// The slot is swept, and the call never reached its ledger.
    Passed,
    /// The ledger's reply.
    Replied(Reply),
}
