//! What a chain replies.

ghost use Rattle.std.specs.Prelude.{◌≡◌};
ghost use Rattle.swap_many.specs.Chains.{is_accepted_deed};

use escrow_core::Reply;

/// A reply of a chain: a ledger's, or one to a sweep or on a swept slot.
#[derive(Clone, Copy, Debug, PartialEq, Eq)]
pub enum ManyReply {
    /// A reply of a ledger.
    Plain(Reply),
    /// The first height at which the slot can be swept.
    NotEnded(u64),
    /// The slot is swept.
    Swept,
    /// The units that its contract holds.
    StillHeld(u64),
    /// Nothing was published.
    Unpublished,
}

impl ManyReply {
    /// Whether nothing was refused.
    pub fn is_accepted(&self) -> bool
        ensures { result ≡ is_accepted_deed self.now }
    {
        match self {
            ManyReply::Plain(Reply::Accepted) => true,
            _ => false,
        }
    }
}
