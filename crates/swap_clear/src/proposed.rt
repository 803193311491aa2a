//! A proposed transfer.

use swap_base::PartyId;

/// A transfer that is proposed: a number of units, from one party to another.
#[derive(Clone, Copy, Debug, PartialEq, Eq)]
pub struct Proposed {
    pub from: PartyId,
    pub to: PartyId,
    pub amount: u64,
}
