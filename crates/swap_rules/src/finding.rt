//! What is found of a book.

use swap_base::{ArcId, LockId, PartyId};

/// What a party is to do in time.
#[derive(Clone, Copy, Debug, PartialEq, Eq)]
pub enum Rule {
    Publish,
    Unlock(LockId),
    Claim,
    Refund,
}

/// A finding. An entry is named by its number in its ledger's history, from 0, with ticks counted.
#[derive(Clone, Copy, Debug, PartialEq, Eq)]
pub enum Finding {
    /// The party's entry on the arc breaks a rule of conduct.
    Broke(PartyId, ArcId, u32),
    /// The rule's action was to be done on the arc by that height, and wasn't.
    Late(PartyId, Rule, ArcId, u64),
    /// The arc's entry was accepted with a signature or a secret that the party never sent.
    Forged(PartyId, ArcId, u32),
    /// The arc's ledger stands at that height, which isn't above the horizon.
    Unfinished(ArcId, u32),
}
