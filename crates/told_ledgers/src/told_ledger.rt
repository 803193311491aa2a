//! What is told of ledgers.

use escrow_core::Reply;
use hashkey_path::Hashkey;
use ledger_core::EntryList;
use swap_base::{Listed, Shared};

/// What a ledger stated, and what the deal's contract replies.
#[derive(Clone, Copy)]
pub struct Replies {
    pub stated: Reply,
    pub replayed: Reply,
}

/// The first line of a ledger that isn't an entry of it, or whose reply isn't the replayed one.
#[derive(Clone, Copy)]
pub struct BadEntry {
    /// Its number among all lines of its ledger, from 0.
    pub entry: u32,
    /// None where the line can't be read as an entry.
    pub replies: Option<Replies>,
}

/// An unlock of the party that is told.
#[derive(Drop)]
pub struct OwnUnlock {
    /// The number of its line among all lines of its ledger, from 0.
    pub entry: u32,
    pub key: Shared<Hashkey>,
}

/// What is told of the ledger of one arc.
#[derive(Drop)]
pub struct ToldLedger {
    /// What was taken of it, up to its bad entry.
    pub history: EntryList,
    pub bad: Option<BadEntry>,
    /// The party's unlocks that can be read, refused ones too, in the order of its lines.
    pub unlocks: Listed<OwnUnlock>,
    /// The height of its chain's tip, if it is told.
    pub tip: Option<u32>,
    /// In how many heights a call lands, if it is told.
    pub margin: Option<u32>,
}
