//! A move as its line states it: names are texts that lie in the line, and numbers are of any size.

use crate::text::TextRef;
use swap_base::Listed;

/// The terms that a publish states in place of the correct ones.
#[derive(Debug, Drop)]
pub struct RawTerms<'v> {
    pub start: Option<u64>,
    pub delta: Option<u64>,
    pub bound: Option<u64>,
    pub timelock: Option<u64>,
    pub amount: Option<u64>,
    pub locks: Option<Listed<TextRef<'v>>>,
}

/// The hashkey that a raw move presents.
#[derive(Debug, Drop)]
pub struct RawKey<'v> {
    pub lock: u64,
    pub secret: TextRef<'v>,
    pub path: Listed<TextRef<'v>>,
    pub sigs: Listed<TextRef<'v>>,
}

/// The lock of a craft, the parties that make its hashkey, and the arc of the hashkey that it goes
/// onto.
#[derive(Debug, Drop)]
pub struct RawCraft<'v> {
    pub lock: u64,
    pub via: Listed<TextRef<'v>>,
    pub onto: Option<u64>,
}

/// The moves of events and scripts; `Wait` is one of scripts alone.
#[derive(Clone, Copy, Debug, PartialEq, Eq)]
pub enum MoveKind {
    Publish,
    Craft,
    Replay,
    Raw,
    Claim,
    Refund,
    Transfer,
    Wait,
}

/// A move on an arc.
#[derive(Debug, Drop)]
pub enum RawMove<'v> {
    Publish {
        arc: u64,
        terms: RawTerms<'v>,
    },
    Craft {
        arc: u64,
        craft: RawCraft<'v>,
    },
    Replay {
        arc: u64,
        lock: u64,
        onto: u64,
    },
    Raw {
        arc: u64,
        key: RawKey<'v>,
    },
    Claim {
        arc: u64,
    },
    Refund {
        arc: u64,
    },
    Transfer {
        arc: u64,
        to: TextRef<'v>,
        units: u64,
    },
    Wait {
        arc: u64,
        height: u64,
    },
}
