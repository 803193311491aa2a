//! The deal.

ghost use Rattle.std.specs.Prelude.{◌≡◌, IfOk};
ghost use Rattle.swap_digraph.specs.Deal.{path_limit};

use crate::digraph::Digraph;
use swap_base::{Digest, Listed, NoMemory, PartyId, TryCopy};

/// How contracts open: by plain timelocks with one leader, or by hashkeys.
#[derive(Clone, Copy, Debug, PartialEq, Eq)]
pub enum Mode {
    Timelocks,
    Hashkeys,
}

/// The version of the offer's format, which sets its limits.
#[derive(Clone, Copy, Debug, PartialEq, Eq)]
pub enum Version {
    One,
    Two,
}

/// What the parties agree to.
#[derive(Debug, Drop)]
pub struct Deal {
    pub version: Version,
    pub graph: Digraph,
    /// The leaders, whose order numbers the locks.
    pub leaders: Listed<PartyId>,
    /// The height before which no deadline falls.
    pub start: u32,
    /// The heights within which a party has to act.
    pub delta: u32,
    /// A bound on the arcs of a path that ends in a leader.
    pub bound: u32,
    pub mode: Mode,
    /// The units of each arc.
    pub amounts: Listed<u64>,
    /// The hashlock of each lock.
    pub hashlocks: Listed<Digest>,
    /// The public key of each party for each lock; none in timelocks mode.
    pub keys: Listed<Listed<Digest>>,
    /// The timelock of each arc, a height; all 0 in hashkeys mode.
    pub timelocks: Listed<u32>,
    /// The deal's digest.
    pub id: Digest,
}

/// An equal deal.
pub fn copy_deal(deal: &Deal) -> Result<Deal, NoMemory>
    ensures { IfOk result (λ d. d ≡ deal.now) }
{
    Ok(Deal {
        version: deal.version,
        graph: deal.graph.copy()?,
        leaders: deal.leaders.copy()?,
        start: deal.start,
        delta: deal.delta,
        bound: deal.bound,
        mode: deal.mode,
        amounts: deal.amounts.copy()?,
        hashlocks: deal.hashlocks.copy()?,
        keys: deal.keys.copy()?,
        timelocks: deal.timelocks.copy()?,
        id: deal.id,
    })
}

/// The most vertices that a hashkey's path may have: 24 in version 1 and 32 in version 2.
pub fn path_limit(deal: &Deal) -> u8
    ensures { result ≡ path_limit deal.now }
{
    match deal.version {
        Version::One => 24,
        Version::Two => 32,
    }
}
