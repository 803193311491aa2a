//! A header as its line states it: its texts lie in the line that was read.

ghost use Rattle.std.specs.Prelude.{◌≡◌};
ghost use Rattle.offer_header.specs.Raw.{is_plain, states_keys, states_timelocks};

use offer_moves::{RawMove, TextRef};
use swap_base::{ByteText, Listed};
use swap_digraph::{Mode, Version};
use swap_job::{Finish, Purpose};

/// What a header's parts are read for, and in which mode.
#[derive(Clone, Copy)]
pub struct Reading {
    pub purpose: Purpose,
    pub mode: Mode,
}

/// Whether a header that is read for this is plain: it doesn't state what its parties' seeds give.
pub fn is_plain(purpose: Purpose) -> bool
    ensures { result ≡ is_plain purpose }
{
    matches!(purpose, Purpose::Make)
}

impl Reading {
    /// Whether each arc states its timelock.
    pub(crate) fn states_timelocks(self) -> bool
        ensures { result ≡ states_timelocks self.purpose self.mode }
    {
        match self.mode {
            Mode::Timelocks => !is_plain(self.purpose),
            Mode::Hashkeys => false,
        }
    }

    /// Whether the header states keys.
    pub(crate) fn states_keys(self) -> bool
        ensures { result ≡ states_keys self.purpose self.mode }
    {
        match self.mode {
            Mode::Timelocks => false,
            Mode::Hashkeys => !is_plain(self.purpose),
        }
    }
}

/// The version, the mode and the numbers of a header.
#[derive(Clone, Copy)]
pub struct Front {
    pub version: Version,
    pub mode: Mode,
    pub start: u64,
    pub delta: u64,
    pub bound: u64,
}

/// Who makes a party's calls: the party itself, which conforms, the offer's events, a script, or a
/// strategy.
#[derive(Drop)]
pub enum RawActor<'v> {
    Conforming,
    Manual,
    Script(Listed<RawMove<'v>>),
    Strategy(ByteText),
}

#[derive(Drop)]
pub struct RawParty<'v> {
    pub name: TextRef<'v>,
    pub actor: RawActor<'v>,
    pub seed: Option<TextRef<'v>>,
}

#[derive(Drop)]
pub struct RawArc<'v> {
    pub from: TextRef<'v>,
    pub to: TextRef<'v>,
    pub amount: u64,
    /// 0 where none is stated.
    pub timelock: u64,
}

#[derive(Drop)]
pub struct RawLeader<'v> {
    pub party: TextRef<'v>,
    /// No text where none is stated.
    pub hashlock: TextRef<'v>,
}

/// The keys of a party, by lock.
#[derive(Drop)]
pub struct RawRow<'v> {
    pub texts: Listed<TextRef<'v>>,
}

#[derive(Drop)]
pub struct RawHeader<'v> {
    pub version: Version,
    pub mode: Mode,
    pub start: u64,
    pub delta: u64,
    pub bound: u64,
    pub parties: Listed<RawParty<'v>>,
    pub arcs: Listed<RawArc<'v>>,
    pub leaders: Listed<RawLeader<'v>>,
    /// A row per party; none where no keys are stated.
    pub keys: Listed<RawRow<'v>>,
    pub finish: Finish,
}
