//! The passes through which threads call a shared ledger.

ghost use Rattle.std.specs.Prelude.{◌≡◌, length};

use crate::seat::LedgerSeat;
use std::marker::Model;
use swap_base::PartyId;

/// A party's pass at one shared ledger.
#[derive(Drop)]
pub struct Pass {
    pub(crate) seat: LedgerSeat,
    pub(crate) party: PartyId,
    pub(crate) seen: u32,
}

impl Model for Pass {
    ghost use Rattle.ledger_shared.specs.Value.{PassState};

    ghost Value = { PassState };

    ghost use Rattle.ledger_shared.specs.Pass.{inside_pass, IsOfParty};

    ghost view = { inside_pass };

    ghost invariant = { IsOfParty };
}

impl Pass {
    /// Whose pass it is.
    pub fn party(&self) -> PartyId
        ensures { result ≡ self.now.party }
    {
        self.party
    }

    /// How many entries it has seen.
    pub fn seen(&self) -> u32
        ensures { result ≡ length self.now.seen }
    {
        self.seen
    }
}

/// The clock's pass at one shared ledger.
#[derive(Drop)]
pub struct ClockPass {
    pub(crate) seat: LedgerSeat,
    pub(crate) seen: u32,
}

impl Model for ClockPass {
    ghost use Rattle.ledger_shared.specs.Value.{ClockState};

    ghost Value = { ClockState };

    ghost use Rattle.ledger_shared.specs.Pass.{inside_clock_pass, IsOfClock};

    ghost view = { inside_clock_pass };

    ghost invariant = { IsOfClock };
}

impl ClockPass {
    /// How many entries it has seen.
    pub fn seen(&self) -> u32
        ensures { result ≡ length self.now.seen }
    {
        self.seen
    }
}
