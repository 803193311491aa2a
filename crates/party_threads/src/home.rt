//! A ledger at home, between two rounds.

ghost use Rattle.std.specs.Prelude.{◌≡◌, IfOk, length};

use ledger_core::{EntryList, Ledger};
use std::alloc::Global;
use std::marker::Model;
use swap_base::NoMemory;

/// A ledger that is in no other hands. It lies in a box, so that it is shared and comes home as a
/// pointer.
#[derive(Drop)]
pub(crate) struct Home {
    ledger: Box<Ledger>,
}

impl Model for Home {
    ghost use Rattle.ledger_core.specs.Value.{LedgerState};

    ghost Value = { LedgerState };

    ghost view = { λ h. h.ledger.value };
}

impl Home {
    pub fn new(alloc: Global, ledger: Ledger) -> Result<Home, NoMemory>
        ensures { IfOk result (λ h. h ≡ ledger) }
    {
        match Box::new(alloc, ledger) {
            Ok(ledger) => Ok(Home { ledger }),
            Err(_) => Err(NoMemory),
        }
    }

    /// The ledger comes home.
    pub fn from_box(ledger: Box<Ledger>) -> Home
        ensures { result ≡ ledger.value }
    {
        Home { ledger }
    }

    /// The ledger leaves.
    pub fn into_box(self) -> Box<Ledger>
        ensures { result.value ≡ self }
    {
        self.ledger
    }

    pub fn len(&self) -> u32
        ensures { result ≡ length self.now.history }
    {
        self.ledger.len()
    }

    pub fn into_history(self) -> EntryList
        ensures { result ≡ self.history }
    {
        Box::into_inner(self.ledger).into_history()
    }
}
