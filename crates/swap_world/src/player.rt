//! What acts for a party, in a run or a race, and what it learns of a ledger.

ghost use Rattle.std.specs.Prelude.{◌≡◌, OnOk, OnErr};
ghost use Rattle.swap_world.specs.Players.{knowing_ledger, CanLearnLedger};

use crate::turn::{learn, watch};
use ledger_core::Ledger;
use party_machine::Machine;
use swap_base::NoMemory;
use swap_run::Planner;
use wallet_journal::{Journal, MemoryDisk};

/// What acts for a party. `J` is where a machine records its hashkeys: a journal in a run, nothing
/// in a race.
#[derive(Drop)]
pub enum Player<J> {
    /// A conforming party, by its machine.
    Conforming(Machine, J),
    /// A party that follows a script or a strategy.
    Planned(Planner),
    /// A party that acts by its own calls alone.
    Manual,
}

/// What acts for a party of a world: each machine has its journal, on a disk in memory.
pub(crate) type Actor = Player<Journal<MemoryDisk>>;

impl<J> Player<J> {
    /// Lets the party know a ledger up to its end, where it has a machine or a planner. Want of
    /// memory leaves it as it was.
    pub(crate) fn learn(&mut self, ledger: &Ledger) -> Result<(), NoMemory>
        requires { CanLearnLedger self.old ledger.now }
        ensures ok { OnOk result (self.new ≡ knowing_ledger self.old ledger.now.arc ledger.now.history) }
        ensures err { OnErr result (self.new ≡ self.old) }
    {
        match self {
            Player::Conforming(machine, _) => learn(machine, ledger),
            Player::Planned(planner) => watch(planner, ledger, ledger.arc()),
            Player::Manual => Ok(()),
        }
    }
}
