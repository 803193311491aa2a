//! Questions over one list of entries.

ghost use Rattle.std.specs.Prelude.{◌≡◌, ◌<◌, List, length, option_copied};
ghost use Rattle.escrow_core.specs.declared.terms.Terms.{Terms};
ghost use Rattle.ledger_core.specs.declared.entry.Entry.{Entry};
ghost use Rattle.ledger_core.specs.History.{height, settled};
ghost use Rattle.ledger_core.specs.Facts.{checked_history_publication, opened_number, opened_key, has_call};

use hashkey_path::Hashkey;
use swap_base::{LockId, PartyId};

/// The accepted publish: its height, and whether its terms are the arc's correct ones.
#[derive(Clone, Copy, Debug, PartialEq, Eq)]
pub struct Published {
    pub height: u32,
    pub correct: bool,
}

/// How a contract was settled.
#[derive(Clone, Copy, Debug, PartialEq, Eq)]
pub enum Settlement {
    Claimed,
    Refunded,
}

/// A kind of call.
#[derive(Clone, Copy, Debug, PartialEq, Eq)]
pub enum CallKind {
    Publish,
    Unlock(LockId),
    Claim,
    Refund,
}

/// Answers questions over a list of entries, a prefix of a legal history, without taking memory.
pub trait Facts {
    /// The arc's correct terms.
    ghost terms: { Self → Terms };

    ghost entries: { Self → List Entry };

    /// The sum of the ticks.
    fn height(&self) -> u32
        ensures { result ≡ height (entries self.now) };

    fn published(&self) -> Option<Published>
        ensures { result ≡ checked_history_publication (terms self.now) (entries self.now) };

    /// The number of the entry of the lock's accepted unlock.
    fn unlocked(&self, lock: LockId) -> Option<u32>
        requires { lock < length (terms self.now).locks }
        ensures { result ≡ opened_number (entries self.now) lock };

    fn settled(&self) -> Option<Settlement>
        ensures { result ≡ settled (entries self.now) };

    /// Whether there is a call of that party and kind, whatever its reply.
    fn called(&self, by: PartyId, kind: CallKind) -> bool
        ensures { result ≡ has_call by kind (entries self.now) };

    /// The hashkey of the lock's accepted unlock.
    fn opened_key(&self, lock: LockId) -> Option<&Hashkey>
        requires { lock < length (terms self.now).locks }
        ensures { option_copied result ≡ opened_key (entries self.now) lock };
}
