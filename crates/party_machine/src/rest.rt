//! How long a machine rests that has nothing to do.

ghost use Rattle.std.specs.Prelude.{◌≡◌};
ghost use Rattle.swap_rules.specs.Rest.{are_ticks};
ghost use Rattle.party_machine.specs.Rest.{remaining_rest};

use ledger_core::EntryList;

/// Whether something may be due.
#[derive(Clone, Copy)]
pub(crate) enum Rest {
    Awake,
    /// Nothing is due, and no tick up to that height makes anything due; no tick at all, where
    /// there is none.
    Until(Option<u64>),
}

impl Rest {
    /// What is left of rest after further entries of a ledger, ticks or not, have brought it to
    /// that height.
    pub(crate) fn remaining_rest(self, ticks: bool, height: u32) -> Rest
        ensures { result ≡ remaining_rest self ticks height }
    {
        match self {
            Rest::Until(None) if ticks => self,
            Rest::Until(Some(until)) if ticks && height as u64 <= until => self,
            _ => Rest::Awake,
        }
    }
}

/// Whether all of the entries are ticks.
#[tactic(auto, using(crate::proofs::Resting::no_calls))]
pub(crate) fn are_ticks(entries: &EntryList) -> bool
    ensures { result ≡ are_ticks entries.now }
{
    entries.calls() == 0
}
