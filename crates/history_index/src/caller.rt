//! One of the arc's two parties.

ghost use Rattle.std.specs.Prelude.{◌≡◌, ◌<◌, ◌≤◌, [], IsTrue, length, vec_capacity};
ghost use Rattle.ledger_core.specs.History.{is_sender};
ghost use Rattle.history_index.specs.Numbers.{names_lock};
ghost use Rattle.history_index.specs.Kept.{no_kinds, updated_numbers, updated_kinds};

use crate::kinds::Kinds;
use ledger_core::{Entry, Sender};
use std::alloc::Global;
use swap_base::PartyId;

/// A party with the numbers of its entries, and the kinds of call among them.
#[derive(Debug, Drop)]
pub(crate) struct Caller {
    pub party: PartyId,
    pub numbers: Vec<u32>,
    pub kinds: Kinds,
}

impl Caller {
    /// A party without entries.
    pub fn new(alloc: Global, party: PartyId) -> Caller
        ensures party { result.party ≡ party }
        ensures numbers { result.numbers.items ≡ [] }
        ensures kinds { result.kinds ≡ no_kinds }
    {
        Caller {
            party,
            numbers: Vec::new(alloc),
            kinds: Kinds::new(),
        }
    }

    /// Takes in an entry with its number, where the party sent it. It takes no memory.
    pub fn add(&mut self, number: u32, entry: &Entry)
        requires places { length self.old.kinds.unlock ≡ 8 }
        requires room { IsTrue (is_sender self.old.party entry.now.sender) → length self.old.numbers.items < vec_capacity self.old.numbers }
        requires lock { IsTrue (names_lock entry.now.what) }
        ensures party { self.new.party ≡ self.old.party }
        ensures numbers { self.new.numbers.items ≡ updated_numbers number self.old.party entry.now self.old.numbers.items }
        ensures kinds { self.new.kinds ≡ updated_kinds self.old.party entry.now self.old.kinds }
        ensures capacity { vec_capacity self.old.numbers ≤ vec_capacity self.new.numbers }
    {
        if entry.sender != Sender::Party(self.party) {
            return;
        }
        match self.numbers.push(number) {
            Ok(()) => {}
            Err(_) => unreachable!(),
        }
        self.kinds.add(&entry.what);
    }
}
