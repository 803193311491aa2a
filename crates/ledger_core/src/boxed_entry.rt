//! An entry apart from the list that it stands in.

ghost use Rattle.std.specs.Prelude.{◌≡◌, IfOk};

use crate::entry::Entry;
use std::alloc::Global;
use std::marker::Model;
use std::ops::Deref;
use swap_base::{NoMemory, TryCopy};

/// An entry in memory of its own, which contracts see as the entry.
#[derive(Debug, Drop)]
pub struct BoxedEntry {
    held: Box<Entry>,
}

impl Model for BoxedEntry {
    ghost use Rattle.ledger_core.specs.declared.entry.Entry.{Entry};

    ghost Value = { Entry };

    ghost view = { λ b. b.held.value };
}

impl BoxedEntry {
    pub fn new(alloc: Global, entry: Entry) -> Result<BoxedEntry, NoMemory>
        ensures { IfOk result (λ b. b ≡ entry) }
    {
        Ok(BoxedEntry {
            held: Box::new(alloc, entry)?,
        })
    }

    /// Another entry in the same place. It takes no memory.
    pub(crate) fn holding(self, entry: Entry) -> BoxedEntry
        ensures { result ≡ entry }
    {
        let BoxedEntry { mut held } = self;
        drop(Box::replace(&mut held, entry));
        BoxedEntry { held }
    }

    /// The entry, whose place is let go.
    pub fn into_entry(self) -> Entry
        ensures { result ≡ self }
    {
        Box::into_inner(self.held)
    }
}

impl Deref for BoxedEntry {
    type Target = Entry;

    ghost deref_gives = { λ s x. x ≡ s };

    fn deref(&self) -> &Entry
        ensures { result.now ≡ self.now }
    {
        &self.held
    }
}

impl TryCopy for BoxedEntry {
    fn copy(&self) -> Result<BoxedEntry, NoMemory> {
        let entry: &Entry = &self.held;
        BoxedEntry::new(*Box::allocator(&self.held), entry.copy()?)
    }
}
