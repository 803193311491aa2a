//! Entries that an index takes all at once, or not at all.

ghost use Rattle.std.specs.Prelude.{◌≡◌, ◌≤◌, ◌+◌, ◌++◌, List, length, count_by, OnOk, OnErr};
ghost use Rattle.std.specs.List.{AllByRecursion};
ghost use Rattle.ledger_core.specs.declared.entry.Entry.{Entry};
ghost use Rattle.ledger_core.specs.Facts.{is_call};
ghost use Rattle.ledger_core.specs.Runs.{ledger_entries, expand, IsRight};
ghost use Rattle.history_index.specs.Value.{IsSameArc};
ghost use Rattle.history_index.specs.Numbers.{IsIndexable};

use crate::index::Index;
use crate::steps::Steps;
use ledger_core::{EntryList, Item};
use std::sync::ledger::Ledger;
use swap_base::NoMemory;

/// Adds the entries of an item.
fn push_item<L: Ledger>(index: &mut Index, item: Item, steps: &mut Steps<L>)
    requires right { IsRight item }
    requires indexable { (front rest : List Entry) → index.old.entries ++ ledger_entries item ≡ front ++ rest → IsIndexable index.old.from index.old.to front }
    requires room { count_by (λ e. is_call e.what) (ledger_entries item) ≤ index.old.spare }
    ensures entries { index.new.entries ≡ index.old.entries ++ ledger_entries item }
    ensures steps { steps.new ≡ steps.old + length (ledger_entries item) }
    ensures spare { index.old.spare ≤ index.new.spare + count_by (λ e. is_call e.what) (ledger_entries item) }
    ensures arc { IsSameArc index.old index.new }
{
    match item {
        Item::One(entry) => index.push(entry, steps),
        Item::Ticks(run) => index.push_ticks(run, steps),
    }
}

/// Adds the entries of all items, in their order.
fn push_items<L: Ledger>(index: &mut Index, items: Vec<Item>, steps: &mut Steps<L>)
    requires right { AllByRecursion IsRight items.items }
    requires indexable { (front rest : List Entry) → index.old.entries ++ expand items.items ≡ front ++ rest → IsIndexable index.old.from index.old.to front }
    requires room { count_by (λ e. is_call e.what) (expand items.items) ≤ index.old.spare }
    ensures entries { index.new.entries ≡ index.old.entries ++ expand items.items }
    ensures steps { steps.new ≡ steps.old + length (expand items.items) }
    ensures arc { IsSameArc index.old index.new }
{
    'items: for item in items {
        push_item(index, item, steps);
    }
}

impl Index {
    /// Adds all of the entries, a step each, or none where memory runs out. It takes memory for
    /// calls alone.
    pub fn extend<L: Ledger>(
        &mut self,
        entries: EntryList,
        steps: &mut Steps<L>,
    ) -> Result<(), NoMemory>
        // Every legal history of the arc is indexable, and so is each prefix of one.
        requires { (front rest : List Entry) → self.old.entries ++ entries ≡ front ++ rest → IsIndexable self.old.from self.old.to front }
        ensures ok { OnOk result (self.new.entries ≡ self.old.entries ++ entries) }
        ensures steps { OnOk result (steps.new ≡ steps.old + length entries) }
        ensures err { OnErr result (self.new ≡ self.old) }
        ensures no_step { OnErr result (steps.new ≡ steps.old) }
        ensures arc { IsSameArc self.old self.new }
    {
        self.reserve(entries.calls())?;
        let (items, open) = entries.into_parts();
        push_items(self, items, steps);
        self.push_ticks(open, steps);
        Ok(())
    }
}
