//! A list of entries.

ghost use Rattle.std.specs.Prelude.{◌≡◌, ◌<◌, ◌≤◌, ◌^◌, ◌++◌, ◌∷◌, ◌==◌, [], OnOk, OnErr, IfOk, IfSome, length, count_by};
ghost use Rattle.std.specs.List.{AllByRecursion};
ghost use Rattle.ledger_core.specs.Facts.{is_call};
ghost use Rattle.ledger_core.specs.History.{height};
ghost use Rattle.ledger_core.specs.Ledger.{tick_entry};
ghost use Rattle.ledger_core.specs.Runs.{run_ticks, expand, IsRight, IsRightRun};

use crate::entry::{Entry, Sender, What};
use crate::ledger_history::LedgerHistory;
use crate::runs::{Item, Run, call_count, item_rise, run_rise};
use crate::spread::{put_items, put_ticks};
use escrow_core::Reply;
use std::alloc::Global;
use std::marker::Model;
use swap_base::{NoMemory, TryCopy};

/// Entries, oldest first, which contracts see as their list. Ticks that follow each other by the
/// same number take no memory each.
#[derive(Debug, Drop)]
pub struct EntryList {
    entries: LedgerHistory,
}

impl Model for EntryList {
    ghost use Rattle.std.specs.Prelude.{List};
    ghost use Rattle.ledger_core.specs.declared.entry.Entry.{Entry};

    ghost Value = { List Entry };

    ghost view = { λ l. l.entries.list };
}

impl EntryList {
    /// A list without entries, which takes no memory.
    pub fn empty(alloc: Global) -> EntryList
        ensures { result ≡ [] }
    {
        EntryList {
            entries: LedgerHistory::new(alloc),
        }
    }

    /// The entries of a history, without taking memory.
    pub fn from_history(entries: LedgerHistory) -> EntryList
        ensures { result ≡ entries.list }
    {
        EntryList { entries }
    }

    pub fn len(&self) -> usize
        ensures { result ≡ length self.now }
    {
        self.entries.len()
    }

    pub fn is_empty(&self) -> bool
        ensures { result ≡ (length self.now == 0) }
    {
        self.entries.len() == 0
    }

    /// The items, and the ticks after them.
    pub fn parts(&self) -> (&[Item], Run)
        ensures list { self.now ≡ expand result.0.now ++ run_ticks result.1 }
        ensures right { AllByRecursion IsRight result.0.now }
        ensures right_run { IsRightRun result.1 }
    {
        self.entries.parts()
    }

    /// The items, and the ticks after them, without taking memory.
    pub fn into_parts(self) -> (Vec<Item>, Run)
        ensures list { self ≡ expand result.0.items ++ run_ticks result.1 }
        ensures right { AllByRecursion IsRight result.0.items }
        ensures right_run { IsRightRun result.1 }
    {
        self.entries.into_parts()
    }

    /// The sum of the ticks.
    #[tactic(auto, using(crate::proofs::History::height_append))]
    pub fn height(&self) -> u32
        requires { height self.now < 2 ^ 32 }
        ensures { result ≡ height self.now }
    {
        let (items, open) = self.entries.parts();
        items_rise(items) + run_rise(open)
    }

    /// How many entries are calls.
    #[tactic(auto, using(crate::proofs::Ticks::calls_append, crate::proofs::Ticks::calls_ticks))]
    pub fn calls(&self) -> usize
        ensures { result ≡ count_by (λ e. is_call e.what) self.now }
    {
        let (items, _) = self.entries.parts();
        total_calls(items)
    }

    /// The entries one by one.
    pub fn to_vec(&self, alloc: Global) -> Result<Vec<Entry>, NoMemory>
        ensures { IfOk result (λ v. v.items ≡ self.now) }
    {
        let (items, open) = self.entries.parts();
        let mut out = Vec::new(alloc);
        put_items(&mut out, items)?;
        put_ticks(&mut out, open)?;
        Ok(out)
    }

    /// Adds an entry. It takes memory, where that isn't an accepted tick that goes on with those
    /// before it.
    pub fn push(&mut self, entry: Entry) -> Result<(), NoMemory>
        ensures ok { OnOk result (self.new ≡ self.old ++ entry ∷ []) }
        ensures err { OnErr result (self.new ≡ self.old) }
    {
        if self.entries.len() == usize::MAX {
            return Err(NoMemory);
        }
        self.entries.reserve()?;
        match entry_tick(&entry) {
            Some(k) => self.entries.tick(k, entry.height),
            None => self.entries.push(entry),
        }
        Ok(())
    }

    /// Adds the entries of another list, whose memory it takes over. What it costs grows with their
    /// items alone. Want of memory leaves everything as it was.
    pub fn append(&mut self, more: EntryList) -> Result<(), NoMemory>
        ensures ok { OnOk result (self.new ≡ self.old ++ more) }
        ensures err { OnErr result (self.new ≡ self.old) }
    {
        self.entries.append(more.entries)
    }
}

impl TryCopy for EntryList {
    fn copy(&self) -> Result<EntryList, NoMemory> {
        Ok(EntryList {
            entries: self.entries.copy_tail(0)?,
        })
    }
}

/// By how many heights an entry raised the ledger, where it is a tick that the ledger accepted.
fn entry_tick(entry: &Entry) -> Option<u32>
    ensures entry { IfSome result (λ k. entry.now ≡ tick_entry k entry.now.height Reply.Accepted) }
    ensures low { IfSome result (λ k. k ≤ entry.now.height) }
{
    match (entry.sender, &entry.what, entry.reply) {
        (Sender::Clock, What::Tick(k), Reply::Accepted) => {
            if *k <= entry.height { Some(*k) } else { None }
        }
        _ => None,
    }
}

/// By how many heights the items raise a ledger.
fn items_rise(items: &[Item]) -> u32
    requires { height (expand items.now) < 2 ^ 32 }
    ensures { result ≡ height (expand items.now) }
{
    let mut sum: u32 = 0;
    for item in items {
        sum += item_rise(item);
    }
    sum
}

/// How many entries of the items are calls.
fn total_calls(items: &[Item]) -> usize
    ensures { result ≡ count_by (λ e. is_call e.what) (expand items.now) }
{
    let mut sum: usize = 0;
    for item in items {
        sum += call_count(item);
    }
    sum
}
