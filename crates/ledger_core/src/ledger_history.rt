//! The entries of a ledger, where a tick that goes on with those before it takes no memory of its
//! own.

ghost use Rattle.std.specs.Prelude.{◌≡◌, ◌<◌, ◌≤◌, ◌+◌, ◌-◌, ◌++◌, ◌∷◌, [], OnOk, OnErr, IfOk, length, drop, is_some, true, false, vec_len, vec_capacity};
ghost use Rattle.std.specs.List.{AllByRecursion};
ghost use Rattle.ledger_core.specs.Ledger.{tick_entry};
ghost use Rattle.ledger_core.specs.Runs.{run_ticks, ledger_entries, expand, IsRight, IsRightRun};

use crate::boxed_entry::BoxedEntry;
use crate::entry::{Entry, Sender, What};
use crate::runs::{Item, Run, all_entries, ending, joined, last_run, longer, no_ticks, single};
use escrow_core::Reply;
use std::alloc::Global;
use std::marker::Model;
use swap_base::{NoMemory, TryCopy};

/// Entries, oldest first. The ticks after the last item are kept beside the items, so that the
/// common tick reaches no memory.
#[derive(Debug, Drop)]
pub struct LedgerHistory {
    items: Vec<Item>,
    open: Run,
    count: usize,
    /// Where a further call's entry goes, if room was made for one.
    room: Option<BoxedEntry>,
}

impl Model for LedgerHistory {
    ghost use Rattle.ledger_core.specs.Value.{HistoryState};

    ghost Value = { HistoryState };

    ghost use Rattle.ledger_core.specs.HistoryFields.{inside_history, AreParts};

    ghost view = { inside_history };

    ghost invariant = { AreParts };
}

impl LedgerHistory {
    /// No entries, which take no memory.
    pub fn new(alloc: Global) -> LedgerHistory
        ensures list { result.list ≡ [] }
        ensures spare { result.spare ≡ 0 }
    {
        LedgerHistory {
            items: Vec::new(alloc),
            open: no_ticks(),
            count: 0,
            room: None,
        }
    }

    /// Makes room for a further entry. Want of memory leaves everything as it was.
    pub fn reserve(&mut self) -> Result<(), NoMemory>
        ensures ok { OnOk result (0 < self.new.spare) }
        ensures err { OnErr result (self.new ≡ self.old) }
        ensures list { self.new.list ≡ self.old.list }
        ensures spare { self.old.spare ≤ self.new.spare }
    {
        // The run that an entry closes, and the entry.
        self.items.reserve(2)?;
        let alloc = *self.items.allocator();
        match make_room(&mut self.room, alloc) {
            Ok(()) => Ok(()),
            Err(fault) => Err(fault),
        }
    }

    /// Adds an entry. It takes no memory.
    pub fn push(&mut self, entry: Entry)
        requires room { 0 < self.old.spare }
        requires few { length self.old.list < usize.MAX }
        ensures list { self.new.list ≡ self.old.list ++ entry ∷ [] }
        ensures spare { self.old.spare ≤ self.new.spare + 1 }
    {
        close(&mut self.items, self.open);
        let held = fill(&mut self.room, entry);
        put(&mut self.items, Item::One(held));
        self.open = no_ticks();
        self.count += 1;
    }

    /// Adds an accepted tick by k, after which the height is `height`. It takes no memory.
    pub fn tick(&mut self, k: u32, height: u32)
        requires room { 0 < self.old.spare }
        requires few { length self.old.list < usize.MAX }
        requires low { k ≤ height }
        ensures list { self.new.list ≡ self.old.list ++ tick_entry k height Reply.Accepted ∷ [] }
        ensures spare { self.old.spare ≤ self.new.spare + 1 }
    {
        self.count += 1;
        match longer(self.open, k, height) {
            Some(run) => self.open = run,
            None => {
                close(&mut self.items, self.open);
                self.open = single(k, height);
            }
        }
    }

    /// Adds ticks, where they go on from the last ones.
    fn join(&mut self, run: Run) -> bool
        requires right { IsRightRun run }
        requires few { length self.old.list + run.count ≤ usize.MAX }
        ensures joined { result ≡ true → self.new.list ≡ self.old.list ++ run_ticks run }
        ensures apart { result ≡ false → self.new ≡ self.old }
    {
        match joined(self.open, run) {
            Some(all) => {
                self.open = all;
                self.count += run.count as usize;
                true
            }
            None => false,
        }
    }

    /// Adds the entries of another history, whose memory it takes over. Want of memory leaves
    /// everything as it was.
    pub fn append(&mut self, more: LedgerHistory) -> Result<(), NoMemory>
        ensures ok { OnOk result (self.new.list ≡ self.old.list ++ more.list) }
        ensures err { OnErr result (self.new ≡ self.old) }
    {
        let LedgerHistory {
            items,
            open,
            count,
            ..
        } = more;
        if count > usize::MAX - self.count {
            return Err(NoMemory);
        }
        if items.is_empty() && self.join(open) {
            return Ok(());
        }
        append_items(&mut self.items, self.open, items)?;
        self.open = open;
        self.count += count;
        Ok(())
    }

    /// How many entries there are.
    pub fn len(&self) -> usize
        ensures { result ≡ length self.now.list }
    {
        self.count
    }

    /// The items, and the ticks after them.
    pub fn parts(&self) -> (&[Item], Run)
        ensures list { self.now.list ≡ expand result.0.now ++ run_ticks result.1 }
        ensures right { AllByRecursion IsRight result.0.now }
        ensures right_run { IsRightRun result.1 }
    {
        (&self.items, self.open)
    }

    /// The items, and the ticks after them, without taking memory.
    pub fn into_parts(self) -> (Vec<Item>, Run)
        ensures list { self.list ≡ expand result.0.items ++ run_ticks result.1 }
        ensures right { AllByRecursion IsRight result.0.items }
        ensures right_run { IsRightRun result.1 }
    {
        (self.items, self.open)
    }

    /// A copy of the entries from k on. What it costs grows with them alone, and it takes no memory
    /// where they are ticks after the last item.
    pub fn copy_tail(&self, k: usize) -> Result<LedgerHistory, NoMemory>
        requires { k ≤ length self.now.list }
        ensures { IfOk result (λ h. h.list ≡ drop k self.now.list) }
    {
        let fresh = self.count - k;
        let after = self.open.count as usize;
        let alloc = *self.items.allocator();
        if fresh <= after {
            return Ok(LedgerHistory {
                items: Vec::new(alloc),
                open: last_run(self.open, fresh),
                count: fresh,
                room: None,
            });
        }
        Ok(LedgerHistory {
            items: copy_last(alloc, &self.items, fresh - after)?,
            open: self.open,
            count: fresh,
            room: None,
        })
    }
}

/// Makes room for an entry, where there is none yet.
fn make_room(room: &mut Option<BoxedEntry>, alloc: Global) -> Result<(), NoMemory>
    ensures ok { OnOk result (is_some room.new ≡ true) }
    ensures none { OnErr result (is_some room.old ≡ false) }
    ensures err { OnErr result (is_some room.new ≡ false) }
{
    if room.is_some() {
        return Ok(());
    }
    let blank = Entry {
        sender: Sender::Clock,
        height: 0,
        what: What::Tick(0),
        reply: Reply::Accepted,
    };
    match BoxedEntry::new(alloc, blank) {
        Ok(held) => {
            *room = Some(held);
            Ok(())
        }
        Err(fault) => Err(fault),
    }
}

/// Takes the room for an entry, with the entry in it.
fn fill(room: &mut Option<BoxedEntry>, entry: Entry) -> BoxedEntry
    requires { is_some room.old ≡ true }
    ensures { result ≡ entry }
{
    match room.take() {
        Some(held) => held.holding(entry),
        None => unreachable!(),
    }
}

/// Puts an item after the others, where there is room.
fn put(items: &mut Vec<Item>, item: Item)
    requires { vec_len items.old < vec_capacity items.old }
    ensures items { items.new.items ≡ items.old.items ++ item ∷ [] }
    ensures len { vec_len items.new ≡ vec_len items.old + 1 }
    ensures capacity { vec_capacity items.old ≤ vec_capacity items.new }
{
    match items.push(item) {
        Ok(()) => {}
        Err(_) => unreachable!(),
    }
}

/// Puts a run after the items, if it has ticks.
fn close(items: &mut Vec<Item>, run: Run)
    requires room { vec_len items.old < vec_capacity items.old }
    requires right { AllByRecursion IsRight items.old.items }
    requires right_run { IsRightRun run }
    ensures list { expand items.new.items ≡ expand items.old.items ++ run_ticks run }
    ensures right { AllByRecursion IsRight items.new.items }
    ensures len { vec_len items.new ≤ vec_len items.old + 1 }
    ensures capacity { vec_capacity items.old ≤ vec_capacity items.new }
{
    if run.count > 0 {
        put(items, Item::Ticks(run));
    }
}

/// Puts a run and further items after the items, all or nothing.
fn append_items(items: &mut Vec<Item>, run: Run, mut more: Vec<Item>) -> Result<(), NoMemory>
    requires right { AllByRecursion IsRight items.old.items }
    requires right_run { IsRightRun run }
    requires right_more { AllByRecursion IsRight more.items }
    ensures list { OnOk result (expand items.new.items ≡ expand items.old.items ++ run_ticks run ++ expand more.items) }
    ensures right { OnOk result (AllByRecursion IsRight items.new.items) }
    ensures err { OnErr result (items.new.items ≡ items.old.items) }
    ensures err_len { OnErr result (vec_len items.new ≡ vec_len items.old) }
    ensures err_capacity { OnErr result (vec_capacity items.new ≡ vec_capacity items.old) }
{
    if more.len() == usize::MAX {
        return Err(NoMemory);
    }
    items.reserve(more.len() + 1)?;
    close(items, run);
    match items.append(&mut more) {
        Ok(()) => {}
        Err(_) => unreachable!(),
    }
    Ok(())
}

/// Where the last entries begin: the ending of an item, and the number of the item after it.
#[derive(Drop)]
struct Begin {
    first: Item,
    next: usize,
}

/// Where the last n entries of the items begin.
fn copied_begin(items: &[Item], n: usize) -> Result<Begin, NoMemory>
    requires some { 0 < n }
    requires within { n ≤ length (expand items.now) }
    requires right { AllByRecursion IsRight items.now }
    ensures next { IfOk result (λ b. b.next ≤ length items.now) }
    ensures right { IfOk result (λ b. IsRight b.first) }
    ensures list { IfOk result (λ b. ledger_entries b.first ++ expand (drop b.next items.now) ≡ drop (length (expand items.now) - n) (expand items.now)) }
{
    let mut next = items.len();
    let mut missing = n;
    loop {
        let item = &items[next - 1];
        let size = all_entries(item);
        if missing <= size {
            let first = ending(item, missing)?;
            return Ok(Begin { first, next });
        }
        missing -= size;
        next -= 1;
    }
}

/// Copies items to the end of a list.
fn append_copies(list: &mut Vec<Item>, items: &[Item]) -> Result<(), NoMemory>
    ensures { OnOk result (list.new.items ≡ list.old.items ++ items.now) }
{
    for item in items {
        list.push(item.copy()?)?;
    }
    Ok(())
}

/// A copy of the last n entries of the items.
fn copy_last(alloc: Global, items: &[Item], n: usize) -> Result<Vec<Item>, NoMemory>
    requires some { 0 < n }
    requires within { n ≤ length (expand items.now) }
    requires right { AllByRecursion IsRight items.now }
    ensures list { IfOk result (λ v. expand v.items ≡ drop (length (expand items.now) - n) (expand items.now)) }
    ensures right { IfOk result (λ v. AllByRecursion IsRight v.items) }
{
    let Begin { first, next } = copied_begin(items, n)?;
    let mut list = Vec::with_capacity(alloc, items.len() - next + 1)?;
    list.push(first)?;
    append_copies(&mut list, &items[next..])?;
    Ok(list)
}
