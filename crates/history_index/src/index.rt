//! A list of entries with the answers over it.

ghost use Rattle.std.specs.Prelude.{◌≡◌, ◌==◌, ◌||◌, ◌<◌, ◌≤◌, ◌+◌, ◌++◌, ◌∷◌, [], ℕ, length, slice_index, option_map, false, IsTrue, OnOk};
ghost use Rattle.std.specs.Prelude.{OnErr, IsOk, IfOk};
ghost use Rattle.swap_digraph.specs.Deal.{IsWellSized};
ghost use Rattle.escrow_core.specs.declared.terms.Terms.{Terms};
ghost use Rattle.ledger_core.specs.declared.entry.Entry.{Entry};
ghost use Rattle.ledger_core.specs.declared.runs.Item.TheVariants.{One};
ghost use Rattle.ledger_core.specs.History.{opened};
ghost use Rattle.ledger_core.specs.Runs.{run_ticks, IsRightRun};
ghost use Rattle.history_index.specs.Value.{new_index, IsSameArc};
ghost use Rattle.history_index.specs.Numbers.{call_numbers, published_number, IsIndexable};
ghost use Rattle.ledger_core.specs.Facts.{is_call};
ghost use Rattle.history_index.specs.Made.{history_calls, key_opening};
ghost use Rattle.history_index.specs.Kept.{AreCalls};

use crate::answers::Answers;
use crate::caller::Caller;
use crate::made::{Made, Opened, call_count, find_opened, keep};
use crate::steps::Steps;
use escrow_core::{Terms, stated_terms};
use hashkey_path::Hashkey;
use ledger_core::{BoxedEntry, CallKind, Entry, Facts, Item, Published, Run, Settlement};
use std::alloc::Global;
use std::marker::Model;
use std::sync::ledger::Ledger;
use swap_base::{ArcId, GhostList, LockId, NoMemory, PartyId};
use swap_digraph::Deal;

/// The calls of an arc's ledger, with the answers over all its entries, oldest first. Of ticks it
/// keeps their number and their sum.
#[derive(Debug, Drop)]
pub struct Index {
    arc: ArcId,
    terms: Terms,
    from: Caller,
    to: Caller,
    /// What was pushed, which only clauses read.
    past: GhostList<Item>,
    count: u32,
    answers: Answers,
    made: Vec<Made>,
    /// How many further calls have room.
    room: usize,
}

impl Model for Index {
    ghost use Rattle.history_index.specs.Value.{IndexState};

    ghost Value = { IndexState };

    ghost use Rattle.history_index.specs.Inside.{build_index, IsKeptIndex};

    ghost view = { build_index };

    ghost invariant = { IsKeptIndex };
}

impl Index {
    /// No entries yet, for that arc of the deal. It takes no memory.
    pub fn new(alloc: Global, deal: &Deal, arc: ArcId) -> Result<Index, NoMemory>
        requires sized { IsWellSized deal.now }
        requires arc { arc < length deal.now.graph.arcs }
        ensures { IfOk result (λ i. i ≡ new_index deal.now arc) }
    {
        let ends = deal.graph.arcs()[arc as usize];
        Ok(Index {
            arc,
            terms: stated_terms(deal, arc),
            from: Caller::new(alloc, ends.from),
            to: Caller::new(alloc, ends.to),
            past: GhostList::new(),
            count: 0,
            answers: Answers::new(),
            made: Vec::new(alloc),
            room: 0,
        })
    }

    /// Makes room for `more` further calls. Want of memory leaves everything as it was.
    pub fn reserve(&mut self, more: usize) -> Result<(), NoMemory>
        ensures ok { OnOk result (more ≤ self.new.spare) }
        ensures room { more ≤ self.old.spare → IsOk result }
        ensures err { OnErr result (self.new ≡ self.old) }
        ensures arc { IsSameArc self.old self.new }
        ensures entries { self.new.entries ≡ self.old.entries }
        ensures spare { self.old.spare ≤ self.new.spare }
    {
        if more <= self.room {
            return Ok(());
        }
        self.made.reserve(more)?;
        self.from.numbers.reserve(more)?;
        self.to.numbers.reserve(more)?;
        self.room = more;
        Ok(())
    }

    /// Adds an entry, in one step. It takes no memory, and keeps the entry where it is a call.
    pub fn push<L: Ledger>(&mut self, entry: BoxedEntry, steps: &mut Steps<L>)
        // Every legal history of the arc is indexable, and so is each prefix of one.
        requires indexable { IsIndexable self.old.from self.old.to (self.old.entries ++ entry ∷ []) }
        requires room { IsTrue (is_call entry.what) → 0 < self.old.spare }
        ensures entries { self.new.entries ≡ self.old.entries ++ entry ∷ [] }
        ensures step { steps.new ≡ steps.old + 1 }
        ensures arc { IsSameArc self.old self.new }
        ensures spare { self.old.spare ≤ self.new.spare + 1 }
        ensures tick { is_call entry.what ≡ false → self.old.spare ≤ self.new.spare }
    {
        let (past, entry) = with_entry(&self.past, entry);
        self.past = past;
        let number = self.count;
        self.answers.add(&self.terms, number, &entry);
        self.from.add(number, &entry);
        self.to.add(number, &entry);
        self.count += 1;
        self.room -= call_count(&entry);
        keep(&mut self.made, number, entry);
        steps.count();
    }

    /// Adds ticks, in one step each. It takes no memory, and as long for many as for one.
    pub fn push_ticks<L: Ledger>(&mut self, run: Run, steps: &mut Steps<L>)
        requires right { IsRightRun run }
        requires indexable { IsIndexable self.old.from self.old.to (self.old.entries ++ run_ticks run) }
        ensures entries { self.new.entries ≡ self.old.entries ++ run_ticks run }
        ensures steps { steps.new ≡ steps.old + run.count }
        ensures arc { IsSameArc self.old self.new }
        ensures spare { self.old.spare ≤ self.new.spare }
    {
        self.answers.height += run.by * run.count;
        self.count += run.count;
        self.past = self.past.and(&Item::Ticks(run));
        steps.count_many(run.count);
    }

    /// The calls, oldest first.
    pub fn made(&self) -> &[Made]
        ensures value { result.now ≡ history_calls self.now.entries }
        ensures few { length result.now ≤ 64 }
    {
        &self.made
    }

    /// The number of the entry of the accepted publish.
    pub fn published_number(&self) -> Option<u32>
        ensures { result ≡ published_number self.now.entries }
    {
        self.answers.published_number
    }

    /// The accepted unlock of the lock.
    pub fn opened(&self, lock: LockId) -> Option<Opened<'_>>
        requires { lock < length self.now.terms.locks }
        ensures { option_map key_opening result ≡ opened self.now.entries lock }
    {
        if self.answers.unlocked[lock as usize].is_none() {
            return None;
        }
        find_opened(&self.made, lock)
    }

    /// The numbers of the entries that one of the arc's two parties sent, ascending.
    pub fn calls(&self, by: PartyId) -> &[u32]
        requires { IsTrue ((by == self.now.from) || (by == self.now.to)) }
        ensures value { result.now ≡ call_numbers by self.now.entries }
        ensures few { length result.now ≤ 32 }
        ensures in_range { (k : ℕ) → k < length result.now → slice_index result.now k < length self.now.entries }
    {
        &self.caller(by).numbers
    }

    fn caller(&self, by: PartyId) -> &Caller
        requires { IsTrue ((by == self.now.from) || (by == self.now.to)) }
        ensures party { result.now.party ≡ by }
        ensures calls { AreCalls by self.now.entries result.now.numbers.items result.now.kinds }
        ensures few { length result.now.numbers.items ≤ 32 }
    {
        if by == self.from.party {
            &self.from
        } else {
            &self.to
        }
    }

    pub fn arc(&self) -> ArcId
        ensures { result ≡ self.now.arc }
    {
        self.arc
    }

    /// The correct terms of the arc.
    pub fn terms(&self) -> &Terms
        ensures { result.now ≡ self.now.terms }
    {
        &self.terms
    }

    /// How many entries there are.
    pub fn count(&self) -> u32
        ensures { result ≡ length self.now.entries }
    {
        self.count
    }
}

/// What was pushed with one more entry, and that entry again.
fn with_entry(past: &GhostList<Item>, entry: BoxedEntry) -> (GhostList<Item>, Entry)
    ensures past { result.0.items ≡ past.now.items ++ One entry ∷ [] }
    ensures entry { result.1 ≡ entry }
{
    let item = Item::One(entry);
    let past = past.and(&item);
    match item {
        Item::One(entry) => (past, entry.into_entry()),
        Item::Ticks(_) => unreachable!(),
    }
}

impl Facts for Index {
    ghost terms = { λ i. i.terms };

    ghost entries = { λ i. i.entries };

    fn height(&self) -> u32 {
        self.answers.height
    }

    fn published(&self) -> Option<Published> {
        self.answers.published
    }

    fn unlocked(&self, lock: LockId) -> Option<u32> {
        self.answers.unlocked[lock as usize]
    }

    fn settled(&self) -> Option<Settlement> {
        self.answers.settled
    }

    fn called(&self, by: PartyId, kind: CallKind) -> bool {
        if by != self.from.party && by != self.to.party {
            return false;
        }
        self.caller(by).kinds.has(kind)
    }

    fn opened_key(&self, lock: LockId) -> Option<&Hashkey> {
        match self.opened(lock) {
            Some(found) => Some(found.key),
            None => None,
        }
    }
}
