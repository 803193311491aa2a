//! A ledger that is read: its entries, each replayed.

ghost use Rattle.std.specs.Prelude.{◌≡◌, ◌<◌, ◌++◌, ◌+◌, ◌-◌, Ok, Err, Some, IfOk, OnOk, false, length, true, ℕ};
ghost use Rattle.swap_base.specs.Fault.{Gives};
ghost use Rattle.swap_digraph.specs.Deal.{IsWellSized};
ghost use Rattle.ledger_core.specs.History.{height, IsLegal};
ghost use Rattle.ledger_core.specs.WellFormed.{IsFormedEntry};
ghost use Rattle.swap_rules.specs.Party.{pick_call};
ghost use Rattle.told_ledgers.specs.Inside.{IsLegalHeard};
ghost use Rattle.told_ledgers.specs.Ledger.{is_accepted_line, is_correct_publish, is_first_accepted, is_passed, is_refused, line_heard, kind_line_read, nothing_read, own_unlock};
ghost use Rattle.told_ledgers.specs.Ledger.{publishes_terms, stated_entry, ticked, whole_told_ledger, with_refused, with_stated, with_tick, with_tick_or_entry};
ghost use Rattle.told_ledgers.specs.declared.one_ledger.Heard.TheVariants.{More};

use crate::kind::Kind;
use crate::tick::line_tick;
use crate::told_ledger::{BadEntry, OwnUnlock, Replies, ToldLedger};
use escrow_core::{Reply, stated_terms};
use ledger_core::{Call, Entry, EntryList, Ledger, LedgerHistory, Sender, What};
use std::alloc::Global;
use std::marker::Model;
use swap_auditor::{Found, replay_entry};
use swap_base::{ArcId, Fault, Listed, NoMemory, PartyId, Shared, TryCopy};
use swap_digraph::Deal;
use transcript_book::{Known, Misspelling, WordFault, parse_entry, with_known};

/// A ledger that is read, as far as its lines were.
#[derive(Drop)]
pub struct OneLedger {
    me: PartyId,
    ledger: Ledger,
    past: LedgerHistory,
    /// By how many heights the ledger ticked behind these entries.
    waiting: u32,
    unlocks: Listed<OwnUnlock>,
    is_closed: bool,
}

impl Model for OneLedger {
    ghost use Rattle.told_ledgers.specs.SoFar.{LedgerSoFar};

    ghost Value = { LedgerSoFar };

    ghost use Rattle.told_ledgers.specs.Inside.{ledger_so_far, IsReplayedLedger};

    ghost view = { ledger_so_far };

    ghost invariant = { IsReplayedLedger };
}

/// What a line makes of a ledger.
#[derive(Drop)]
pub enum Heard {
    /// Further lines are read.
    More(OneLedger),
    /// It was the bad entry.
    Bad(ToldLedger),
}

/// Whether a line is passed over unread.
fn is_passed(is_closed: bool, kind: Kind) -> bool
    ensures { result ≡ is_passed is_closed kind }
{
    match kind {
        Kind::Read => false,
        Kind::Refused => false,
        Kind::Noise => true,
        Kind::Publish => is_closed,
        Kind::Accepted => is_closed,
    }
}

/// Whether the line is that of a call of the party that was refused, and that it may make again.
fn is_refused(kind: Kind) -> bool
    ensures { result ≡ is_refused kind }
{
    matches!(kind, Kind::Refused)
}

/// Whether the line is that of an accepted call of somebody else, no transfer.
fn is_accepted_line(kind: Kind) -> bool
    ensures { result ≡ is_accepted_line kind }
{
    matches!(kind, Kind::Publish | Kind::Accepted)
}

/// Whether the call publishes the correct terms of the arc.
fn publishes_terms(deal: &Deal, arc: ArcId, call: &Call) -> bool
    requires sized { IsWellSized deal.now }
    requires arc { arc < length deal.now.graph.arcs }
    ensures { result ≡ publishes_terms deal.now arc call.now }
{
    match call {
        Call::Publish(terms) => terms.same(&stated_terms(deal, arc)),
        _ => false,
    }
}

/// Whether the entry is the arc's publish, with the correct terms.
fn is_correct_publish(deal: &Deal, arc: ArcId, entry: &Entry) -> bool
    requires sized { IsWellSized deal.now }
    requires arc { arc < length deal.now.graph.arcs }
    ensures { result ≡ is_correct_publish deal.now arc entry.now.sender entry.now.what }
{
    let ends = deal.graph.arcs()[arc as usize];
    match (entry.sender, &entry.what) {
        (Sender::Party(p), What::Call(call)) => {
            p == ends.from && publishes_terms(deal, arc, call)
        }
        _ => false,
    }
}

/// Adds the hashkey that the call presents, if it is an unlock.
fn push_key(unlocks: &mut Listed<OwnUnlock>, number: u32, call: &Call) -> Result<(), NoMemory>
    ensures { OnOk result (unlocks.new ≡ unlocks.old ++ own_unlock number (Some call.now)) }
{
    match call {
        Call::Unlock(key) => {
            let key = key.copy()?;
            unlocks.push(OwnUnlock { entry: number, key })?;
            Ok(())
        }
        _ => Ok(()),
    }
}

/// Adds the hashkey that the entry of the line of that number presents, if it is the party's
/// unlock.
fn push_own(
    unlocks: &mut Listed<OwnUnlock>,
    me: PartyId,
    number: u32,
    entry: &Entry,
) -> Result<(), NoMemory>
    ensures { OnOk result (unlocks.new ≡ unlocks.old ++ own_unlock number (pick_call me entry.now)) }
{
    match (entry.sender, &entry.what) {
        (Sender::Party(p), What::Call(call)) => {
            if p == me {
                push_key(unlocks, number, call)
            } else {
                Ok(())
            }
        }
        _ => Ok(()),
    }
}

/// Makes room for a further entry.
fn make_room(past: &mut LedgerHistory) -> Result<(), NoMemory>
    ensures room { OnOk result (0 < past.new.spare) }
    ensures few { OnOk result (length past.new.list < usize.MAX) }
    ensures list { past.new.list ≡ past.old.list }
{
    if past.len() == usize::MAX {
        return Err(NoMemory);
    }
    past.reserve()
}

/// The most height of a ledger.
const MOST_HEIGHT: u32 = 1_000_000;

impl OneLedger {
    /// No line was read yet.
    pub(crate) fn new(
        alloc: Global,
        deal: &Shared<Deal>,
        me: PartyId,
        arc: ArcId,
    ) -> Result<OneLedger, NoMemory>
        requires sized { IsWellSized deal.now }
        requires arc { arc < length deal.now.graph.arcs }
        ensures { IfOk result (λ l. l ≡ nothing_read deal.now me arc) }
    {
        Ok(OneLedger {
            me,
            ledger: Ledger::new(alloc, deal, arc)?,
            past: LedgerHistory::new(alloc),
            waiting: 0,
            unlocks: Listed::empty(alloc),
            is_closed: false,
        })
    }

    pub(crate) fn arc(&self) -> ArcId
        ensures { result ≡ self.now.arc }
    {
        self.ledger.arc()
    }

    /// Takes the ticks that were read as one entry.
    fn settle_ticks(&mut self) -> Result<(), NoMemory>
        ensures { OnOk result (self.new ≡ ticked self.old) }
    {
        if self.waiting == 0 {
            return Ok(());
        }
        make_room(&mut self.past)?;
        self.ledger.reserve()?;
        let by = self.waiting;
        let height = self.ledger.height() + by;
        if self.ledger.tick(by) != Reply::ClockFull {
            self.past.tick(by, height);
        }
        self.waiting = 0;
        Ok(())
    }

    /// What was told, with the bad entry, if there is one.
    fn into_told_with(mut self, bad: Option<BadEntry>) -> Result<ToldLedger, NoMemory>
        ensures exact { IfOk result (λ t. t ≡ record (whole_told_ledger self) { bad = bad }) }
        ensures legal { IfOk result (λ t. IsLegal self.deal self.arc t.history) }
    {
        self.settle_ticks()?;
        Ok(ToldLedger {
            history: EntryList::from_history(self.past),
            bad,
            unlocks: self.unlocks,
            tip: None,
            margin: None,
        })
    }

    /// All that was told, where no line was bad.
    pub(crate) fn into_told(self) -> Result<ToldLedger, NoMemory>
        ensures exact { IfOk result (λ t. t ≡ whole_told_ledger self) }
        ensures legal { IfOk result (λ t. IsLegal self.deal self.arc t.history) }
    {
        self.into_told_with(None)
    }

    /// An odd contract began.
    fn into_closed(mut self) -> OneLedger
        ensures { result ≡ record self { is_closed = true } }
    {
        self.is_closed = true;
        self
    }

    /// The line of that number can't be read.
    fn into_bad(self, number: u32) -> Result<Heard, NoMemory>
        ensures exact { IfOk result (λ h. h ≡ with_stated number self (Err Misspelling.Misspelt)) }
        ensures legal { IfOk result (IsLegalHeard self.deal self.arc) }
    {
        let bad = BadEntry {
            entry: number,
            replies: None,
        };
        Ok(Heard::Bad(self.into_told_with(Some(bad))?))
    }

    /// The entry that a line states. A hashkey is held once, whichever ledgers it is told of.
    fn stated_entry(&self, known: &mut Known, line: &[u8]) -> Result<Entry, WordFault>
        ensures exact { Gives (λ e. e) result (stated_entry self.now line.now) }
        ensures formed { IfOk result (λ e. IsFormedEntry self.now.deal self.now.arc self.now.past e) }
    {
        let deal = self.ledger.deal();
        let arc = self.ledger.arc();
        let entry = parse_entry(*known.allocator(), deal, arc, self.ledger.height(), line)?;
        Ok(with_known(known, entry)?)
    }

    /// Whether nothing is published on an arc that enters the party, and a line of that kind tells
    /// the first accepted call of a contract there.
    fn is_first_accepted(&self, kind: Kind) -> bool
        ensures { result ≡ is_first_accepted self.now kind }
    {
        let arc = self.ledger.arc();
        let ends = self.ledger.deal().graph.arcs()[arc as usize];
        is_accepted_line(kind) && self.me == ends.to && !self.ledger.is_published()
    }

    /// Whether the entry is the arc's publish, with the correct terms.
    fn is_published(&self, entry: &Entry) -> bool
        ensures { result ≡ is_correct_publish self.now.deal self.now.arc entry.now.sender entry.now.what }
    {
        is_correct_publish(self.ledger.deal(), self.ledger.arc(), entry)
    }

    /// Replays the entry of the line of that number.
    fn into_replayed(self, found: &mut Found, number: u32, entry: Entry) -> Result<Heard, NoMemory>
        requires found { found.old ≡ self.deal }
        requires settled { self.waiting ≡ 0 }
        requires formed { IsFormedEntry self.deal self.arc self.past entry }
        ensures exact { IfOk result (λ h. h ≡ with_stated number self (Ok entry)) }
        ensures legal { IfOk result (IsLegalHeard self.deal self.arc) }
        ensures found { found.new ≡ found.old }
    {
        let OneLedger {
            me,
            mut ledger,
            mut past,
            waiting,
            mut unlocks,
            is_closed,
        } = self;
        match replay_entry(&mut ledger, found, &entry) {
            Ok(()) => {
                push_own(&mut unlocks, me, number, &entry)?;
                make_room(&mut past)?;
                past.push(entry);
                Ok(Heard::More(OneLedger {
                    me,
                    ledger,
                    past,
                    waiting,
                    unlocks,
                    is_closed,
                }))
            }
            Err(Fault::Refused(bad)) => Ok(Heard::Bad(ToldLedger {
                history: EntryList::from_history(past),
                bad: Some(BadEntry {
                    entry: number,
                    replies: Some(Replies {
                        stated: bad.stated,
                        replayed: bad.replayed,
                    }),
                }),
                unlocks,
                tip: None,
                margin: None,
            })),
            Err(Fault::NoMemory) => Err(NoMemory),
        }
    }

    /// Reads the entry of the line of that number and kind.
    #[tactic(auto, unfolding(crate::specs::Ledger::kind_line_read))]
    fn into_entered(
        self,
        found: &mut Found,
        kind: Kind,
        number: u32,
        entry: Entry,
    ) -> Result<Heard, NoMemory>
        requires found { found.old ≡ self.deal }
        requires settled { self.waiting ≡ 0 }
        requires formed { IsFormedEntry self.deal self.arc self.past entry }
        ensures exact { IfOk result (λ h. h ≡ kind_line_read number self kind (Ok entry)) }
        ensures legal { IfOk result (IsLegalHeard self.deal self.arc) }
        ensures found { found.new ≡ found.old }
    {
        if self.is_first_accepted(kind) && !self.is_published(&entry) {
            Ok(Heard::More(self.into_closed()))
        } else {
            self.into_replayed(found, number, entry)
        }
    }

    /// The line of that number and kind states no entry.
    #[tactic(auto, unfolding(crate::specs::Ledger::kind_line_read))]
    fn into_unread(self, kind: Kind, number: u32) -> Result<Heard, NoMemory>
        ensures exact { IfOk result (λ h. h ≡ kind_line_read number self kind (Err Misspelling.Misspelt)) }
        ensures legal { IfOk result (IsLegalHeard self.deal self.arc) }
    {
        if self.is_first_accepted(kind) {
            Ok(Heard::More(self.into_closed()))
        } else {
            self.into_bad(number)
        }
    }

    /// The heights up to the most height.
    fn room(&self) -> u32
        ensures { result ≡ 1000000 - height self.now.past }
    {
        MOST_HEIGHT - self.ledger.height()
    }

    /// Takes a tick by k heights in place, where the ledger doesn't pass the most height.
    #[tactic(auto, using(crate::proofs::Ticks::tick_fits))]
    fn take_tick(&mut self, k: u64) -> bool
        ensures taken { result ≡ true → (n : ℕ) → with_tick n self.old k ≡ More self.new }
        ensures left { result ≡ false → (self.new ≡ self.old) × (1000000 < height self.old.past + self.old.waiting + k) }
        ensures kept { self.new ≡ record self.old { waiting = self.new.waiting } }
    {
        if k > (self.room() - self.waiting) as u64 {
            return false;
        }
        self.waiting += k as u32;
        true
    }

    /// Takes the line of that kind in place, where it is passed over or is a tick. Whatever else it
    /// is, nothing changes.
    pub(crate) fn take(&mut self, kind: Kind, line: &[u8]) -> Result<bool, NoMemory>
        ensures taken { IfOk result (λ t. t ≡ true → (n : ℕ) → line_heard n self.old kind line.now ≡ More self.new) }
        ensures left { IfOk result (λ t. t ≡ false → self.new ≡ self.old) }
        ensures kept { self.new ≡ record self.old { waiting = self.new.waiting } }
    {
        if is_passed(self.is_closed, kind) {
            return Ok(true);
        }
        if is_refused(kind) {
            return Ok(false);
        }
        match line_tick(line) {
            Ok(k) => Ok(self.take_tick(k)),
            Err(Fault::Refused(_)) => Ok(false),
            Err(Fault::NoMemory) => Err(NoMemory),
        }
    }

    /// Reads a refused call of the party, in the line of that number.
    fn into_refused(
        mut self,
        known: &mut Known,
        number: u32,
        line: &[u8],
    ) -> Result<Heard, NoMemory>
        ensures exact { IfOk result (λ h. h ≡ with_refused number self (stated_entry self line.now)) }
        ensures legal { IfOk result (IsLegalHeard self.deal self.arc) }
    {
        match self.stated_entry(known, line) {
            Ok(entry) => push_own(&mut self.unlocks, self.me, number, &entry)?,
            Err(Fault::Refused(_)) => {}
            Err(Fault::NoMemory) => return Err(NoMemory),
        }
        Ok(Heard::More(self))
    }

    /// Ticks by k heights, in the line of that number.
    #[tactic(auto, using(crate::proofs::Ticks::tick_passes))]
    fn into_ticked(mut self, number: u32, k: u64) -> Result<Heard, NoMemory>
        ensures exact { IfOk result (λ h. h ≡ with_tick number self k) }
        ensures legal { IfOk result (IsLegalHeard self.deal self.arc) }
    {
        if self.take_tick(k) {
            return Ok(Heard::More(self));
        }
        self.waiting = self.room();
        let bad = BadEntry {
            entry: number,
            replies: Some(Replies {
                stated: Reply::Accepted,
                replayed: Reply::ClockFull,
            }),
        };
        Ok(Heard::Bad(self.into_told_with(Some(bad))?))
    }

    /// Reads the entry of the line of that number and kind, which is no tick.
    fn into_called(
        mut self,
        found: &mut Found,
        known: &mut Known,
        kind: Kind,
        number: u32,
        line: &[u8],
    ) -> Result<Heard, NoMemory>
        requires found { found.old ≡ self.deal }
        ensures exact { IfOk result (λ h. h ≡ kind_line_read number (ticked self) kind (stated_entry (ticked self) line.now)) }
        ensures legal { IfOk result (IsLegalHeard self.deal self.arc) }
        ensures found { found.new ≡ found.old }
    {
        self.settle_ticks()?;
        match self.stated_entry(known, line) {
            Ok(entry) => self.into_entered(found, kind, number, entry),
            Err(Fault::Refused(Misspelling::Misspelt)) => self.into_unread(kind, number),
            Err(Fault::NoMemory) => Err(NoMemory),
        }
    }

    /// Reads the line of that number and kind.
    pub(crate) fn into_heard(
        self,
        found: &mut Found,
        known: &mut Known,
        kind: Kind,
        number: u32,
        line: &[u8],
    ) -> Result<Heard, NoMemory>
        requires found { found.old ≡ self.deal }
        ensures exact { IfOk result (λ h. h ≡ line_heard number self kind line.now) }
        ensures legal { IfOk result (IsLegalHeard self.deal self.arc) }
        ensures found { found.new ≡ found.old }
    {
        if is_passed(self.is_closed, kind) {
            return Ok(Heard::More(self));
        }
        if is_refused(kind) {
            return self.into_refused(known, number, line);
        }
        match line_tick(line) {
            Ok(k) => self.into_ticked(number, k),
            Err(Fault::Refused(_)) => self.into_called(found, known, kind, number, line),
            Err(Fault::NoMemory) => Err(NoMemory),
        }
    }
}
