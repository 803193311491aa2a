//! The reader of the ledgers' lines.

ghost use Rattle.std.specs.Prelude.{◌≡◌, ◌<◌, IfOk, OnOk, decimal, false, length, replicate, slice_set, true};
ghost use Rattle.swap_base.specs.Fault.{Gives};
ghost use Rattle.swap_digraph.specs.Deal.{IsWellSized};
ghost use Rattle.ledger_core.specs.Book.{IsLegalBook};
ghost use Rattle.ledger_core.specs.History.{IsLegal};
ghost use Rattle.told_ledgers.specs.Inside.{IsHeardLedgerForParty, IsLegalHeard, IsLedgerForParty, HasTakenLine, kind_told};
ghost use Rattle.told_ledgers.specs.SoFar.{LedgerSoFar};
ghost use Rattle.told_ledgers.specs.declared.stage.Stage.TheVariants.{Reading};
ghost use Rattle.told_ledgers.specs.Ledger.{untold};
ghost use Rattle.told_ledgers.specs.Telling.{all_told, begun_at_heading, chain_told, frame_told, with_heard, ledger_told, line_told, nothing_told, one_less, passing, reading_ledger, told_book};

use crate::chain_line::{chain_line_said, is_chain_line, note_chain};
use crate::heading::{Heading, heading_said};
use crate::kind::{Kind, line_kind};
use crate::one_ledger::{Heard, OneLedger};
use crate::stage::Stage;
use crate::told_ledger::ToldLedger;
use command_input::{OfferFault, Reason};
use ledger_core::{EntryList, is_adjacent};
use std::alloc::Global;
use std::marker::Model;
use std::mem;
use swap_auditor::Found;
use swap_base::{ArcId, ByteText, Fault, Listed, NoMemory, PartyId, Piece, Shared, TryCopy, put};
use swap_digraph::Deal;
use transcript_book::{Known, WordFault, misspelt, none_known};

/// Reads the lines of ledgers, up to the last line. It keeps what they tell, and none of their
/// text.
#[derive(Drop)]
pub struct LedgersReader {
    alloc: Global,
    deal: Shared<Deal>,
    me: PartyId,
    /// The party's number as it is written.
    own: ByteText,
    found: Found,
    known: Known,
    ledgers: Vec<ToldLedger>,
    least: u8,
    count: u32,
    more: u32,
    stage: Stage,
}

impl Model for LedgersReader {
    ghost use Rattle.told_ledgers.specs.Telling.{Telling};

    ghost Value = { Telling };

    ghost use Rattle.told_ledgers.specs.Inside.{inside_telling, IsTelling};

    ghost view = { inside_telling };

    ghost invariant = { IsTelling };
}

/// A number as it is written.
fn written(alloc: Global, number: u8) -> Result<ByteText, NoMemory>
    ensures { IfOk result (λ t. t ≡ decimal number) }
{
    let mut out = Vec::new(alloc);
    put(&mut out, &[Piece::Number(number as u64)])?;
    Ok(ByteText::new(out))
}

/// Nothing is told of each of the arcs.
fn none_told(alloc: Global, arcs: usize) -> Result<Vec<ToldLedger>, NoMemory>
    ensures { IfOk result (λ v. v.items ≡ replicate arcs untold) }
{
    let mut ledgers = Vec::new(alloc);
    'arcs: for _arc in 0..arcs {
        ledgers.push(ToldLedger {
            history: EntryList::empty(alloc),
            bad: None,
            unlocks: Listed::empty(alloc),
            tip: None,
            margin: None,
        })?;
    }
    Ok(ledgers)
}

impl LedgersReader {
    /// No line was read yet.
    pub(crate) fn new(
        alloc: Global,
        deal: &Shared<Deal>,
        me: PartyId,
    ) -> Result<LedgersReader, NoMemory>
        requires { IsWellSized deal.now }
        ensures { IfOk result (λ r. r ≡ nothing_told deal.now me) }
    {
        Ok(LedgersReader {
            alloc,
            deal: deal.copy()?,
            me,
            own: written(alloc, me)?,
            found: Found::new(alloc, deal)?,
            known: none_known(alloc, deal.graph.n() as usize)?,
            ledgers: none_told(alloc, deal.graph.arcs().len())?,
            least: 0,
            count: 0,
            more: 0,
            stage: Stage::Between,
        })
    }

    /// Keeps what is told of the ledger of an arc.
    fn keep(&mut self, arc: ArcId, told: ToldLedger)
        requires arc { arc < length self.old.deal.graph.arcs }
        requires legal { IsLegal self.old.deal arc told.history }
        ensures { self.new ≡ record self.old { ledgers = slice_set self.old.ledgers arc told } }
    {
        self.ledgers[arc as usize] = told;
    }

    /// Goes on with further lines of a ledger, if any is to come.
    fn continue_ledger(&mut self, one: OneLedger) -> Result<(), NoMemory>
        requires { IsLedgerForParty self.old.deal self.old.me one }
        ensures { OnOk result (self.new ≡ reading_ledger one self.old) }
    {
        if self.more == 0 {
            let arc = one.arc();
            self.keep(arc, one.into_told()?);
            self.stage = Stage::Between;
        } else {
            self.stage = Stage::Reading(one);
        }
        Ok(())
    }

    /// Passes over further lines of a ledger, if any is to come.
    fn pass_more(&mut self)
        ensures { self.new ≡ passing self.old }
    {
        if self.more == 0 {
            self.stage = Stage::Between;
        } else {
            self.stage = Stage::Passing;
        }
    }

    /// Begins the ledger of an arc.
    fn begin(&mut self, heading: Heading) -> Result<(), NoMemory>
        requires arc { heading.arc < length self.old.deal.graph.arcs }
        requires few { heading.arc < 128 }
        ensures { OnOk result (self.new ≡ begun_at_heading heading self.old) }
    {
        self.least = heading.arc + 1;
        self.count = heading.count;
        self.more = heading.count;
        if is_adjacent(&self.deal, heading.arc, self.me) {
            let one = OneLedger::new(self.alloc, &self.deal, self.me, heading.arc)?;
            self.continue_ledger(one)
        } else {
            self.pass_more();
            Ok(())
        }
    }

    /// Notes what a line behind the ledgers tells. Behind it no ledger stands.
    #[tactic(auto, unfolding(crate::specs::Telling::chain_told))]
    fn read_chain_line(&mut self, line: &[u8]) -> Result<(), WordFault>
        ensures { Gives (λ _. self.new) result (chain_told self.old line.now) }
    {
        let arcs = self.deal.graph.arcs().len();
        let told = chain_line_said(arcs as u64, line)?;
        note_chain(&mut self.ledgers[told.arc as usize], told)?;
        self.least = arcs as u8;
        Ok(())
    }

    /// Reads the line between two ledgers or behind them, or the last line.
    #[tactic(auto, unfolding(crate::specs::Telling::frame_told))]
    fn read_frame(&mut self, line: &[u8]) -> Result<(), WordFault>
        ensures { Gives (λ _. self.new) result (frame_told self.old line.now) }
    {
        if line == b"end".as_slice() {
            self.stage = Stage::Over;
            return Ok(());
        }
        if is_chain_line(line) {
            return self.read_chain_line(line);
        }
        let arcs = self.deal.graph.arcs().len() as u64;
        let heading = heading_said(self.least as u64, arcs, line)?;
        self.begin(heading)?;
        Ok(())
    }

    /// Goes on by what a line of a ledger made of it.
    fn apply_heard(&mut self, arc: ArcId, heard: Heard) -> Result<(), NoMemory>
        requires arc { arc < length self.old.deal.graph.arcs }
        requires of { IsHeardLedgerForParty self.old.deal self.old.me heard }
        requires legal { IsLegalHeard self.old.deal arc heard }
        ensures { OnOk result (self.new ≡ with_heard arc heard self.old) }
    {
        match heard {
            Heard::More(one) => self.continue_ledger(one),
            Heard::Bad(told) => {
                self.keep(arc, told);
                self.pass_more();
                Ok(())
            }
        }
    }

    /// Goes on behind a line that the ledger at hand took.
    fn finish_line(&mut self) -> Result<(), NoMemory>
        ensures { OnOk result ((l : LedgerSoFar) → self.old.stage ≡ Reading l → self.new ≡ reading_ledger l (one_less self.old)) }
    {
        self.more = self.more.saturating_sub(1);
        if self.more == 0 {
            if let Stage::Reading(one) = mem::replace(&mut self.stage, Stage::Between) {
                return self.continue_ledger(one);
            }
        }
        Ok(())
    }

    /// Has the ledger at hand take a line of that kind in place, where it can.
    fn take(&mut self, kind: Kind, line: &[u8]) -> Result<bool, NoMemory>
        ensures taken { IfOk result (λ t. t ≡ true → (l : LedgerSoFar) → self.old.stage ≡ Reading l → HasTakenLine kind line.now l self.old self.new) }
        ensures left { IfOk result (λ t. t ≡ false → self.new ≡ self.old) }
    {
        match &mut self.stage {
            Stage::Reading(one) => one.take(kind, line),
            _ => Ok(false),
        }
    }

    /// Reads a line of that kind, which the ledger at hand can't take in place.
    fn read_moved(&mut self, kind: Kind, line: &[u8]) -> Result<(), NoMemory>
        ensures { OnOk result ((l : LedgerSoFar) → self.old.stage ≡ Reading l → self.new ≡ kind_told l self.old kind line.now) }
    {
        if let Stage::Reading(one) = mem::replace(&mut self.stage, Stage::Passing) {
            let arc = one.arc();
            let number = self.count.saturating_sub(self.more);
            let heard = one.into_heard(&mut self.found, &mut self.known, kind, number, line)?;
            self.more = self.more.saturating_sub(1);
            self.apply_heard(arc, heard)?;
        }
        Ok(())
    }

    /// Reads a line of the ledger at hand.
    fn read_entry(&mut self, line: &[u8]) -> Result<(), NoMemory>
        ensures { OnOk result ((l : LedgerSoFar) → self.old.stage ≡ Reading l → self.new ≡ ledger_told l self.old line.now) }
    {
        let kind = line_kind(self.own.as_slice(), line);
        if self.take(kind, line)? {
            self.finish_line()
        } else {
            self.read_moved(kind, line)
        }
    }

    /// Passes over a line of a ledger.
    fn pass_entry(&mut self)
        ensures { self.new ≡ passing (one_less self.old) }
    {
        self.more = self.more.saturating_sub(1);
        self.pass_more();
    }

    /// Reads the next line. After an answer that isn't Ok nothing is promised of what was read.
    pub(crate) fn push(&mut self, line: &[u8]) -> Result<(), WordFault>
        ensures { Gives (λ _. self.new) result (line_told self.old line.now) }
    {
        match self.stage {
            Stage::Between => self.read_frame(line),
            Stage::Passing => {
                self.pass_entry();
                Ok(())
            }
            Stage::Reading(_) => {
                self.read_entry(line)?;
                Ok(())
            }
            Stage::Over => Err(misspelt()),
        }
    }

    /// What is told of each arc, where the last line was read.
    pub(crate) fn finish(self) -> Result<Listed<ToldLedger>, OfferFault>
        ensures exact { Gives (λ t. t) result (all_told self.stage self.ledgers) }
        ensures one_each { IfOk result (λ t. length t ≡ length self.deal.graph.arcs) }
        ensures legal { IfOk result (λ t. IsLegalBook self.deal (told_book t)) }
    {
        match self.stage {
            Stage::Over => Ok(Listed::new(self.ledgers)),
            _ => Err(Fault::Refused(Reason::CutShort)),
        }
    }
}
