//! The reader of the ledgers' lines.

ghost use Rattle.std.specs.Prelude.{◌≡◌, IfOk};
ghost use Rattle.swap_digraph.specs.Deal.{IsWellSized};
ghost use Rattle.transcript_book.specs.declared.place.Place.TheVariants.{Ledger, Entries};
ghost use Rattle.transcript_book.specs.Stages.{Reads, entry_read, is_finished, ledger_read, line_read, no_ledgers, with_ledger_if_whole};

use crate::count::read_count;
use crate::number::{WordFault, misspelt};
use crate::place::Place;
use crate::read_hashkeys::{Known, none_known, with_known};
use crate::stated::parse_entry;
use ledger_core::{Book, EntryList};
use std::alloc::Global;
use std::marker::Model;
use std::mem;
use swap_base::{ArcId, Listed, NoMemory};
use swap_job::Job;

/// Reads the lines after the header line of a job's transcript, up to the last one. It keeps the
/// book that they state, and none of their text.
#[derive(Debug, Drop)]
pub struct BookReader {
    job: Job,
    histories: Vec<EntryList>,
    /// The entries of the next ledger, and the height after them.
    entries: EntryList,
    height: u32,
    more: u32,
    place: Place,
    known: Known,
}

impl Model for BookReader {
    ghost use Rattle.transcript_book.specs.Stages.{BookSoFar};

    ghost Value = { BookSoFar };

    ghost use Rattle.transcript_book.specs.Inside.{book_so_far, IsReading};

    ghost view = { book_so_far };

    ghost invariant = { IsReading };
}

impl BookReader {
    /// No line was read yet.
    pub fn new(alloc: Global, job: Job) -> Result<BookReader, NoMemory>
        requires { IsWellSized job.deal }
        ensures { IfOk result (λ r. r ≡ no_ledgers job) }
    {
        let histories = Vec::with_capacity(alloc, job.deal.graph.arcs().len())?;
        let known = none_known(alloc, job.deal.graph.n() as usize)?;
        Ok(BookReader {
            job,
            histories,
            entries: EntryList::empty(alloc),
            height: 0,
            more: 0,
            place: Place::Ledger,
            known,
        })
    }

    /// The job, whose transcript is read.
    pub fn job(&self) -> &Job
        ensures { result.now ≡ self.now.job }
    {
        &self.job
    }

    /// Whether the last line was read.
    pub fn is_finished(&self) -> bool
        ensures { result ≡ is_finished self.now.place }
    {
        match self.place {
            Place::Over => true,
            _ => false,
        }
    }

    /// Keeps the ledger that is read, where none of its entries is to come.
    fn settle(&mut self)
        requires { self.old.place ≡ Entries }
        ensures { self.new ≡ with_ledger_if_whole self.old }
    {
        if self.more == 0 {
            let none = EntryList::empty(*self.histories.allocator());
            let entries = mem::replace(&mut self.entries, none);
            self.histories.push(entries).unwrap();
            self.height = 0;
            self.place = Place::Ledger;
        }
    }

    /// Reads the line of the next ledger, or the last line.
    #[tactic(auto, unfolding(crate::specs::Stages::ledger_read))]
    fn read_ledger(&mut self, line: &[u8]) -> Result<(), WordFault>
        requires { self.old.place ≡ Ledger }
        ensures reads { Reads result self.old self.new (ledger_read self.old line.now) }
        ensures job { self.new.job ≡ self.old.job }
    {
        let arc = self.histories.len();
        if arc < self.job.deal.graph.arcs().len() {
            let alloc = *self.histories.allocator();
            self.more = read_count(arc as ArcId, line)?;
            self.entries = EntryList::empty(alloc);
            self.height = 0;
            self.place = Place::Entries;
            self.settle();
            Ok(())
        } else if line == b"end".as_slice() {
            self.place = Place::Over;
            Ok(())
        } else {
            Err(misspelt())
        }
    }

    /// Reads the line of an entry.
    #[tactic(auto, using(crate::proofs::Heights::read_height), unfolding(crate::specs::Stages::entry_read))]
    fn read_entry(&mut self, line: &[u8]) -> Result<(), WordFault>
        requires { self.old.place ≡ Entries }
        ensures reads { Reads result self.old self.new (entry_read self.old line.now) }
        ensures job { self.new.job ≡ self.old.job }
    {
        let alloc = *self.histories.allocator();
        let arc = self.histories.len() as ArcId;
        let entry = parse_entry(alloc, &self.job.deal, arc, self.height, line)?;
        let height = entry.height;
        self.entries.push(with_known(&mut self.known, entry)?)?;
        self.height = height;
        self.more = self.more.saturating_sub(1);
        self.settle();
        Ok(())
    }

    /// Reads the next line. A line that is bad, or for which memory runs out, changes nothing.
    pub fn push(&mut self, line: &[u8]) -> Result<(), WordFault>
        ensures reads { Reads result self.old self.new (line_read self.old line.now) }
        ensures job { self.new.job ≡ self.old.job }
    {
        match self.place {
            Place::Ledger => self.read_ledger(line),
            Place::Entries => self.read_entry(line),
            Place::Over => Err(misspelt()),
        }
    }

    /// The job and the book that was read, without taking memory.
    pub fn into_book(self) -> (Job, Book)
        ensures job { result.0 ≡ self.job }
        ensures book { result.1.histories ≡ self.book }
    {
        let book = Book {
            histories: Listed::new(self.histories),
        };
        (self.job, book)
    }
}
