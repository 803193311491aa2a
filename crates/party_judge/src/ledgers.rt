//! The lines of the ledgers, as a transcript has them.

ghost use Rattle.swap_base.specs.Fault.{Gives};
ghost use Rattle.swap_digraph.specs.Deal.{IsWellSized};
ghost use Rattle.transcript_book.specs.Stages.{line_read};
ghost use Rattle.party_rows.specs.Lines.{or_bad_line};
ghost use Rattle.party_judge.specs.Ledgers.{if_finished, ledgers_read};
ghost use Rattle.party_judge.specs.Told.{told_so_far};

use command_input::{HeaderFault, Reason};
use ledger_core::Book;
use party_rows::refused;
use std::alloc::Global;
use swap_base::Fault;
use swap_job::Job;
use transcript_book::{BookReader, Parts};

/// Reads the line of that number.
fn push_line(
    alloc: Global,
    reader: &mut BookReader,
    number: u32,
    line: &[u8],
) -> Result<(), HeaderFault>
    ensures { Gives (λ _. reader.new) result (or_bad_line number (line_read reader.old line.now)) }
{
    match reader.push(line) {
        Ok(()) => Ok(()),
        Err(Fault::Refused(_)) => Err(refused(alloc, Reason::BadLine(number))),
        Err(Fault::NoMemory) => Err(Fault::NoMemory),
    }
}

/// The job and the book, where the last line was read.
fn finished(alloc: Global, reader: BookReader) -> Result<(Job, Book), HeaderFault>
    ensures { Gives (λ p. (p.0, p.1.histories)) result (told_so_far (if_finished reader)) }
{
    if reader.is_finished() {
        Ok(reader.into_book())
    } else {
        Err(refused(alloc, Reason::CutShort))
    }
}

/// The job and the book that these lines tell, from the first ledger's to the last line. The first
/// has that number.
#[tactic(auto, unfolding(crate::specs::Ledgers::ledgers_read))]
pub(crate) fn read_ledgers(
    alloc: Global,
    job: Job,
    first: u32,
    lines: &mut Parts<'_>,
) -> Result<(Job, Book), HeaderFault>
    requires sized { IsWellSized job.deal }
    ensures { Gives (λ p. (p.0, p.1.histories)) result (told_so_far (ledgers_read job first lines.old)) }
{
    let mut reader = BookReader::new(alloc, job)?;
    let mut number = first;
    'lines: while let Some(line) = lines.next() {
        match push_line(alloc, &mut reader, number, line) {
            Ok(()) => number = number.saturating_add(1),
            Err(fault) => return Err(fault),
        }
    }
    finished(alloc, reader)
}
