//! The text of a report.

ghost use Rattle.std.specs.Prelude.{◌≡◌, ◌++◌, [], OnOk, IfOk, IsErrOf, ◌≤◌, length};
ghost use Rattle.std.specs.Io.KnownBytes.{Appends};
ghost use Rattle.swap_base.specs.Text.{lines};
ghost use Rattle.swap_io.specs.Causes.{AppendsProperPrefix, Rose};
ghost use Rattle.swap_io.specs.Handed.{AppendsPrefix, Hands};
ghost use Rattle.swap_digraph.specs.Deal.{IsWellSized};
ghost use Rattle.ledger_core.specs.Book.{IsLegalBook};
ghost use Rattle.run_texts.specs.Words.{mode_text as parse_mode};
ghost use Rattle.run_texts.specs.Report.{head_lines, ledger_report_text, party_line, finding_line, count_line, report as to_text};

use crate::findings::{put_count, put_parties, write_findings};
use crate::ledgers::write_ledgers;
use ledger_core::Book;
use outcome_rules::Report;
use std::alloc::Global;
use swap_base::{ByteText, NoMemory, Piece, put};
use swap_digraph::{Deal, Mode};
use swap_io::{Sink, TextFault, TextSink, flush};
use swap_job::Job;

#[tactic(auto, unfolding(crate::specs::Words::mode_text))]
fn mode_text(mode: Mode) -> &'static str
    ensures { result.now ≡ parse_mode mode }
{
    match mode {
        Mode::Timelocks => "timelocks",
        Mode::Hashkeys => "hashkeys",
    }
}

#[tactic(auto, unfolding(crate::specs::Report::head_lines))]
fn put_head(out: &mut Vec<u8>, deal: &Deal) -> Result<(), NoMemory>
    ensures { OnOk result (out.new.items ≡ out.old.items ++ head_lines deal.now) }
{
    let mode = mode_text(deal.mode);
    put(
        out,
        &[
            Piece::Text("swap report 1\nswap "),
            Piece::Text(mode),
            Piece::Text(" start "),
            Piece::Number(deal.start as u64),
            Piece::Text(" delta "),
            Piece::Number(deal.delta as u64),
            Piece::Text(" bound "),
            Piece::Number(deal.bound as u64),
            Piece::Text("\n"),
        ],
    )
}

/// The lines of the job's ledgers, handed on.
fn write_book<K: Sink>(
    sink: &mut K,
    out: &mut Vec<u8>,
    job: &Job,
    book: &Book,
) -> Result<(), TextFault>
    requires sized { IsWellSized job.now.deal }
    requires legal { IsLegalBook job.now.deal book.now.histories }
    ensures { Hands (K.taken sink.old) (K.taken sink.new) (K.faults sink.old) (K.faults sink.new) out.old.items out.new.items
        (lines (ledger_report_text job.now.names job.now.deal) 0 book.now.histories) result }
{
    write_ledgers(sink, out, job.names.as_slice(), &job.deal, book)
}

/// The lines of the job's parties.
fn put_roles(out: &mut Vec<u8>, job: &Job, report: &Report) -> Result<(), NoMemory>
    requires parties { length report.now.outcomes ≤ 256 }
    ensures { OnOk result (out.new.items ≡ out.old.items ++ lines (party_line job.now.names job.now.conforming report.now.ended) 0 report.now.outcomes) }
{
    put_parties(
        out,
        job.names.as_slice(),
        job.conforming.as_slice(),
        report.ended,
        report.outcomes.as_slice(),
    )
}

/// The lines of the findings, handed on.
fn write_found<K: Sink>(
    sink: &mut K,
    out: &mut Vec<u8>,
    job: &Job,
    report: &Report,
) -> Result<(), TextFault>
    ensures { Hands (K.taken sink.old) (K.taken sink.new) (K.faults sink.old) (K.faults sink.new) out.old.items out.new.items
        (lines (λ _. finding_line job.now.names) 0 report.now.findings) result }
{
    write_findings(sink, out, job.names.as_slice(), report.findings.as_slice())
}

/// The last line of a report.
fn put_last(out: &mut Vec<u8>, report: &Report) -> Result<(), NoMemory>
    ensures { OnOk result (out.new.items ≡ out.old.items ++ count_line (length report.now.findings)) }
{
    put_count(out, report.findings.len() as u64)
}

/// The lines of a report, handed on behind what waits, so that nothing waits after them.
pub fn hand_report<K: Sink>(
    sink: &mut K,
    out: &mut Vec<u8>,
    job: &Job,
    book: &Book,
    report: &Report,
) -> Result<(), TextFault>
    requires sized { IsWellSized job.now.deal }
    requires legal { IsLegalBook job.now.deal book.now.histories }
    requires parties { length report.now.outcomes ≤ 256 }
    ensures hands { Hands (K.taken sink.old) (K.taken sink.new) (K.faults sink.old) (K.faults sink.new) out.old.items out.new.items
        (to_text job.now book.now.histories report.now) result }
    ensures none { OnOk result (out.new.items ≡ []) }
{
    put_head(out, &job.deal)?;
    write_book(sink, out, job, book)?;
    put_roles(out, job, report)?;
    write_found(sink, out, job, report)?;
    put_last(out, report)?;
    flush(sink, out)
}

/// Writes the report of a job's book: each ledger's calls with their replies, each party's outcome,
/// and the findings. After want of memory a prefix of it was written.
pub fn write_report<K: Sink>(
    alloc: Global,
    sink: &mut K,
    job: &Job,
    book: &Book,
    report: &Report,
) -> Result<(), TextFault>
    requires sized { IsWellSized job.now.deal }
    requires legal { IsLegalBook job.now.deal book.now.histories }
    requires parties { length report.now.outcomes ≤ 256 }
    ensures all { OnOk result (Appends (K.taken sink.old) (K.taken sink.new) (to_text job.now book.now.histories report.now)) }
    ensures write_fault { IsErrOf result TextFault.WriteFault
        → AppendsProperPrefix (K.taken sink.old) (K.taken sink.new) (to_text job.now book.now.histories report.now) }
    ensures no_memory { IsErrOf result TextFault.NoMemory
        → AppendsPrefix (K.taken sink.old) (K.taken sink.new) (to_text job.now book.now.histories report.now) }
    ensures later { K.faults sink.old ≤ K.faults sink.new }
    ensures failed { IsErrOf result TextFault.WriteFault → Rose (K.faults sink.old) (K.faults sink.new) }
{
    let mut out = Vec::new(alloc);
    hand_report(sink, &mut out, job, book, report)
}

/// The report of a job's book, as `write_report` writes it. For programs of others: this
/// repository's programs write it line by line.
pub fn report_text(
    alloc: Global,
    job: &Job,
    book: &Book,
    report: &Report,
) -> Result<ByteText, NoMemory>
    requires sized { IsWellSized job.now.deal }
    requires legal { IsLegalBook job.now.deal book.now.histories }
    requires parties { length report.now.outcomes ≤ 256 }
    ensures { IfOk result (λ t. t ≡ to_text job.now book.now.histories report.now) }
{
    let mut text = TextSink::new(alloc);
    match write_report(alloc, &mut text, job, book, report) {
        Ok(()) => Ok(text.into_text()),
        Err(_) => Err(NoMemory),
    }
}
