//! The command `audit`: a transcript is read, its ledgers are replayed, and the report is written.

ghost use Rattle.std.specs.Prelude.{◌≡◌};
ghost use Rattle.command_input.specs.Input.{fresh};
ghost use Rattle.command_input.specs.Streams.{streams};
ghost use Rattle.command_input.specs.Written.{StatusWrites};
ghost use Rattle.audit_command.specs.Output.{story_output, story};
ghost use Rattle.audit_command.specs.Promised.{IsSoundAudit};
ghost use Rattle.audit_command.specs.Says.{AuditSays};
ghost use Rattle.audit_command.specs.Header.{IsTranscriptJob};

use crate::judged::judge;
use crate::story::read_story;
use command_input::{Input, Status, unread, written_status};
use ledger_core::Book;
use outcome_rules::Report;
use run_texts::write_report;
use std::alloc::Global;
use swap_base::Fault;
use swap_io::{Sink, Source};
use swap_job::Job;

/// Writes the report of a job's book.
fn write_audit_report<K: Sink>(
    alloc: Global,
    sink: &mut K,
    job: &Job,
    book: &Book,
    report: &Report,
) -> Status
    requires told { IsTranscriptJob job.now }
    requires sound { IsSoundAudit (story job.now book.now.histories) report.now }
    ensures { StatusWrites (K.taken sink.old) (K.taken sink.new) (K.faults sink.old) (K.faults sink.new) (story_output (story job.now book.now.histories) report.now)
        result }
{
    let written = write_report(alloc, sink, job, book, report);
    written_status(written, !report.findings.is_empty())
}

/// Audits a transcript. The source is read to its end before anything is written; the book that its
/// lines state is kept, and none of their text.
pub fn audit_transcript<S: Source, K: Sink>(
    alloc: Global,
    mut input: Input,
    source: &mut S,
    sink: &mut K,
) -> Status
    requires { input ≡ fresh }
    ensures says { AuditSays (streams (S.left source.old) (S.faults source.old) (K.taken sink.old) (K.faults sink.old))
        (streams (S.left source.new) (S.faults source.new) (K.taken sink.new) (K.faults sink.new)) result }
    ensures calm { ¬ (result ≡ Status.ReadFault) → S.faults source.new ≡ S.faults source.old }
{
    let (job, book) = match read_story(alloc, &mut input, source) {
        Ok(story) => story,
        Err(fault) => return unread(fault),
    };
    drop(input);
    match judge(alloc, &job, &book) {
        Ok(report) => write_audit_report(alloc, sink, &job, &book, &report),
        Err(Fault::Refused(refusal)) => Status::Refused(refusal.reason, refusal.names),
        Err(Fault::NoMemory) => Status::NoMemory,
    }
}
