//! The command `run`: the events of a job are replayed, its finish is made, and the report is
//! written, or the transcript.

ghost use Rattle.std.specs.Prelude.{◌≡◌, false, IfOk, IsErrOf, OnOk};
ghost use Rattle.std.specs.Io.KnownBytes.{Appends};
ghost use Rattle.swap_io.specs.Causes.{AppendsProperPrefix, Rose};
ghost use Rattle.swap_io.specs.Handed.{AppendsPrefix};
ghost use Rattle.swap_rules.specs.Accepted.{IsAccepted};
ghost use Rattle.swap_rules.specs.Outcome.{IsEnded};
ghost use Rattle.swap_rules.specs.Laws.{IsDealt};
ghost use Rattle.ledger_core.specs.Book.{IsLegalBook};
ghost use Rattle.offer_header.specs.Names.{AreNames};
ghost use Rattle.offer_text.specs.HeaderLine.{is_make};
ghost use Rattle.outcome_rules.specs.Report.{is_conforming_party};
ghost use Rattle.outcome_rules.specs.Promises.{AllAreConforming};
ghost use Rattle.swap_run.specs.Run.{start};
ghost use Rattle.swap_run.specs.Laws.{IsKept};
ghost use Rattle.swap_run.specs.Asked.{Answers};
ghost use Rattle.swap_world.specs.Cast.{job_cast};
ghost use Rattle.swap_world.specs.Gone.{HasAsked};
ghost use Rattle.swap_world.specs.Actors.{AreHeld};
ghost use Rattle.swap_world.specs.Value.{Continues, new_world};
ghost use Rattle.swap_offer.specs.Job.{IsWholeJob};
ghost use Rattle.command_input.specs.Input.{Ends, desk, fresh};
ghost use Rattle.command_input.specs.Written.{StatusWrites};
ghost use Rattle.command_input.specs.Streams.{streams};
ghost use Rattle.made_jobs.specs.Generating.{IsJobWorld};
ghost use Rattle.swap_commands.specs.Output.{book_report, reported, run_text};
ghost use Rattle.swap_commands.specs.Replay.{IsConcluded, IsPlayed};
ghost use Rattle.swap_commands.specs.Says.{CommandSays, IsCommandRefusal};
ghost use Rattle.swap_commands.specs.Walk.{ReadsOrStops};
ghost use Rattle.swap_commands.specs.Words.{OfJob, Run};
ghost use Rattle.swap_commands.specs.Strategies.{given_strategies};

use crate::finish::finish;
use crate::header::first_line;
use crate::replay::replay;
use command_input::{Input, InputFault, Refusal, Status, unread, written_status};
use ledger_core::Book;
use outcome_rules::{Report, build_report};
use run_texts::{write_report, write_transcript};
use std::alloc::Global;
use swap_base::NoMemory;
use swap_io::{Sink, Source, TextFault};
use swap_job::{Finish, Job, Purpose};
use swap_offer::Prepared;
use swap_run::Strategies;
use swap_world::World;

/// The job of an input, and its world after all events.
fn play<S: Source, A: Strategies>(
    alloc: Global,
    strategies: &A,
    transcript: bool,
    input: &mut Input,
    source: &mut S,
) -> Result<(Job, World), InputFault<Refusal>>
    requires { input.old ≡ fresh }
    ensures asked { IfOk result (λ p. HasAsked (A.gives strategies.now) (new_world p.0) p.1) }
    ensures held { IfOk result (λ p. AreHeld (A.holds strategies.now) p.0.roles) }
    ensures whole { IfOk result (λ p. IsWholeJob p.0) }
    ensures names { IfOk result (λ p. AreNames p.0.names) }
    ensures purpose { IfOk result (λ p. p.0.purpose ≡ Purpose.Run) }
    ensures accepted { IfOk result (λ p. IsAccepted p.0.deal) }
    ensures of { IfOk result (λ p. IsJobWorld p.0 p.1) }
    ensures goes_on { IfOk result (λ p. p.1.stopped ≡ false) }
    // It holds whatever strategies may answer after the last event.
    ensures reads { ReadsOrStops (λ p s t. (a : Answers) → Continues p.1 a → Ends (λ bytes. IsPlayed (A.holds strategies.now) a bytes p.0 p.1.state) s t)
        (IsCommandRefusal (A.holds strategies.now) (OfJob (Run transcript)))
        (desk (S.left source.old) (S.faults source.old) fresh) (desk (S.left source.new) (S.faults source.new) input.new) result }
{
    let Prepared { job, wallets, .. } = first_line(alloc, strategies, Purpose::Run, input, source)?;
    match replay(alloc, &job, wallets, strategies, input, source) {
        Ok(world) => Ok((job, world)),
        Err(fault) => Err(fault.with_names(job.names)),
    }
}

/// The book of a world after the job's finish.
fn conclude<A: Strategies>(
    alloc: Global,
    strategies: &A,
    job: &Job,
    mut world: World,
) -> Result<Book, NoMemory>
    requires held { AreHeld (A.holds strategies.now) job.now.roles }
    requires asked { HasAsked (A.gives strategies.now) (new_world job.now) world }
    requires of { IsJobWorld job.now world }
    requires goes_on { world.stopped ≡ false }
    ensures book { IfOk result (λ b. IsConcluded (A.gives strategies.now) job.now world b.histories) }
    ensures kept { IfOk result (λ b. IsKept (job_cast job.now) b.histories) }
    ensures ended { IfOk result (λ b. job.now.finish ≡ Finish.Fair → IsEnded job.now.deal b.histories) }
    ensures dealt { IfOk result (λ b. job.now.finish ≡ Finish.Fair → world.state ≡ start (job_cast job.now) → AllAreConforming job.now.deal job.now.conforming
        → IsDealt job.now.deal (is_conforming_party job.now.conforming) b.histories) }
{
    finish(&mut world, strategies, job)?;
    world.recorded();
    world.into_book(alloc)
}

/// Writes the report of a job's book, or its transcript.
fn write_text<K: Sink>(
    alloc: Global,
    transcript: bool,
    sink: &mut K,
    job: &Job,
    book: &Book,
    report: &Report,
) -> Result<(), TextFault>
    requires whole { IsWholeJob job.now }
    requires names { AreNames job.now.names }
    requires shown { is_make job.now.purpose ≡ false }
    requires legal { IsLegalBook job.now.deal book.now.histories }
    requires report { report.now ≡ book_report job.now book.now.histories }
    ensures all { OnOk result (Appends (K.taken sink.old) (K.taken sink.new) (run_text transcript job.now book.now.histories report.now)) }
    ensures write_fault { IsErrOf result TextFault.WriteFault
        → AppendsProperPrefix (K.taken sink.old) (K.taken sink.new) (run_text transcript job.now book.now.histories report.now) }
    ensures no_memory { IsErrOf result TextFault.NoMemory
        → AppendsPrefix (K.taken sink.old) (K.taken sink.new) (run_text transcript job.now book.now.histories report.now) }
    ensures failed { IsErrOf result TextFault.WriteFault → Rose (K.faults sink.old) (K.faults sink.new) }
{
    if transcript {
        write_transcript(alloc, sink, job, book)
    } else {
        write_report(alloc, sink, job, book, report)
    }
}

/// Writes the report of a job's book, or its transcript, and says whether the report tells of a
/// finding.
pub(crate) fn write_report_or_transcript<K: Sink>(
    alloc: Global,
    transcript: bool,
    sink: &mut K,
    job: &Job,
    book: &Book,
) -> Status
    requires whole { IsWholeJob job.now }
    requires names { AreNames job.now.names }
    requires shown { is_make job.now.purpose ≡ false }
    requires legal { IsLegalBook job.now.deal book.now.histories }
    ensures { StatusWrites (K.taken sink.old) (K.taken sink.new) (K.faults sink.old) (K.faults sink.new) (reported transcript job.now book.now.histories) result }
{
    let Ok(report) = build_report(alloc, &job.deal, &job.conforming, book) else {
        return Status::NoMemory;
    };
    let written = write_text(alloc, transcript, sink, job, book, &report);
    written_status(written, !report.findings.is_empty())
}

/// Runs a job.
pub(crate) fn run<S: Source, K: Sink, A: Strategies>(
    alloc: Global,
    strategies: &A,
    transcript: bool,
    input: &mut Input,
    source: &mut S,
    sink: &mut K,
) -> Status
    requires { input.old ≡ fresh }
    ensures { CommandSays (given_strategies (A.holds strategies.now) (A.gives strategies.now)) (OfJob (Run transcript))
        (streams (S.left source.old) (S.faults source.old) (K.taken sink.old) (K.faults sink.old))
        (streams (S.left source.new) (S.faults source.new) (K.taken sink.new) (K.faults sink.new)) result }
{
    let (job, world) = match play(alloc, strategies, transcript, input, source) {
        Ok(played) => played,
        Err(fault) => return unread(input.stop(source, fault)),
    };
    let Ok(book) = conclude(alloc, strategies, &job, world) else {
        return Status::NoMemory;
    };
    write_report_or_transcript(alloc, transcript, sink, &job, &book)
}
