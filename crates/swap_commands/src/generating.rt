//! The command `gen`: the job of a number is written, or its run is summarized. Nothing is read.

ghost use Rattle.std.specs.Prelude.{◌≡◌, ◌≤◌};
ghost use Rattle.std.specs.Io.KnownBytes.{Keeps};
ghost use Rattle.command_input.specs.Written.{StatusWrites};
ghost use Rattle.swap_commands.specs.Generated.{IsRequestStatus, IsSummary, summary_output, text_output};
ghost use Rattle.swap_gen.specs.Drawn.{generated};
ghost use Rattle.made_jobs.specs.Generating.{generated_book};

use command_input::{Status, written_status};
use made_jobs::{Summary, summarize, write_generated};
use program_words::Request;
use std::alloc::Global;
use swap_io::{Sink, write_all};

/// Writes the job with its events.
fn write_job<K: Sink>(alloc: Global, request: Request, sink: &mut K) -> Status
    requires low { 2 ≤ request.parties }
    requires high { request.parties ≤ 24 }
    ensures { StatusWrites (K.taken sink.old) (K.taken sink.new) (K.faults sink.old) (K.faults sink.new) (text_output request) result }
{
    let written = write_generated(alloc, sink, request.seed, request.parties, request.events);
    written_status(written, false)
}

/// Writes a summary.
fn write_summary_text<K: Sink>(sink: &mut K, request: Request, summary: &Summary) -> Status
    requires text { summary.now.text ≡ (summary_output request).text }
    requires found { summary.now.found ≡ (summary_output request).found }
    ensures writes { StatusWrites (K.taken sink.old) (K.taken sink.new) (K.faults sink.old) (K.faults sink.new) (summary_output request) result }
    ensures whole { ¬ (result ≡ Status.NoMemory) }
{
    match write_all(sink, summary.text.as_slice()) {
        Ok(()) => {
            if summary.found {
                Status::Named
            } else {
                Status::Done
            }
        }
        Err(_) => Status::WriteFault,
    }
}

/// Runs the job and its events, and writes the summary.
fn write_summary<K: Sink>(alloc: Global, request: Request, sink: &mut K) -> Status
    requires low { 2 ≤ request.parties }
    requires high { request.parties ≤ 24 }
    ensures writes { StatusWrites (K.taken sink.old) (K.taken sink.new) (K.faults sink.old) (K.faults sink.new) (summary_output request) result }
    // Without the memory for a summary there is none, and nothing of it is promised.
    ensures promised { ¬ (result ≡ Status.NoMemory) → IsSummary (generated request.seed request.parties)
        (generated_book request.seed request.parties request.events) request (summary_output request) }
    ensures silent { result ≡ Status.NoMemory → Keeps (K.taken sink.old) (K.taken sink.new) }
{
    match summarize(alloc, request.seed, request.parties, request.events) {
        Ok(summary) => write_summary_text(sink, request, &summary),
        Err(_) => Status::NoMemory,
    }
}

/// Makes the job of a number, and writes what is asked for.
pub fn generate<K: Sink>(alloc: Global, request: Request, sink: &mut K) -> Status
    requires low { 2 ≤ request.parties }
    requires high { request.parties ≤ 24 }
    ensures { IsRequestStatus (K.taken sink.old) (K.taken sink.new) (K.faults sink.old) (K.faults sink.new) request result }
{
    if request.summary {
        write_summary(alloc, request, sink)
    } else {
        write_job(alloc, request, sink)
    }
}
