//! The command `make`: a plain job is made, and its further lines are copied.

ghost use Rattle.std.specs.Prelude.{◌≡◌, IfOk, Ok, Err};
ghost use Rattle.made_jobs.specs.Making.{copied, IsMade};
ghost use Rattle.command_input.specs.Input.{Ends, Fits, ahead, desk, fresh};
ghost use Rattle.command_input.specs.Written.{StatusWrites};
ghost use Rattle.command_input.specs.Streams.{streams};
ghost use Rattle.swap_commands.specs.Output.{plain_text};
ghost use Rattle.swap_commands.specs.Replay.{IsCopied};
ghost use Rattle.swap_commands.specs.Says.{CommandSays, IsCommandRefusal};
ghost use Rattle.swap_commands.specs.Walk.{ReadsOrStops};
ghost use Rattle.swap_commands.specs.Words.{Make, OfJob};
ghost use Rattle.swap_commands.specs.Strategies.{given_strategies};

use crate::header::first_line;
use command_input::{Input, InputFault, Reason, Refusal, Status, unread};
use made_jobs::{copy_line, made_line};
use std::alloc::Global;
use swap_io::{Sink, Source, write_all};
use swap_job::{Job, Purpose};
use swap_offer::Prepared;
use swap_run::Strategies;

/// Puts the lines ahead behind a text, each with a line feed.
fn copy_lines<S: Source>(
    alloc: Global,
    text: &mut Vec<u8>,
    input: &mut Input,
    source: &mut S,
) -> Result<(), InputFault<Reason>>
    requires fits { Fits (S.left source.old) input.old }
    ensures { ReadsOrStops (λ _. Ends (λ bytes. copied 0 text.old.items (ahead input.old bytes) ≡ Ok text.new.items))
        (λ bytes reason. copied 0 text.old.items (ahead input.old bytes) ≡ Err reason)
        (desk (S.left source.old) (S.faults source.old) input.old) (desk (S.left source.new) (S.faults source.new) input.new) result }
{
    let mut count: u32 = 0;
    'lines: while input.next(source)? {
        count = copy_line(alloc, text, count, input.number(), input.text())?;
    }
    Ok(())
}

/// The text that is made of an input, and the plain job that it was read as.
fn copy<S: Source, A: Strategies>(
    alloc: Global,
    strategies: &A,
    input: &mut Input,
    source: &mut S,
) -> Result<(Job, Vec<u8>), InputFault<Refusal>>
    requires { input.old ≡ fresh }
    ensures made { IfOk result (λ c. IsMade c.0) }
    ensures reads { ReadsOrStops (λ c. Ends (λ bytes. IsCopied (A.holds strategies.now) bytes c.0 c.1.items)) (IsCommandRefusal (A.holds strategies.now) (OfJob Make))
        (desk (S.left source.old) (S.faults source.old) fresh) (desk (S.left source.new) (S.faults source.new) input.new) result }
{
    let Prepared { job, .. } = first_line(alloc, strategies, Purpose::Make, input, source)?;
    let mut text = made_line(alloc, &job)?;
    match copy_lines(alloc, &mut text, input, source) {
        Ok(()) => Ok((job, text)),
        Err(fault) => Err(fault.with_names(job.names)),
    }
}

/// Writes a text.
pub(crate) fn write_plain_text<K: Sink>(sink: &mut K, text: &[u8]) -> Status
    ensures { StatusWrites (K.taken sink.old) (K.taken sink.new) (K.faults sink.old) (K.faults sink.new) (plain_text text.now) result }
{
    match write_all(sink, text) {
        Ok(()) => Status::Done,
        Err(_) => Status::WriteFault,
    }
}

/// Makes a job.
pub(crate) fn make<S: Source, K: Sink, A: Strategies>(
    alloc: Global,
    strategies: &A,
    input: &mut Input,
    source: &mut S,
    sink: &mut K,
) -> Status
    requires { input.old ≡ fresh }
    ensures { CommandSays (given_strategies (A.holds strategies.now) (A.gives strategies.now)) (OfJob Make)
        (streams (S.left source.old) (S.faults source.old) (K.taken sink.old) (K.faults sink.old))
        (streams (S.left source.new) (S.faults source.new) (K.taken sink.new) (K.faults sink.new)) result }
{
    match copy(alloc, strategies, input, source) {
        Ok((_, text)) => write_plain_text(sink, &text),
        Err(fault) => unread(input.stop(source, fault)),
    }
}
