//! The command `race`: the parties of a job race, and the report of the book that they come to is
//! written, or the transcript.

ghost use Rattle.std.specs.Prelude.{◌≡◌, ◌≤◌, ℕ, Bool, List, Option, IfOk, IfErr, IsErrOf};
ghost use Rattle.swap_io.specs.Tape.{Tape};
ghost use Rattle.swap_commands.specs.Entered.{CanRace, HasEntered, HasNotEntered};
ghost use Rattle.command_input.specs.Input.{Ends, Stops, desk, fresh};
ghost use Rattle.command_input.specs.Streams.{streams};
ghost use Rattle.swap_commands.specs.Replay.{IsEntered};
ghost use Rattle.swap_commands.specs.Says.{IsCommandRefusal, StatusSays};
ghost use Rattle.swap_commands.specs.Words.{OfJob, Race};
ghost use Rattle.swap_commands.specs.Strategies.{given_strategies};

use crate::header::first_line;
use crate::replay::skip_events;
use crate::run::write_report_or_transcript;
use command_input::{Input, InputFault, Refusal, Status};
use party_threads::{Gate, Hooks, race_fitting};
use std::alloc::Global;
use std::sync::Wait;
use std::thread::Threads;
use swap_base::NoMemory;
use swap_io::{Sink, Source};
use swap_job::Purpose;
use swap_offer::Prepared;
use swap_run::Strategies;

/// How a race is asked for: with `ticks` ticks a round. Its report is written, or its transcript.
#[derive(Clone, Copy, Debug, PartialEq, Eq)]
pub struct RaceOrder {
    pub ticks: u32,
    pub transcript: bool,
}

/// The job of an input without events, and the wallets of its conforming parties.
fn read_job<S: Source, A: Strategies>(
    alloc: Global,
    strategies: &A,
    input: &mut Input,
    source: &mut S,
) -> Result<Prepared, InputFault<Refusal>>
    requires { input.old ≡ fresh }
    ensures entered { IfOk result (λ e. Ends (λ bytes. IsEntered (A.holds strategies.now) bytes e.job) (desk (S.left source.old) (S.faults source.old) fresh)
        (desk (S.left source.new) (S.faults source.new) input.new)) }
    ensures can { IfOk result (λ e. CanRace (A.holds strategies.now) e) }
    // The reason depends neither on the race's ticks nor on the text that is asked for.
    ensures stops { (ticks : ℕ) (transcript : Bool) → IfErr result (λ e.
        Stops (IsCommandRefusal (A.holds strategies.now) (OfJob (Race ticks transcript))) (desk (S.left source.old) (S.faults source.old) fresh)
        (desk (S.left source.new) (S.faults source.new) input.new) e) }
{
    let prepared = first_line(alloc, strategies, Purpose::Race, input, source)?;
    match skip_events(alloc, &prepared.job, input, source) {
        Ok(()) => Ok(prepared),
        Err(fault) => Err(fault.with_names(prepared.job.names)),
    }
}

/// Reads the job of a race, and the wallets of its conforming parties. The whole input is read
/// before it is answered why the input is refused. No thread is started here.
pub fn enter<S: Source, A: Strategies>(
    alloc: Global,
    source: &mut S,
    strategies: &A,
) -> Result<Prepared, InputFault<Refusal>>
    ensures entered { IfOk result (λ e. HasEntered (A.holds strategies.now) (S.left source.old) (S.left source.new) e.job) }
    ensures can { IfOk result (λ e. CanRace (A.holds strategies.now) e) }
    ensures stopped { IfErr result (HasNotEntered (A.holds strategies.now) (S.left source.old) (S.left source.new)
        (S.faults source.old) (S.faults source.new)) }
    ensures calm { ¬ IsErrOf result InputFault.ReadFault → S.faults source.new ≡ S.faults source.old }
{
    let mut input = Input::new(alloc)?;
    match read_job(alloc, strategies, &mut input, source) {
        Ok(entered) => Ok(entered),
        Err(fault) => Err(input.stop(source, fault)),
    }
}

/// Races a job whose input was read.
pub fn race<R: Threads + Wait + Sync, K: Sink, G: Gate, A: Strategies + Sync>(
    rt: &R,
    alloc: Global,
    order: RaceOrder,
    prepared: Prepared,
    sink: &mut K,
    hooks: &Hooks<'_, A, G>,
) -> Status
    requires can { CanRace (A.holds hooks.now.strategies.now) prepared }
    requires some { 1 ≤ order.ticks }
    requires below { order.ticks ≤ 1000 }
    ensures { (left left' : Tape) (n m : ℕ) → HasEntered (A.holds hooks.now.strategies.now) left left' prepared.job
        → StatusSays (given_strategies (A.holds hooks.now.strategies.now) (A.gives hooks.now.strategies.now)) (OfJob (Race order.ticks order.transcript))
        (streams left n (K.taken sink.old) (K.faults sink.old)) (streams left' m (K.taken sink.new) (K.faults sink.new)) result }
{
    let Prepared { job, wallets, .. } = prepared;
    match race_fitting(rt, alloc, &job, wallets, order.ticks, hooks) {
        Ok(book) => write_report_or_transcript(alloc, order.transcript, sink, &job, &book),
        Err(NoMemory) => Status::NoMemory,
    }
}
