//! The command `check`: an offer is examined, and its times are written.

ghost use Rattle.std.specs.Prelude.{◌≡◌, IfOk};
ghost use Rattle.swap_digraph.specs.Deal.{IsWellSized};
ghost use Rattle.swap_rules.specs.Accepted.{IsAccepted};
ghost use Rattle.swap_offer.specs.Checks.{deal_need};
ghost use Rattle.command_input.specs.Input.{Ends, desk, fresh};
ghost use Rattle.command_input.specs.Written.{StatusWrites};
ghost use Rattle.command_input.specs.Streams.{streams};
ghost use Rattle.swap_commands.specs.Output.{check_text, written_check};
ghost use Rattle.swap_commands.specs.Replay.{IsChecked};
ghost use Rattle.swap_commands.specs.Says.{CommandSays, IsCommandRefusal};
ghost use Rattle.swap_commands.specs.Walk.{ReadsOrStops};
ghost use Rattle.swap_commands.specs.Words.{Check, OfJob};
ghost use Rattle.swap_commands.specs.Strategies.{given_strategies};

use crate::header::first_line;
use crate::replay::skip_events;
use command_input::{Input, InputFault, Refusal, Status, unread};
use std::alloc::Global;
use swap_base::{ByteText, NoMemory, Piece, put};
use swap_digraph::Deal;
use swap_io::{Sink, Source, write_all};
use swap_job::{Job, Purpose};
use swap_offer::Prepared;
use swap_run::Strategies;
use time_bounds::{horizon, last_expiry, opening_deadline};

/// What a check writes for an accepted deal.
#[tactic(auto, unfolding(crate::specs::Output::check_text))]
fn check_text(alloc: Global, deal: &Deal, need: u32) -> Result<ByteText, NoMemory>
    requires sized { IsWellSized deal.now }
    requires need { need ≡ deal_need deal.now }
    ensures { IfOk result (λ t. t ≡ check_text deal.now) }
{
    let mut out = Vec::new(alloc);
    put(
        &mut out,
        &[
            Piece::Text("swap accepted\nneed "),
            Piece::Number(need as u64),
            Piece::Text("\nopen by "),
            Piece::Number(opening_deadline(deal.start, deal.delta, deal.bound)),
            Piece::Text("\nexpiry "),
            Piece::Number(last_expiry(deal.start, deal.delta, deal.bound)),
            Piece::Text("\nhorizon "),
            Piece::Number(horizon(deal.start, deal.delta, deal.bound)),
            Piece::Text("\n"),
        ],
    )?;
    Ok(ByteText::new(out))
}

/// The job of an input, and the least bound that it may have. All lines of the input are examined.
fn examine<S: Source, A: Strategies>(
    alloc: Global,
    strategies: &A,
    input: &mut Input,
    source: &mut S,
) -> Result<(Job, u32), InputFault<Refusal>>
    requires { input.old ≡ fresh }
    ensures accepted { IfOk result (λ j. IsAccepted j.0.deal) }
    ensures sized { IfOk result (λ j. IsWellSized j.0.deal) }
    ensures need { IfOk result (λ j. j.1 ≡ deal_need j.0.deal) }
    ensures reads { ReadsOrStops (λ j. Ends (λ bytes. IsChecked (A.holds strategies.now) bytes j.0)) (IsCommandRefusal (A.holds strategies.now) (OfJob Check))
        (desk (S.left source.old) (S.faults source.old) fresh) (desk (S.left source.new) (S.faults source.new) input.new) result }
{
    let Prepared { job, need, .. } = first_line(alloc, strategies, Purpose::Check, input, source)?;
    match skip_events(alloc, &job, input, source) {
        Ok(()) => Ok((job, need)),
        Err(fault) => Err(fault.with_names(job.names)),
    }
}

/// Writes the text of a checked offer.
fn write_checked_offer<K: Sink>(alloc: Global, sink: &mut K, job: &Job, need: u32) -> Status
    requires sized { IsWellSized job.now.deal }
    requires need { need ≡ deal_need job.now.deal }
    ensures { StatusWrites (K.taken sink.old) (K.taken sink.new) (K.faults sink.old) (K.faults sink.new) (written_check job.now) result }
{
    let Ok(text) = check_text(alloc, &job.deal, need) else {
        return Status::NoMemory;
    };
    match write_all(sink, text.as_slice()) {
        Ok(()) => Status::Done,
        Err(_) => Status::WriteFault,
    }
}

/// Checks an offer.
pub(crate) fn check<S: Source, K: Sink, A: Strategies>(
    alloc: Global,
    strategies: &A,
    input: &mut Input,
    source: &mut S,
    sink: &mut K,
) -> Status
    requires { input.old ≡ fresh }
    ensures { CommandSays (given_strategies (A.holds strategies.now) (A.gives strategies.now)) (OfJob Check)
        (streams (S.left source.old) (S.faults source.old) (K.taken sink.old) (K.faults sink.old))
        (streams (S.left source.new) (S.faults source.new) (K.taken sink.new) (K.faults sink.new)) result }
{
    match examine(alloc, strategies, input, source) {
        Ok((job, need)) => write_checked_offer(alloc, sink, &job, need),
        Err(fault) => unread(input.stop(source, fault)),
    }
}
