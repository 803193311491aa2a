//! What an order asks for.

ghost use Rattle.std.specs.Prelude.{◌≡◌};
ghost use Rattle.command_input.specs.Streams.{streams};
ghost use Rattle.swap_commands.specs.Words.{ordered};
ghost use Rattle.swap_commands.specs.Says.{StatusSays};
ghost use Rattle.swap_commands.specs.Strategies.{given_strategies};

use crate::check::check;
use crate::clear::clear;
use crate::make::make;
use crate::many::many;
use crate::run::run;
use audit_command::audit_transcript;
use command_input::{Input, Status};
use program_words::Order;
use std::alloc::Global;
use swap_io::{Sink, Source};
use swap_run::Strategies;

/// Does what the order asks for with an input. `strategies` answers for each party that follows a
/// strategy.
pub fn run_order<S: Source, K: Sink, A: Strategies>(
    alloc: Global,
    order: Order,
    source: &mut S,
    sink: &mut K,
    strategies: &A,
) -> Status
    ensures says { StatusSays (given_strategies (A.holds strategies.now) (A.gives strategies.now)) (ordered order)
        (streams (S.left source.old) (S.faults source.old) (K.taken sink.old) (K.faults sink.old))
        (streams (S.left source.new) (S.faults source.new) (K.taken sink.new) (K.faults sink.new)) result }
    // No read failed, unless the status tells of it.
    ensures calm { ¬ (result ≡ Status.ReadFault) → S.faults source.new ≡ S.faults source.old }
{
    let Ok(mut input) = Input::new(alloc) else {
        return Status::NoMemory;
    };
    match order {
        Order::Check => check(alloc, strategies, &mut input, source, sink),
        Order::Run { transcript } => run(alloc, strategies, transcript, &mut input, source, sink),
        Order::Make => make(alloc, strategies, &mut input, source, sink),
        Order::Audit => audit_transcript(alloc, input, source, sink),
        Order::Clear => clear(alloc, strategies, &mut input, source, sink),
        Order::Many => many(alloc, strategies, &mut input, source, sink),
    }
}
