//! The whole program over a source and a sink.

ghost use Rattle.std.specs.Prelude.{◌≡◌, ◌≤◌, ◌⊎◌, ◌↔◌, None, Some, map, string_bytes};
ghost use Rattle.program_words.specs.Words.{task_text};
ghost use Rattle.program_words.specs.declared.task.Request.{Request};
ghost use Rattle.command_input.specs.Streams.{streams};
ghost use Rattle.swap_main.specs.Answer.{IsAnswer};
ghost use Rattle.swap_commands.specs.Says.{StatusSays};
ghost use Rattle.swap_commands.specs.Words.{AsksRace, OfJob, Race, words_request};
ghost use Rattle.swap_commands.specs.Strategies.{given_strategies};

use command_input::{Status, unread};
use party_threads::{Gate, Hooks};
use program_words::{Task, read_task};
use std::alloc::Global;
use std::sync::Wait;
use std::thread::Threads;
use swap_commands::{RaceOrder, enter, generate, race, run_order};
use swap_io::{Sink, Source};
use swap_run::Strategies;

/// Reads the job of a race, and races it.
fn perform_race<R: Threads + Wait + Sync, S: Source, K: Sink, G: Gate, A: Strategies + Sync>(
    rt: &R,
    alloc: Global,
    order: RaceOrder,
    source: &mut S,
    sink: &mut K,
    hooks: &Hooks<'_, A, G>,
) -> Status
    requires some { 1 ≤ order.ticks }
    requires below { order.ticks ≤ 1000 }
    ensures says { StatusSays (given_strategies (A.holds hooks.now.strategies.now) (A.gives hooks.now.strategies.now)) (OfJob (Race order.ticks order.transcript))
        (streams (S.left source.old) (S.faults source.old) (K.taken sink.old) (K.faults sink.old))
        (streams (S.left source.new) (S.faults source.new) (K.taken sink.new) (K.faults sink.new)) result }
    ensures calm { ¬ (result ≡ Status.ReadFault) → S.faults source.new ≡ S.faults source.old }
{
    match enter(alloc, source, hooks.strategies) {
        Ok(prepared) => race(rt, alloc, order, prepared, sink, hooks),
        Err(fault) => unread(fault),
    }
}

/// Runs the program but for races: the words after its name, its standard input and its standard
/// output. `strategies` answers for each party that follows a strategy. It waits for nobody, and
/// treats words that ask for a race as wrong words.
pub fn swap_plain<S: Source, K: Sink, A: Strategies>(
    alloc: Global,
    words: &Vec<String>,
    source: &mut S,
    sink: &mut K,
    strategies: &A,
) -> Status
    // Wrong words are those that aren't well formed.
    ensures words { ¬ AsksRace (map string_bytes words.now.items)
        → ((result ≡ Status.WrongWords) ↔ (task_text (map string_bytes words.now.items) ≡ None)) }
    ensures unread { result ≡ Status.WrongWords → source.new ≡ source.old }
    ensures unread_by_number { (request : Request) → words_request (map string_bytes words.now.items) ≡ Some request → source.new ≡ source.old }
    ensures answer { ¬ AsksRace (map string_bytes words.now.items) → IsAnswer (given_strategies (A.holds strategies.now) (A.gives strategies.now))
        (map string_bytes words.now.items) (streams (S.left source.old) (S.faults source.old) (K.taken sink.old) (K.faults sink.old))
        (streams (S.left source.new) (S.faults source.new) (K.taken sink.new) (K.faults sink.new)) result }
    // No read failed, unless the status tells of it.
    ensures calm { ¬ (result ≡ Status.ReadFault) → S.faults source.new ≡ S.faults source.old }
    // No race is run here.
    ensures no_race { AsksRace (map string_bytes words.now.items) → (result ≡ Status.WrongWords) ⊎ (result ≡ Status.NoMemory) }
    ensures no_race_unread { AsksRace (map string_bytes words.now.items) → source.new ≡ source.old }
    ensures no_race_unwritten { AsksRace (map string_bytes words.now.items) → sink.new ≡ sink.old }
{
    let Ok(asked) = read_task(alloc, words) else {
        return Status::NoMemory;
    };
    let Some(task) = asked else {
        return Status::WrongWords;
    };
    match task {
        Task::Race { .. } => Status::WrongWords,
        Task::Input(order) => run_order(alloc, order, source, sink, strategies),
        Task::Number(request) => generate(alloc, request, sink),
    }
}

/// Runs the program: the words after its name, its standard input and its standard output.
/// `hooks.strategies` answers for each party that follows a strategy, and each turn of a race passes
/// `hooks.gate`. Where a race is asked for it waits for the race's threads.
pub fn swap_top<R: Threads + Wait + Sync, S: Source, K: Sink, G: Gate, A: Strategies + Sync>(
    rt: &R,
    alloc: Global,
    words: &Vec<String>,
    source: &mut S,
    sink: &mut K,
    hooks: &Hooks<'_, A, G>,
) -> Status
    // Wrong words are those that aren't well formed.
    ensures words { (result ≡ Status.WrongWords) ↔ (task_text (map string_bytes words.now.items) ≡ None) }
    ensures unread { result ≡ Status.WrongWords → source.new ≡ source.old }
    ensures unread_by_number { (request : Request) → words_request (map string_bytes words.now.items) ≡ Some request → source.new ≡ source.old }
    ensures answer { IsAnswer (given_strategies (A.holds hooks.now.strategies.now) (A.gives hooks.now.strategies.now)) (map string_bytes words.now.items)
        (streams (S.left source.old) (S.faults source.old) (K.taken sink.old) (K.faults sink.old))
        (streams (S.left source.new) (S.faults source.new) (K.taken sink.new) (K.faults sink.new)) result }
    // No read failed, unless the status tells of it.
    ensures calm { ¬ (result ≡ Status.ReadFault) → S.faults source.new ≡ S.faults source.old }
{
    let Ok(read) = read_task(alloc, words) else {
        return Status::NoMemory;
    };
    let Some(asked) = read else {
        return Status::WrongWords;
    };
    match asked {
        Task::Input(given) => run_order(alloc, given, source, sink, hooks.strategies),
        Task::Race { ticks, transcript } => {
            let order = RaceOrder { ticks, transcript };
            perform_race(rt, alloc, order, source, sink, hooks)
        }
        Task::Number(request) => generate(alloc, request, sink),
    }
}
