//! The call of the program `party`.

ghost use Rattle.std.specs.Prelude.{◌≡◌, ℕ, List, Some, map, string_bytes};
ghost use Rattle.command_input.specs.Streams.{streams};
ghost use Rattle.party_main.specs.Says.{of_fault, PartyStatusSays, PartyStatusWrites};
ghost use Rattle.party_main.specs.Words.{words_party_command};

use crate::command::{Command, command_input_limit, words_party_command};
use crate::output::party_output;
use crate::reason::{PartyFault, PartyReason};
use party_answer::Answer;
use std::alloc::Global;
use swap_base::Fault;
use swap_io::{ReadAllFault, Sink, Source, read_all, write_all};

/// How a call of the program ended.
#[derive(Debug, Drop)]
pub enum PartyStatus {
    /// What is written was written whole.
    Done,
    /// What is written was written whole, and a line of it tells of something that should not be.
    Warned,
    WrongWords,
    /// The first reason against the input; nothing was written.
    Refused(PartyReason),
    ReadFault,
    WriteFault,
    NoMemory,
    TooLong,
}

fn of_fault(fault: PartyFault) -> PartyStatus
    ensures { result ≡ of_fault fault }
{
    match fault {
        Fault::Refused(reason) => PartyStatus::Refused(reason),
        Fault::NoMemory => PartyStatus::NoMemory,
    }
}

fn write_text<K: Sink>(sink: &mut K, what: &Answer) -> PartyStatus
    ensures { PartyStatusWrites (K.taken sink.old) (K.taken sink.new) (K.faults sink.old) (K.faults sink.new) what.now result }
{
    match write_all(sink, what.text.as_slice()) {
        Ok(()) if what.warns => PartyStatus::Warned,
        Ok(()) => PartyStatus::Done,
        Err(_) => PartyStatus::WriteFault,
    }
}

/// Reads an input to its end, and writes what the command makes of it.
fn run_party_command<S: Source, K: Sink>(
    alloc: Global,
    command: &Command<'_>,
    source: &mut S,
    sink: &mut K,
) -> PartyStatus
    ensures { (words : List (List ℕ)) → words_party_command words ≡ Some command.now
        → PartyStatusSays words (streams (S.left source.old) (S.faults source.old) (K.taken sink.old) (K.faults sink.old))
        (streams (S.left source.new) (S.faults source.new) (K.taken sink.new) (K.faults sink.new)) result }
{
    let input = match read_all(alloc, source, command_input_limit(command)) {
        Ok(input) => input,
        Err(ReadAllFault::ReadFault) => return PartyStatus::ReadFault,
        Err(ReadAllFault::TooLong) => return PartyStatus::TooLong,
        Err(ReadAllFault::NoMemory) => return PartyStatus::NoMemory,
    };
    match party_output(alloc, command, &input) {
        Ok(what) => write_text(sink, &what),
        Err(fault) => of_fault(fault),
    }
}

/// Reads an input to its end, and writes what is asked of it: a party's row, a deal's header line,
/// a party's terms, or what is due for a party.
pub fn party_top<S: Source, K: Sink>(
    alloc: Global,
    words: &[String],
    source: &mut S,
    sink: &mut K,
) -> PartyStatus
    ensures { PartyStatusSays (map string_bytes words.now) (streams (S.left source.old) (S.faults source.old) (K.taken sink.old) (K.faults sink.old))
        (streams (S.left source.new) (S.faults source.new) (K.taken sink.new) (K.faults sink.new)) result }
{
    match words_party_command(words) {
        Some(command) => run_party_command(alloc, &command, source, sink),
        None => PartyStatus::WrongWords,
    }
}
