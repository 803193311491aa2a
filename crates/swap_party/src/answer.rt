//! What the program `swap` answers.

ghost use Rattle.std.specs.Prelude.{◌⊎◌};
ghost use Rattle.swap_answer.specs.Words.{told_words};
ghost use Rattle.swap_party.specs.Program.{IsEnded, IsProgramSaid};
ghost use Rattle.swap_party.specs.Said.{IsNothing};

use crate::said::{
    DONE, NO_MEMORY, REFUSED, Said, TOO_LONG, WARNED, WRONG_WORDS, say, say_nothing,
};
use command_input::{Status, refusal_text};
use std::alloc::Global;
use swap_answer::{Answered, swap_answer, told_words};
use swap_base::Fault;

/// Says how the program ended: with what it wrote, or with the line of a refusal.
fn say_ended(alloc: Global, ended: &Answered, out: &mut [u8]) -> Said
    ensures { IsEnded ended.now out.old out.new result ⊎ IsNothing 6 out.old out.new result }
{
    match &ended.status {
        Status::Done => say(DONE, ended.text.as_slice(), out),
        Status::Named => say(WARNED, ended.text.as_slice(), out),
        Status::WrongWords => say_nothing(WRONG_WORDS),
        Status::Refused(reason, names) => match refusal_text(alloc, reason, names.as_slice()) {
            Ok(line) => say(REFUSED, line.as_slice(), out),
            Err(_) => say_nothing(NO_MEMORY),
        },
        Status::TooLong => say_nothing(TOO_LONG),
        Status::ReadFault | Status::WriteFault | Status::NoMemory => say_nothing(NO_MEMORY),
    }
}

/// Answers what the program `swap` answers to words and an input, but for races. Each word has a
/// line feed behind it.
#[unsafe(no_mangle)]
pub extern "C" fn swap_party_answer(
    alloc: Global,
    words: &[u8],
    input: &[u8],
    out: &mut [u8],
) -> Said
    ensures { IsProgramSaid (told_words words.now) input.now out.old out.new result ⊎ IsNothing 6 out.old out.new result }
{
    match told_words(alloc, words) {
        Ok(words) => say_ended(alloc, &swap_answer(alloc, &words, input), out),
        Err(Fault::Refused(_)) => say_nothing(WRONG_WORDS),
        Err(Fault::NoMemory) => say_nothing(NO_MEMORY),
    }
}
