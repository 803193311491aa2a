//! The program's answer over memory.

ghost use Rattle.std.specs.Prelude.{◌≡◌, ◌⊎◌, ◌↔◌, [], None, map, string_bytes};
ghost use Rattle.program_words.specs.Words.{task_text};
ghost use Rattle.swap_commands.specs.Words.{AsksRace};
ghost use Rattle.swap_answer.specs.Answered.{IsAnswered, known_strategies, memory_status, whole_text};

use crate::slice_source::SliceSource;
use command_input::Status;
use std::alloc::Global;
use swap_base::ByteText;
use swap_io::TextSink;
use swap_main::{Program, swap_plain};

/// What the program answers: how it ended, and what it wrote where it wrote that whole. With any
/// other status the text is empty.
#[derive(Drop)]
pub struct Answered {
    pub status: Status,
    pub text: ByteText,
}

/// What goes with a status: the text where it was written whole.
fn with_text(alloc: Global, status: Status, written: ByteText) -> Answered
    ensures status { result.status ≡ memory_status status }
    ensures text { result.text ≡ whole_text status written }
{
    match status {
        Status::Done => Answered {
            status: Status::Done,
            text: written,
        },
        Status::Named => Answered {
            status: Status::Named,
            text: written,
        },
        // The sink fails for want of memory alone.
        Status::WriteFault => Answered {
            status: Status::NoMemory,
            text: ByteText::new(Vec::new(alloc)),
        },
        other => Answered {
            status: other,
            text: ByteText::new(Vec::new(alloc)),
        },
    }
}

/// What the program `swap` answers to these words, which stand after its name, and to this input.
/// No read and no write fails: a text that finds no memory is want of memory. Words that ask for a
/// race are wrong words.
pub fn swap_answer(alloc: Global, words: &Vec<String>, input: &[u8]) -> Answered
    ensures answer { ¬ AsksRace (map string_bytes words.now.items)
        → IsAnswered known_strategies (map string_bytes words.now.items) input.now result }
    // Wrong words are those that aren't well formed.
    ensures words { ¬ AsksRace (map string_bytes words.now.items)
        → ((result.status ≡ Status.WrongWords) ↔ (task_text (map string_bytes words.now.items) ≡ None)) }
    // No race is run here.
    ensures no_race { AsksRace (map string_bytes words.now.items)
        → ((result.status ≡ Status.WrongWords) ⊎ (result.status ≡ Status.NoMemory)) × (result.text ≡ []) }
    // No call of the outside is made.
    ensures no_read_fault { ¬ (result.status ≡ Status.ReadFault) }
    ensures no_write_fault { ¬ (result.status ≡ Status.WriteFault) }
{
    let mut source = SliceSource::new(input);
    let mut sink = TextSink::new(alloc);
    let status = swap_plain(alloc, words, &mut source, &mut sink, &Program { alloc });
    with_text(alloc, status, sink.into_text())
}
