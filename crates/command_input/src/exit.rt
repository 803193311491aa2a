//! What a program ends with: its number, and what it tells on standard error.

ghost use Rattle.std.specs.Prelude.{◌≡◌, IfOk};
ghost use Rattle.command_input.specs.StandardError.{refusal_text, told_text};

use crate::line::refusal_line;
use crate::reason::Reason;
use std::alloc::Global;
use swap_base::{ByteText, NoMemory};

/// What is told on standard error.
#[derive(Debug, Drop)]
pub enum Told {
    /// Words that are the same each time.
    Words(&'static str),
    /// The line of a refusal.
    Line(ByteText),
}

impl Told {
    /// The bytes to write.
    pub fn as_slice(&self) -> &[u8]
        ensures { result.now ≡ told_text self.now }
    {
        match self {
            Told::Words(words) => words.as_bytes(),
            Told::Line(line) => line.as_slice(),
        }
    }
}

/// What the process ends with.
#[derive(Debug, Drop)]
pub struct Exit {
    pub number: u8,
    pub told: Told,
}

impl Exit {
    /// The exit that tells the same words each time.
    pub fn of_words(number: u8, words: &'static str) -> Exit
        ensures number { result.number ≡ number }
        ensures words { told_text result.told ≡ words.now }
    {
        Exit {
            number,
            told: Told::Words(words),
        }
    }
}

/// The line of a refusal, with its line feed.
pub fn refusal_text(
    alloc: Global,
    reason: &Reason,
    names: &[ByteText],
) -> Result<ByteText, NoMemory>
    ensures { IfOk result (λ t. t ≡ refusal_text names.now reason.now) }
{
    let mut line = refusal_line(alloc, reason, names)?.into_vec();
    line.push(b'\n')?;
    Ok(ByteText::new(line))
}
