//! The words of the program in one text.

ghost use Rattle.std.specs.Prelude.{◌≡◌, ℕ, map, string_bytes};
ghost use Rattle.swap_base.specs.Fault.{Gives};
ghost use Rattle.transcript_book.specs.Reading.{parse_each_word};
ghost use Rattle.swap_answer.specs.Words.{told_words, utf8_word};

use std::alloc::Global;
use std::str;
use transcript_book::{Parts, WordFault, misspelt};

fn utf8_word(alloc: Global, word: &[u8]) -> Result<String, WordFault>
    ensures { Gives string_bytes result (utf8_word word.now) }
{
    match str::from_utf8(word) {
        Ok(text) => Ok(String::from_str(alloc, text)?),
        Err(_) => Err(misspelt()),
    }
}

fn each_word(alloc: Global, parts: &mut Parts<'_>) -> Result<Vec<String>, WordFault>
    ensures { Gives (λ words. map string_bytes words.items) result (parse_each_word utf8_word parts.old) }
{
    let mut words = Vec::new(alloc);
    while let Some(part) = parts.next() {
        words.push(utf8_word(alloc, part)?)?;
    }
    Ok(words)
}

/// The words that a text tells, each with a line feed behind it. A text whose last word has none,
/// and a word that isn't UTF-8, say nothing.
#[tactic(auto, unfolding(crate::specs::Words::told_words))]
pub fn told_words(alloc: Global, text: &[u8]) -> Result<Vec<String>, WordFault>
    ensures { Gives (λ words. map string_bytes words.items) result (told_words text.now) }
{
    let count = text.len();
    if count == 0 {
        return Ok(Vec::new(alloc));
    }
    if text[count - 1] != b'\n' {
        return Err(misspelt());
    }
    each_word(alloc, &mut Parts::new(b'\n', &text[..count - 1]))
}
