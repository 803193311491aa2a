//! Which words are well formed.

ghost use Rattle.std.specs.Prelude.{◌≡◌, find, map, option_map, string_bytes};
ghost use Rattle.std.specs.Char.{is_ascii_digit};
ghost use Rattle.std.specs.List.{list_all};
ghost use Rattle.program_words.specs.Words.{are_options, are_well_formed, attached_text, fits, front, is_given, is_number, is_short_numeral, names};
ghost use Rattle.program_words.specs.Words.{named_step, option_step, choice_step};

use crate::choice::Choice;
use crate::verb::Verb;

/// What a word is among an option's words.
#[derive(Clone, Copy, Debug, PartialEq, Eq)]
enum Verdict {
    /// No well-formed words have it here.
    Wrong,
    /// It is done with.
    Done,
    /// The number of this option is the next word.
    Waits(Choice),
}

/// What stands before the first `=` of a word.
fn front(word: &str) -> &str
    ensures { result.now ≡ front word.now }
{
    match word.split_once('=') {
        Some((name, _)) => name,
        None => word,
    }
}

/// What stands behind the first `=` of a word, where there is one.
fn attached_text(word: &str) -> Option<&str>
    ensures { option_map (λ text. text.now) result ≡ attached_text word.now }
{
    match word.split_once('=') {
        Some((_, text)) => Some(text),
        None => None,
    }
}

/// Whether the word is the option's, alone or with something behind `=`.
fn names(word: &str, choice: Choice) -> bool
    ensures { result ≡ names word.now choice }
{
    choice.word() == front(word)
}

fn are_digits(bytes: &[u8]) -> bool
    ensures { result ≡ list_all is_ascii_digit bytes.now }
{
    for byte in bytes {
        if !byte.is_ascii_digit() {
            return false;
        }
    }
    true
}

/// Whether the text has 1 to 10 decimal digits and nothing else.
fn is_short_numeral(text: &str) -> bool
    ensures { result ≡ is_short_numeral text.now }
{
    1 <= text.len() && text.len() <= 10 && are_digits(text.as_bytes())
}

/// Whether the text is a short numeral whose number lies in the range.
#[tactic(auto, using(crate::proofs::Numbers::parsed))]
fn is_number(range: (u32, u32), text: &str) -> bool
    ensures { result ≡ is_number range text.now }
{
    if !is_short_numeral(text) {
        return false;
    }
    match text.parse::<u64>() {
        Ok(number) => range.0 as u64 <= number && number <= range.1 as u64,
        Err(_) => false,
    }
}

fn option_step(choice: Choice, range: Option<(u32, u32)>, text: Option<&str>) -> Verdict
    ensures { result ≡ option_step choice range (option_map (λ t. t.now) text.entry) }
{
    match (range, text) {
        (None, None) => Verdict::Done,
        (None, Some(_)) => Verdict::Wrong,
        (Some(_), None) => Verdict::Waits(choice),
        (Some(range), Some(text)) => {
            if is_number(range, text) {
                Verdict::Done
            } else {
                Verdict::Wrong
            }
        }
    }
}

/// Whether the words name the option.
fn is_given(choice: Choice, words: &[String]) -> bool
    ensures { result ≡ is_given choice (map string_bytes words.now) }
{
    for word in words {
        if names(word.as_str(), choice) {
            return true;
        }
    }
    false
}

/// The option of the row that the word names.
fn named(row: &[Choice], word: &str) -> Option<Choice>
    ensures { result ≡ find (names word.now) row.now }
{
    row.iter().copied().find(|choice| names(word, *choice))
}

/// A word where no number is awaited, and the words that follow it.
fn named_step(row: &[Choice], word: &str, later: &[String]) -> Verdict
    ensures { result ≡ named_step (find (names word.now) row.now) word.now (map string_bytes later.now) }
{
    match named(row, word) {
        None => Verdict::Wrong,
        Some(choice) => {
            if is_given(choice, later) {
                return Verdict::Wrong;
            }
            option_step(choice, choice.range(), attached_text(word))
        }
    }
}

fn fits(range: Option<(u32, u32)>, word: &str) -> bool
    ensures { result ≡ fits range word.now }
{
    match range {
        None => false,
        Some(range) => is_number(range, word),
    }
}

fn choice_step(row: &[Choice], waiting: Option<Choice>, word: &str, later: &[String]) -> Verdict
    ensures { result ≡ choice_step row.now waiting word.now (map string_bytes later.now) }
{
    match waiting {
        None => named_step(row, word, later),
        Some(choice) => {
            if fits(choice.range(), word) {
                Verdict::Done
            } else {
                Verdict::Wrong
            }
        }
    }
}

/// Whether the words are options of the row, where an option waits for its number or none does. No
/// option comes twice, so it calls itself only a few times.
#[tactic(auto, using(crate::proofs::Slices::no_words, crate::proofs::Slices::more_words))]
fn are_options(row: &[Choice], waiting: Option<Choice>, words: &[String]) -> bool
    ensures { result ≡ are_options row.now waiting (map string_bytes words.now) }
{
    match words {
        [] => waiting.is_none(),
        [word, later @ ..] => match choice_step(row, waiting, word.as_str(), later) {
            Verdict::Wrong => false,
            Verdict::Done => are_options(row, None, later),
            Verdict::Waits(choice) => are_options(row, Some(choice), later),
        },
    }
}

/// Whether the words after the first are well formed.
pub(crate) fn are_well_formed(verb: Verb, words: &[String]) -> bool
    ensures { result ≡ are_well_formed verb (map string_bytes words.now) }
{
    are_options(verb.choices(), None, words)
        && verb
            .needed_choices()
            .iter()
            .all(|choice| is_given(*choice, words))
}
