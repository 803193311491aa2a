//! The parts of a text, one after another.

ghost use Rattle.std.specs.Prelude.{◌≡◌, ◌∷◌, [], MatchOption, drop};
ghost use Rattle.transcript_book.specs.Between.{separated_parts};

use memchr::memchr;
use std::marker::Model;

/// What stands between the bytes of one value in a text. Contracts see the parts that are to come.
#[derive(Debug, Drop)]
pub struct Parts<'a> {
    text: &'a [u8],
    by: u8,
    at: usize,
    is_finished: bool,
}

impl<'a> Model for Parts<'a> {
    ghost use Rattle.std.specs.Prelude.{List, ℕ};

    ghost Value = { List (List ℕ) };

    ghost use Rattle.transcript_book.specs.Cursor.{parts_left, IsCursorInText};

    ghost view = { parts_left };

    ghost invariant = { IsCursorInText };
}

impl<'a> Parts<'a> {
    /// All parts of a text: always one more than it has such bytes.
    pub fn new(by: u8, text: &'a [u8]) -> Parts<'a>
        ensures { result ≡ separated_parts by text.now }
    {
        Parts {
            text,
            by,
            at: 0,
            is_finished: false,
        }
    }

    /// The next part, which stays to come.
    pub fn peek(&self) -> Option<&'a [u8]>
        ensures { MatchOption result (self.now ≡ []) (λ w. self.now ≡ w.now ∷ drop 1 self.now) }
    {
        if self.is_finished {
            return None;
        }
        let rest = &self.text[self.at..];
        match memchr(self.by, rest) {
            Some(end) => Some(&rest[..end]),
            None => Some(rest),
        }
    }

    /// Takes the next part.
    pub fn next(&mut self) -> Option<&'a [u8]>
        ensures { MatchOption result ((self.old ≡ []) × (self.new ≡ [])) (λ w. self.old ≡ w.now ∷ self.new) }
    {
        if self.is_finished {
            return None;
        }
        let rest = &self.text[self.at..];
        match memchr(self.by, rest) {
            Some(end) => {
                self.at += end + 1;
                Some(&rest[..end])
            }
            None => {
                self.is_finished = true;
                Some(rest)
            }
        }
    }
}
