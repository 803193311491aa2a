//! The lines of a transcript: what they look like, how those after the header line are read field
//! by field, each in its one spelling, and all of them into a book.
//!
//! Read `specs/Lines.antt` first, then `specs/Words.antt`: the fields of an entry's line; and
//! `specs/Laws.antt`: a whole transcript has one job and one book. `specs/Stages.antt` says which
//! line stands next, and what it makes of what was read; `specs/Entries.antt` and
//! `specs/Reading.antt` what `read_entry` answers.
//!
//! `specs/Books.antt` has the laws: lines are read as a book exactly where they are that book's;
//! then `specs/Spelling.antt` and `specs/Stated.antt`.
#![tactic(auto)]

mod call;
mod count;
mod digits;
mod entry;
mod field;
mod laws;
mod lists;
mod number;
mod place;
mod read_hashkeys;
mod reader;
mod reply;
mod said;
mod stated;
mod text_parts;

ghost use Rattle.transcript_book.specs.Laws.{OneStory};

pub use call::parse_unlock_fields;
pub use count::ledger_field;
pub use digits::lower_hex_digest;
pub use field::{
    bounded_field, byte_field, digest_field, nothing_more, number_field, path_field,
    signatures_field, small_field, word,
};
pub use laws::{legal_is_stated, one_spelling, read_is_whole, whole_is_read};
pub use number::{WordFault, decimal_number, misspelt, read_bounded};
pub use place::Place;
pub use read_hashkeys::{Known, none_known, with_known};
pub use reader::BookReader;
pub use said::{Misspelling, Said};
pub use stated::parse_entry;
pub use text_parts::Parts;

/// Nobody can be told two stories by one transcript.
pub fn one_story()
    ensures { OneStory }
{}
