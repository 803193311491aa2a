//! Laws of transcripts: each is a function without a body, and its contract is the law.

ghost use Rattle.transcript_book.specs.Spelling.{OneSpelling};
ghost use Rattle.transcript_book.specs.Books.{ReadIsWhole, WholeIsRead};
ghost use Rattle.transcript_book.specs.Stated.{LegalIsStated};

/// No line but the one that a writer writes says what it says.
pub fn one_spelling()
    ensures { OneSpelling }
{}

/// Lines that are read whole are those of the book that was read, which a transcript can state.
pub fn read_is_whole()
    ensures { ReadIsWhole }
{}

/// The lines of each book that a transcript can state are read as that book.
pub fn whole_is_read()
    ensures { WholeIsRead }
{}

/// A transcript can state each legal book.
pub fn legal_is_stated()
    ensures { LegalIsStated }
{}
