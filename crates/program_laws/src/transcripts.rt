//! What is written of a job and its book is read back, and tells an auditor just what it told the
//! writer.

ghost use Rattle.program_laws.specs.Digests.{LegalIsTyped};
ghost use Rattle.program_laws.specs.Transcripts.{RoundTrip, SameReport};

/// Every entry of a legal book whose calls hold digests is one of the program's own types.
pub fn legal_is_typed()
    ensures { LegalIsTyped }
{}

/// An auditor reads of a transcript just the job and the book that were written.
pub fn round_trip()
    ensures { RoundTrip }
{}

/// An audit of a transcript writes the very report of the job and the book that were written.
pub fn same_report()
    ensures { SameReport }
{}
