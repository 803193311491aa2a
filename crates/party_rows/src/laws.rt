//! The law of deals of rows.

ghost use Rattle.party_rows.specs.Laws.{DealtIsMade, DealtLineIsMade};

/// With the rows that the parties' seeds give, the deal is the one that is made with these seeds.
pub fn dealt_is_made()
    ensures { DealtIsMade }
{}

/// The line of a deal that is dealt is the header line of the job that is made, as a transcript
/// shows it.
pub fn dealt_line_is_made()
    ensures { DealtLineIsMade }
{}
