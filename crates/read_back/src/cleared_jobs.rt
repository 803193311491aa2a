//! What is written of a group that is cleared of wishes is a plain job, once each party has a seed.

ghost use Rattle.read_back.specs.ClearedJobs.{ClearedGroupsAreMade, ClearedGroupsArePlainJobs, ClearedGroupsArePlainOffers};
ghost use Rattle.read_back.specs.ClearedJobs.{OnlySeedsAreAdded, SeededLineIsOneLine, SeededLineReads, SeededTextIsPlainJob};

/// A plain job with seeds says of the group what its own line says.
pub fn only_seeds_are_added()
    ensures { OnlySeedsAreAdded }
{}

/// A group's line with seeds is text, and is read as what it says.
pub fn seeded_line_reads()
    ensures { SeededLineReads }
{}

/// A group's line with seeds holds no line feed.
pub fn seeded_line_is_one_line()
    ensures { SeededLineIsOneLine }
{}

/// Whatever text reads so is a plain job that `make` takes, and its deal is the group's.
pub fn seeded_text_is_plain_job()
    ensures { SeededTextIsPlainJob }
{}

/// The line of each group that is cleared, with a seed for each party, is a plain job that `make`
/// takes.
pub fn cleared_groups_are_plain_jobs()
    ensures { ClearedGroupsArePlainJobs }
{}

/// That line alone is an input of `make`, with no event.
pub fn cleared_groups_are_plain_offers()
    ensures { ClearedGroupsArePlainOffers }
{}

/// What `make` writes of that input is the line of the job that is made of the group's.
pub fn cleared_groups_are_made()
    ensures { ClearedGroupsAreMade }
{}
