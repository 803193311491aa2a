//! Laws of what the programs say. An audit of the transcript that a run or a race wrote writes the
//! report that the run or the race writes. What a refusal shows is true of the header that the
//! input proposes: no arc leaves the set that `NotStrong` names, and the cycle that `NotFeedback`
//! names is a cycle of followers. Of a wallet's ledgers each is told by itself, and what is told
//! says enough.
//!
//! Read `specs/Laws.antt` first; it stands on `specs/Transcripts.antt` (a transcript is read back)
//! and `specs/RunDigests.antt`. `specs/Generated.antt` is of runs of what `gen` writes,
//! `specs/RefusalLaws.antt` of refusals, and `specs/Apart.antt`, `specs/Enough.antt`,
//! `specs/Written.antt` and `specs/Bounded.antt` of what is told.
#![tactic(auto)]

mod generated;
mod run_digests;
mod transcripts;

ghost use Rattle.program_laws.specs.RefusalLaws.{NamedCyclesAreOfFollowers, NamedSetsAreClosed};
ghost use Rattle.program_laws.specs.Apart.{EachIsToldAlone};
ghost use Rattle.program_laws.specs.Bounded.{BriefIsBounded};
ghost use Rattle.program_laws.specs.Enough.{LinesSayEnough};
ghost use Rattle.program_laws.specs.Written.{LinesAreHeard, WrittenIsSaid};
ghost use Rattle.program_laws.specs.Laws.{AuditsTellTheRace, AuditsTellTheRun, ProgramRacesAreAudited, ProgramRunsAreAudited, RacesAreAudited};
ghost use Rattle.program_laws.specs.Laws.{RunsAreAudited};

pub use generated::generated_runs_are_summed;
pub use run_digests::{program_keeps_digests, runs_hold_digests};
pub use transcripts::{legal_is_typed, round_trip, same_report};

/// A set that a refusal names is closed.
pub fn named_sets_are_closed()
    ensures { NamedSetsAreClosed }
{}

/// A cycle that a refusal names is one of followers.
pub fn named_cycles_are_of_followers()
    ensures { NamedCyclesAreOfFollowers }
{}

/// Of each ledger is told what its own lines tell, whatever the lines of other ledgers are.
pub fn each_is_told_alone()
    ensures { EachIsToldAlone }
{}

/// What is told of a book by its lines says enough of it to the party, which hears it.
pub fn lines_say_enough()
    ensures enough { LinesSayEnough }
    ensures heard { LinesAreHeard }
    ensures written { WrittenIsSaid }
{}

/// The lines of ledgers that are told briefly fit into what a party's program reads.
pub fn brief_is_bounded()
    ensures { BriefIsBounded }
{}

/// An audit of a run's transcript writes the run's report, where strategies answer by a rule.
pub fn runs_are_audited()
    ensures { RunsAreAudited }
{}

/// An audit of a race's transcript writes the race's report.
pub fn races_are_audited()
    ensures { RacesAreAudited }
{}

/// Wherever the program is done with a run, its transcript is audited as the run is reported.
pub fn program_runs_are_audited()
    ensures { ProgramRunsAreAudited }
{}

/// Wherever the program is done with an audit of a run's transcript, it wrote what the run writes.
pub fn audits_tell_the_run()
    ensures { AuditsTellTheRun }
{}

/// Wherever the program is done with a race, its transcript is audited as the race is reported.
pub fn program_races_are_audited()
    ensures { ProgramRacesAreAudited }
{}

/// Wherever the program is done with an audit of a race's transcript, it wrote what the race
/// writes.
pub fn audits_tell_the_race()
    ensures { AuditsTellTheRace }
{}
