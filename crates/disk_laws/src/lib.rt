//! A run on disks: what a crash leaves of a conforming party's disk, and that a run which reads it
//! back is the run that reports show.
//!
//! Read `specs/DiskCalls.antt` first: what the four disk calls of a record leave. `specs/DiskRun.antt`
//! is the run, `specs/Laws.antt` has its laws. `specs/AnyRun.antt` is the run whose crashes leave
//! anything that a disk may leave.
#![tactic(auto)]

ghost use Rattle.disk_laws.specs.DiskCalls.{CallsAreTheJournals, PointsAreRead, ImagesAreRead, NewDisksAreMade};
ghost use Rattle.disk_laws.specs.AnyRun.{AnyCrashesAreRuns};
ghost use Rattle.disk_laws.specs.Laws.{RunsAreOnDisks, FinishesAreOnDisks, SeedsSignWhole};

/// Whatever a crash leaves at each of the five points among the four disk calls that record a
/// hashkey, what is read back is what was recorded before them or what is recorded behind them.
pub fn crashes_are_read()
    ensures calls { CallsAreTheJournals }
    ensures points { PointsAreRead }
    ensures images { ImagesAreRead }
    ensures new { NewDisksAreMade }
{}

/// A run whose state holds each party's disk, whose acts record by the four disk calls and whose
/// crashes read back what the disk leaves, has the states of the run. Each conforming party's disk
/// is one as `recorded` speaks of, and whatever a crash leaves of it, at any point of an act, is one
/// of the run's crashes.
pub fn runs_are_on_disks()
    ensures runs { RunsAreOnDisks }
    ensures finishes { FinishesAreOnDisks }
{}

/// A run whose crashes come behind any disk call, and leave any bytes that the disk may leave then,
/// is the run after some list of events.
pub fn any_crashes_are_runs()
    ensures { AnyCrashesAreRuns }
{}

/// What the parties of a job sign, with their seeds, has the sizes of its type.
pub fn seeds_sign_whole()
    ensures { SeedsSignWhole }
{}
