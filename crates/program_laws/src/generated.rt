//! The run of what `gen` writes of a number is the one that the number's summary tells of.

ghost use Rattle.program_laws.specs.Generated.{GeneratedRunsAreSummed};

/// A run of what `gen` writes writes the report of the book that the summary tells of.
pub fn generated_runs_are_summed()
    ensures { GeneratedRunsAreSummed }
{}
