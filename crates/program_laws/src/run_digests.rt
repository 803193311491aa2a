//! The calls of a run hold digests, as the program's own types do: what an audit asks of a book
//! beside that it is legal.

ghost use Rattle.program_laws.specs.RunDigests.{ProgramKeepsDigests, RunsHoldDigests};

/// The program's strategies answer calls that hold digests, where those that they are shown do.
pub fn program_keeps_digests()
    ensures { ProgramKeepsDigests }
{}

/// Every call of a run's book holds digests, where strategies answer by a rule whose calls hold
/// digests.
pub fn runs_hold_digests()
    ensures { RunsHoldDigests }
{}
