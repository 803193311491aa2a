//! What a party has at the end, in units: on each arc next to it the whole amount, or what it was
//! paid.
//!
//! Read `specs/Units.antt`; `specs/Heights.antt` says from what height on it has them.
#![tactic(auto)]

ghost use Rattle.swap_units.specs.Heights.{OnTimeHasUnitsBy, OnTimeIsWhole};
ghost use Rattle.swap_units.specs.Units.{AboveWaterIsPaid, GotIsPaid, OutcomesAreUnits, SafeIsWhole, UnpublishedIsWhole, WatchfulIsWhole};
ghost use Rattle.swap_units.specs.Units.{UnendangeredIsPaid, UnstrandedIsWhole};

/// In every legal book of an accepted deal, ended or not, a conducted and watchful party has the
/// whole amount of each leaving arc that isn't triggered. If nothing is forged in its name, either
/// it has the whole amount of each arc that leaves it, or that of each arc that enters it.
pub fn units_are_whole()
    ensures watchful { WatchfulIsWhole }
    ensures safe { SafeIsWhole }
    ensures unpublished { UnpublishedIsWhole }
{}

/// What an outcome says in units. A correct arc that was claimed is paid in full, whatever its
/// payer did; so is each entering arc of a party that lost an arc and isn't underwater.
pub fn outcomes_are_units()
    ensures got { GotIsPaid }
    ensures above { AboveWaterIsPaid }
    ensures outcomes { OutcomesAreUnits }
{}

/// What findings say in units: of a conforming party that no finding endangers, strands or names.
pub fn unfound_is_whole()
    ensures paid { UnendangeredIsPaid }
    ensures whole { UnstrandedIsWhole }
{}

/// When the units are there: each is back, or paid, within delta of the height from which the call
/// for it was due, and by the horizon.
pub fn units_come_by()
    ensures by { OnTimeHasUnitsBy }
    ensures whole { OnTimeIsWhole }
{}
