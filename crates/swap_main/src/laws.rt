//! Where the text of a run is determined.

ghost use Rattle.swap_main.specs.Laws.{SameWithoutStrategies, RulesDecide};

/// What is written of a run is determined where nobody follows a strategy, and where a rule gives
/// each answer, as those of the program's kit do.
pub fn the_text_is_determined()
    ensures plain { SameWithoutStrategies }
    ensures decided { RulesDecide }
{}
