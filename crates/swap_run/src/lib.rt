//! The run of a schedule, as a definition, and its laws: whatever the others do, every conforming
//! party keeps its conduct. Each law is a function without a body; its contract is the law. And the
//! parties that don't conform: what scripts and strategies do next, and the program's strategies
//! under their names.
//!
//! Read `specs/Run.antt` first, then `specs/Laws.antt`; `specs/Fair.antt` has the fair finish of a
//! run, and `specs/FairLaws.antt` its laws, `specs/Steps.antt` its steps in their order.
//! `specs/Asked.antt` says what strategies are asked, and `specs/Called.antt` takes a step apart,
//! for swaps whose ledgers stand on shared chains.
//!
//! `specs/View.antt` says what a script or a strategy is shown and what it may answer,
//! `specs/Script.antt` and `specs/Rules.antt` what a script and the program's strategies do, and
//! `specs/Program.antt` under which names. A `Planner` holds the plan of such a party;
//! `specs/Shown.antt` says when a plan is what a party may be shown.
#![tactic(auto)]

mod kit;
mod planner;
mod replayed;
mod rules;
mod script;
mod strategy;

ghost use Rattle.swap_run.specs.Asked.{RunsAskInOrder, FinishesAskInOrder, RunsWithoutStrategies, FinishesWithoutStrategies, RulesDecideRuns};
ghost use Rattle.swap_run.specs.Asked.{RulesDecideFinishes};
ghost use Rattle.swap_run.specs.CalledLaws.{CallsSplit, CallsArePlaced, PassedIsGood, NoneSwept, StepsOnAreGood};
ghost use Rattle.swap_run.specs.FairLaws.{FinishesAreRuns, FinishesEnd, FinishesAreGood, FinishHeights, FairIsDealt, ActsComeToRest, ActsAreEnough};
ghost use Rattle.swap_run.specs.FairLaws.{OthersRest, TurnsAreGood, RoundsAreGood, RoundsRaise, RoundsCountDown, FinishStops, FinishContinues};
ghost use Rattle.swap_run.specs.Steps.{FinishIsSteps};
ghost use Rattle.swap_run.specs.Laws.{StartIsGood, StepsAreGood, DueCallsCanBeMade, GoodIsKept, RunsAreKept, UnlocksAreSigned};

pub use kit::{Kit, Strategies};
pub use planner::Planner;
pub use rules::{greedy_rule, replayer_rule, silent_rule, spoiler_rule};
pub use script::Script;
pub use strategy::{Rule, Strategy};

/// What every state of a run keeps: the book is legal, and each conforming party knows some prefix
/// of each ledger that holds all its own calls, which keep its rules. What it makes, the ledger
/// takes.
pub fn every_state_is_good()
    ensures start { StartIsGood }
    ensures steps { StepsAreGood }
    ensures calls { DueCallsCanBeMade }
{}

/// After every list of events, crashes among them, the book is legal and every conforming party is
/// conducted. All unlock calls of a conforming party for one lock carry one hashkey, the one that
/// it signed.
pub fn every_run_is_kept()
    ensures states { GoodIsKept }
    ensures runs { RunsAreKept }
    ensures signed { UnlocksAreSigned }
{}

/// A turn ends. A conforming party acts until nothing is due; one act for each call that it may
/// make is enough. A script or a strategy acts once, and any other party does nothing.
pub fn every_turn_ends()
    ensures rest { ActsComeToRest }
    ensures enough { ActsAreEnough }
    ensures others { OthersRest }
    ensures good { TurnsAreGood }
{}

/// A round raises each ledger that isn't above the horizon by one height, so that the rounds that
/// are left count down.
pub fn every_round_raises()
    ensures raise { RoundsRaise }
    ensures down { RoundsCountDown }
    ensures good { RoundsAreGood }
{}

/// A fair finish ends with each ledger above the horizon, and keeps what every run keeps: it is
/// made of events of a run. It is rounds until no ledger is low.
pub fn every_finish_ends()
    ensures end { FinishesEnd }
    ensures run { FinishesAreRuns }
    ensures steps { FinishIsSteps }
    ensures good { FinishesAreGood }
    ensures heights { FinishHeights }
    ensures stops { FinishStops }
    ensures goes_on { FinishContinues }
{}

/// Where every party conforms and no event comes before, a fair finish deals: nothing is found, and
/// every outcome is the whole deal.
pub fn a_fair_finish_is_dealt()
    ensures { FairIsDealt }
{}

/// A run asks the strategies' answers in order and looks at no other: it is the same for all that
/// agree with those that it asked. Where no party follows a strategy it is the same for all, and
/// where a rule decides each answer the rule decides the run.
pub fn every_run_asks_in_order()
    ensures runs { RunsAskInOrder }
    ensures finishes { FinishesAskInOrder }
    ensures no_strategy { RunsWithoutStrategies }
    ensures no_strategy_fair { FinishesWithoutStrategies }
    ensures decided { RulesDecideRuns }
    ensures decided_fair { RulesDecideFinishes }
{}

/// What an event does is what it does before its call, the call, and what the call's party then
/// knows. Where a call leaves no entry on a swept slot, the state stays good.
pub fn every_event_splits()
    ensures split { CallsSplit }
    ensures placed { CallsArePlaced }
    ensures passed { PassedIsGood }
{}

/// Where slots are swept a step leaves the state good; where none is, steps and turns are those of
/// a run.
pub fn every_swept_step_is_good()
    ensures none { NoneSwept }
    ensures good { StepsOnAreGood }
{}
