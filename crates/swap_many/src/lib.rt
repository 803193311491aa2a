//! Many swaps whose arcs stand on shared chains with shared accounts: the run of a schedule of
//! theirs, as a definition, and its laws.
//!
//! Read `specs/Chains.antt` first, then `specs/Many.antt`, `specs/Kept.antt` and `specs/Laws.antt`.
#![tactic(auto)]

mod chain_accounts;
mod fair;
mod flags;
mod many_event;
mod many_reply;
mod many_world;
mod opening;
mod overdrawn;
mod place;
mod quiet;
mod ticking;
mod touching_arcs;
mod worlds;

ghost use Rattle.swap_many.specs.Laws.{StartFollows, StepsFollow, RepliesFollow, RunsFollow, BooksAreKept};
ghost use Rattle.swap_many.specs.Laws.{UnitsArePlaced, SweptAcceptNothing, ManyFinishesEnd};
ghost use Rattle.swap_many.specs.Opened.{NoLackIsCovered};
ghost use Rattle.swap_many.specs.Along.{UnitsStayPlaced};
ghost use Rattle.swap_many.specs.Way.{ManyFinishesAreSteps};
ghost use Rattle.swap_many.specs.Laws.{EveryFairSwapIsDealt, EverySwapIsSafe, EverySwapIsTransferred, SlotsShowTheClock, SweepsFit, TurnsStayInSwap};

pub use many_event::ManyEvent;
pub use many_reply::ManyReply;
pub use many_world::ManyWorld;
pub use overdrawn::{ManyFault, Overdrawn};
pub use place::Place;

/// A slot's history has its chain's clock.
pub fn every_slot_shows_the_clock()
    ensures { SlotsShowTheClock }
{}

/// After every list of events the states, the clocks, the free accounts and the swept slots are
/// what the chains' histories give, and so are the replies; each swap's book is legal, and its
/// conforming parties are conducted.
pub fn every_run_follows()
    ensures start { StartFollows }
    ensures steps { StepsFollow }
    ensures replies { RepliesFollow }
    ensures runs { RunsFollow }
    ensures kept { BooksAreKept }
{}

/// On every chain all units are in one place, after every list of events and after each step of a
/// fair finish; and on a swept slot no call is accepted.
pub fn all_units_are_placed()
    ensures placed { UnitsArePlaced }
    ensures stay { UnitsStayPlaced }
    ensures fit { SweepsFit }
    ensures swept { SweptAcceptNothing }
{}

/// After a fair finish every chain is above every horizon, each swap's book has ended and is kept,
/// and all units are in one place.
pub fn every_many_finish_ends()
    ensures end { ManyFinishesEnd }
    ensures steps { ManyFinishesAreSteps }
{}

/// The turns of a swap's parties in a round of a fair finish are those of that swap by itself.
pub fn every_swap_turns_alone()
    ensures { TurnsStayInSwap }
{}

/// Where no account lacks units, each has what is set aside from it.
pub fn no_lack_is_covered()
    ensures { NoLackIsCovered }
{}

/// Each swap's conforming parties are as safe as in a run of its own. If all parties of a swap
/// conform and nothing is found of it, all is transferred.
pub fn every_swap_is_safe()
    ensures safe { EverySwapIsSafe }
    ensures transferred { EverySwapIsTransferred }
{}

/// Where every party of a swap conforms and no event comes before, a fair finish deals that swap,
/// whoever takes part in the others.
pub fn every_fair_swap_is_dealt()
    ensures { EveryFairSwapIsDealt }
{}
