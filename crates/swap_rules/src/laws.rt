//! The laws of a swap: each is a function without a body, and its contract is the law.

ghost use Rattle.swap_rules.specs.Laws.{UnitsAreKept, AcceptedIsWellSized, EveryBookIsSafe, AllIsTransferred, WithoutFindingsAllIsTransferred};
ghost use Rattle.swap_rules.specs.Laws.{NothingFound, UnnamedIsSafe};
ghost use Rattle.swap_rules.specs.Laws.{NothingIsForged, KnowledgeConducts, LearningIsSound, DueIsSound, RulesLeaveRoom, RoundsAreInTime};
ghost use Rattle.swap_rules.specs.Laws.{RoundsAreOnTime, RacesAreInTime, AllIsDealt, RacesAreDealt};
ghost use Rattle.swap_rules.specs.Rest.{TicksMakeNothingDue};
ghost use Rattle.swap_rules.specs.Walking.{WatchfulIsSafe, OnTimeIsWatchful, UnpublishedLosesNothing, SilentLosesNothing, LatePublishIsIdle};
ghost use Rattle.swap_rules.specs.Useful.{UsefulIsDue, OnlyHarmIsLeftOut, EarlyIsUseful, NothingUsefulPresses, TicksMakeNothingUseful};
ghost use Rattle.swap_rules.specs.Useful.{HigherIsLess, TakenIsUseful};
ghost use Rattle.swap_rules.specs.Walking.{LatePublishIsSafe, LateUnlockHasRefunds, LateAskerHasRefunds, UnrevealedLosesNothing};

/// At every prefix of a legal history each unit stands in one place: in the party's balance, the
/// counterparty's or the contract.
pub fn units_are_kept()
    ensures { UnitsAreKept }
{}

/// An accepted deal's lists have the lengths, and its numbers the ranges, that every call asks for.
pub fn accepted_is_well_sized()
    ensures { AcceptedIsWellSized }
{}

/// The law of safety, whatever the other parties do. A party that is conducted and nowhere late has
/// the whole amount of each leaving arc that isn't triggered. If besides nothing is forged in its
/// name there, it doesn't end underwater.
pub fn every_book_is_safe()
    ensures { EveryBookIsSafe }
{}

/// Walking away is safe: a conducted party may publish late, or not at all. Once an arc that leaves
/// it is triggered, it must unlock in time. At some time it must claim, and ask back what it
/// published. A party that is nowhere late does both.
pub fn walking_away_is_safe()
    ensures safe { WatchfulIsSafe }
    ensures on_time { OnTimeIsWatchful }
    ensures named { LatePublishIsSafe }
    ensures stranded { LateUnlockHasRefunds }
    ensures asker { LateAskerHasRefunds }
{}

/// A party that has published nothing has lost nothing, whatever it does or leaves out. A party
/// that makes no call ends without a deal. A leader that has presented no hashkey for its lock has
/// lost nothing either.
pub fn unpublished_loses_nothing()
    ensures nothing { UnpublishedLosesNothing }
    ensures silent { SilentLosesNothing }
    ensures unrevealed { UnrevealedLosesNothing }
{}

/// A publish above the height by which contracts open makes nobody ready, and no conducted party
/// unlocks it.
pub fn late_publish_is_idle()
    ensures { LatePublishIsIdle }
{}

/// Where all parties conform, nobody is late and nothing is forged, every arc is claimed in time,
/// every counterparty has the arc's amount, and every outcome is the whole deal.
pub fn all_is_transferred()
    ensures conforms { AllIsTransferred }
    ensures found { WithoutFindingsAllIsTransferred }
{}

/// An empty list of findings gives the premises of the other laws.
pub fn nothing_found()
    ensures { NothingFound }
{}

/// What findings mean, whatever the other parties do. A conforming party without a finding against
/// it has its refunds. If besides no finding stands in its name, it doesn't end underwater.
pub fn unnamed_is_safe()
    ensures { UnnamedIsSafe }
{}

/// Where every party is conducted, nothing is forged in anybody's name.
pub fn nothing_is_forged()
    ensures { NothingIsForged }
{}

/// A party that acts on what it knows is conducted in every book that holds its knowledge and no
/// further call of it; learning and due calls keep it so, and its entries never fill a ledger.
pub fn knowledge_conducts()
    ensures conducts { KnowledgeConducts }
    ensures learns { LearningIsSound }
    ensures calls { DueIsSound }
    ensures room { RulesLeaveRoom }
{}

/// In rounds, an enabled action is done within a round and its slack. If these are within delta, no
/// conforming party is late.
pub fn rounds_are_in_time()
    ensures in_time { RoundsAreInTime }
    ensures on_time { RoundsAreOnTime }
    ensures races { RacesAreInTime }
{}

/// Where all parties are conducted and none is late, nothing is found and every outcome is the
/// whole deal.
pub fn all_is_dealt()
    ensures books { AllIsDealt }
    ensures races { RacesAreDealt }
{}

/// A party for which nothing is due may rest: ticks make nothing due for it up to the least expiry
/// of a refund that it waits for.
pub fn ticks_make_nothing_due()
    ensures { TicksMakeNothingDue }
{}

/// Of what is due a wallet leaves out only what can hurt its party, and nothing at all as long as
/// what it presents lands by the height by which contracts open. Once it has lost an arc, each
/// unlock that is accepted is useful.
pub fn only_harm_is_left_out()
    ensures due { UsefulIsDue }
    ensures harm { OnlyHarmIsLeftOut }
    ensures early { EarlyIsUseful }
    ensures presses { NothingUsefulPresses }
    ensures ticks { TicksMakeNothingUseful }
    ensures higher { HigherIsLess }
    ensures taken { TakenIsUseful }
{}
