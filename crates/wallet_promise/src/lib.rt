//! What is promised to a wallet that asks before each of its calls and keeps nothing but hashkeys;
//! and what it needs to be told of each ledger: all but noise, and of a useless arc the ticks
//! alone.
//!
//! Read `specs/Life.antt` first, then `specs/Laws.antt`, then `specs/Answers.antt`: all that is
//! answered at once. `specs/WithoutNoise.antt` says what is told of a history, and
//! `specs/BookLaws.antt` that it is enough; `specs/ToldLife.antt` and `specs/ToldLaws.antt` promise
//! the same to a wallet that is told so, on ledgers without limits. `specs/Retrying.antt` is the
//! life of a wallet that presents again what was refused, and `specs/Timely.antt` says what a party
//! has to see to that presents only what is useful.
#![tactic(auto)]

ghost use Rattle.wallet_promise.specs.BookLaws.{WhatIsSaidIsDue, EnoughIsDue, EnoughIsUseful, EnoughIsPressing, EnoughRests, MergedSaysEnough};
ghost use Rattle.wallet_promise.specs.BookLaws.{WhatIsSaidRests, TellingsSayTheSame, TicksMayBeMerged, NeededSaysEnough, UselessIsTicks, AllHoldsAsTold, AllOutcomesAreTold, NeededHoldsAsTold};
ghost use Rattle.wallet_promise.specs.BookLaws.{LegalIsChain, TellingIsLegal, OthersAreFew, BalancesAreTold, MergedIsLegal, TellingIsShort, BookCanBeTold};
ghost use Rattle.wallet_promise.specs.BookLaws.{ChainIsNeeded, NeededIsLegal, NeededIsShort, NeededCanBeTold};
ghost use Rattle.wallet_promise.specs.Laws.{LifeConducts, LifeIsSafe, OneHashkey, AskedIsNotKept, KeptMayGo};
ghost use Rattle.wallet_promise.specs.Laws.{NothingIsLost, ToldIsOnce, TwiceIsBroken};
ghost use Rattle.wallet_promise.specs.Laws.{TwoKeysAreBroken, LifeLeavesRoom, PatienceLeavesRoom, AttentiveIsSafe, LedgersHoldKeys};
ghost use Rattle.wallet_promise.specs.Laws.{WatchfulLifeIsSafe};
ghost use Rattle.wallet_promise.specs.Laws.{LifeBegins, OthersContinue, AskingContinues, CallsLand};
ghost use Rattle.wallet_promise.specs.Answers.{AllIsUseful, AllMayGo, AllMayBeKept, EachKeyIsAsked, NoneIsSentTwice, NothingIsLeftOut, RestIsNothing};
ghost use Rattle.wallet_promise.specs.Answers.{AnswersMayGo, AnswersMayBeKept};
ghost use Rattle.wallet_promise.specs.ToldLaws.{AnswersAreTold, BeginningsAreHeard, ToldLifeIsLife, ToldLifeIsToldLife, ToldLifeIsNeededLife};
ghost use Rattle.wallet_promise.specs.ToldLaws.{NothingIsGiven, NothingIsCalledThere, ToldIsLegal, ToldLifeConducts, ToldLifeIsSafe, ToldAttentiveIsSafe};
ghost use Rattle.wallet_promise.specs.ToldLaws.{ToldWatchfulIsSafe};
ghost use Rattle.wallet_promise.specs.Timely.{TimelyIsSafe, MayStopPublishing};
ghost use Rattle.wallet_promise.specs.Landing.{AnsweredIsAccepted, AnsweredOpens, MissedIsNeverPaid, LostIsEnabled};
ghost use Rattle.wallet_promise.specs.Retrying.{RetryingIsTold, RetryingIsPromised, RefusedIsNoise, CountedIsLegal, CountedToldIsLegal};
ghost use Rattle.wallet_promise.specs.Mindful.{MindfulIsSafe, RetryingMindfulIsSafe, RetryingWatchfulIsSafe, ToldMindfulIsSafe};

/// The same is due over books that say the same; a history says what is told of it, and ticks may
/// be told as one.
pub fn noise_is_nothing()
    ensures due { WhatIsSaidIsDue }
    ensures rests { WhatIsSaidRests }
    ensures told { TellingsSayTheSame }
    ensures ticks { TicksMayBeMerged }
{}

/// The same is due over books that say enough: an arc that enters the party, without a publish of
/// the correct terms, may be told as its ticks alone.
pub fn enough_is_told()
    ensures due { EnoughIsDue }
    ensures useful { EnoughIsUseful }
    ensures presses { EnoughIsPressing }
    ensures rests { EnoughRests }
    ensures merged { MergedSaysEnough }
    ensures needed { NeededSaysEnough }
    ensures useless { UselessIsTicks }
{}

/// A party's conduct, lateness, forgeries and outcome are the same in a book and in what is told of
/// it, or in what it needs of it.
pub fn book_is_told()
    ensures told { AllHoldsAsTold }
    ensures outcomes { AllOutcomesAreTold }
    ensures needed { NeededHoldsAsTold }
{}

/// What is told of a legal history is legal, with the replies as they stood. The same holds of a
/// chain without limits and with any noise.
pub fn telling_is_legal()
    ensures chain { LegalIsChain }
    ensures legal { TellingIsLegal }
    ensures few { OthersAreFew }
    ensures balances { BalancesAreTold }
    ensures merged { MergedIsLegal }
    ensures short { TellingIsShort }
    ensures book { BookCanBeTold }
{}

/// What a party needs of a history is legal and short, whatever stands in the contract of a useless
/// arc.
pub fn needed_is_legal()
    ensures chain { ChainIsNeeded }
    ensures legal { NeededIsLegal }
    ensures short { NeededIsShort }
    ensures book { NeededCanBeTold }
{}

/// In every legal book of an accepted deal, a wallet's life keeps its party's conduct. If the
/// wallet was on time and the book has ended, the party is safe. A wallet is on time if it comes to
/// rest within delta of each action that it has to do.
pub fn life_conducts()
    ensures conducts { LifeConducts }
    ensures safe { LifeIsSafe }
    ensures room { LifeLeavesRoom }
    ensures patient { PatienceLeavesRoom }
    ensures attentive { AttentiveIsSafe }
{}

/// Walking away is safe: a wallet may publish late, or nothing, and stop at any time. It is safe if
/// it does two things. Within delta after an arc that leaves its party is triggered, it presents
/// what is useful of its unlocks. Once at the end, past every expiry, it makes its claims and
/// refunds. On time goes by the heights at which its calls land.
pub fn walking_away_is_safe()
    ensures safe { WatchfulLifeIsSafe }
    ensures mindful { MindfulIsSafe }
    ensures timely { TimelyIsSafe }
    ensures stops { MayStopPublishing }
{}

/// What is answered is accepted, or opens in time, wherever it lands by the height that was counted
/// on.
pub fn answered_is_accepted()
    ensures unlocks { AnsweredIsAccepted }
    ensures publishes { AnsweredOpens }
{}

/// A hashkey that an entering arc doesn't take can't make a whole deal any more. Whoever has lost an
/// arc has every unlock enabled, whatever it withheld.
pub fn withholding_is_right()
    ensures missed { MissedIsNeverPaid }
    ensures lost { LostIsEnabled }
{}

/// A wallet that presents again what was refused lives a told life, and keeps all that such a life
/// is promised; and it is safe where it was watchful, or mindful.
pub fn retrying_is_told()
    ensures told { RetryingIsTold }
    ensures promised { RetryingIsPromised }
    ensures watchful { RetryingWatchfulIsSafe }
    ensures mindful { RetryingMindfulIsSafe }
    ensures told_mindful { ToldMindfulIsSafe }
{}

/// A party's refused unlocks, claims and refunds are noise: they needn't be told, and without them
/// what is told is legal.
pub fn refused_is_noise()
    ensures noise { RefusedIsNoise }
    ensures legal { CountedIsLegal }
    ensures told { CountedToldIsLegal }
{}

/// All unlock calls for a lock carry one hashkey, which was kept before it went out; none is kept
/// for a lock that has one, and none is lost.
pub fn one_hashkey()
    ensures one { OneHashkey }
    ensures asked { AskedIsNotKept }
    ensures goes { KeptMayGo }
    ensures lost { NothingIsLost }
    ensures shown { LedgersHoldKeys }
{}

/// What is answered may go out, and is new where what was told holds what landed before it; a
/// publish that lands twice breaks conduct, and so do two hashkeys for a lock.
pub fn answers_may_go()
    ensures go { AnswersMayGo }
    ensures keep { AnswersMayBeKept }
    ensures once { ToldIsOnce }
    ensures twice { TwiceIsBroken }
    ensures keys { TwoKeysAreBroken }
{}

/// A life begins with nothing and goes on by entries of others, askings and calls that land: all
/// that a wallet does is such a life.
pub fn life_continues()
    ensures begins { LifeBegins }
    ensures others { OthersContinue }
    ensures asks { AskingContinues }
    ensures lands { CallsLand }
{}

/// Of all that is answered at once each call may go out and each hashkey may be kept; nothing that
/// may is left out but a publish that was sent, and what can only hurt.
pub fn answers_are_whole()
    ensures go { AllMayGo }
    ensures keep { AllMayBeKept }
    ensures once { NoneIsSentTwice }
    ensures all { NothingIsLeftOut }
    ensures asked { EachKeyIsAsked }
    ensures useful { AllIsUseful }
    ensures rest { RestIsNothing }
{}

/// What is answered goes by what is said: a wallet that leaves out noise, and all but the ticks of
/// useless arcs, lives a life that is told all.
pub fn answers_are_told()
    ensures same { AnswersAreTold }
    ensures heard { BeginningsAreHeard }
    ensures whole { ToldLifeIsLife }
    ensures told { ToldLifeIsToldLife }
    ensures needed { ToldLifeIsNeededLife }
    ensures given { NothingIsGiven }
    ensures useless { NothingIsCalledThere }
{}

/// On a chain without limits, with any noise of others, and with anything in the contracts of
/// useless arcs, a told life conducts its party. The party is safe where it was on time and the
/// book has ended, and where it was watchful.
pub fn told_life_conducts()
    ensures legal { ToldIsLegal }
    ensures conducts { ToldLifeConducts }
    ensures safe { ToldLifeIsSafe }
    ensures attentive { ToldAttentiveIsSafe }
    ensures watchful { ToldWatchfulIsSafe }
{}
