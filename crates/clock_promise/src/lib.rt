//! What is promised to a wallet whose maker has measured five numbers: how far ledgers are apart,
//! how deep an entry lies before it counts, how often the wallet asks, how long it may be down, and
//! how long a call takes to land. Where their sum is at most delta, the wallet is never late.
//!
//! Read `specs/Polls.antt` first, then `specs/Laws.antt`.
#![tactic(auto)]

ghost use Rattle.clock_promise.specs.Laws.{QuickIsPrompt, QuickIsSafe, ObedientIsPrompt, ObedientIsSafe, DueIsOnTime};
ghost use Rattle.clock_promise.specs.Laws.{MindfulIsThere, MindfulThereIsSafe};

/// A wallet that asks at each poll, hands over its hashkeys and presents what presses is never late
/// with an unlock or a claim, and never underwater unless it was forged. It may publish as late as
/// it likes, or nothing.
pub fn quick_is_safe()
    ensures prompt { QuickIsPrompt }
    ensures safe { QuickIsSafe }
    ensures obedient { ObedientIsPrompt }
    ensures obedient_safe { ObedientIsSafe }
    ensures due { DueIsOnTime }
{}

/// A mindful wallet is safe where only the ledgers are bounded that enter its party.
pub fn mindful_is_safe()
    ensures all { MindfulIsThere }
    ensures safe { MindfulThereIsSafe }
{}
