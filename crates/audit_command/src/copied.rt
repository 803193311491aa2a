//! Copies of reasons, for a reader that tells each later line the same.

ghost use Rattle.std.specs.Prelude.{◌≡◌, IfOk};

use command_input::{Reason, Refusal};
use swap_base::{NoMemory, TryCopy};

fn copy_reason(reason: &Reason) -> Result<Reason, NoMemory>
    ensures { IfOk result (λ r. r ≡ reason.now) }
{
    match reason {
        Reason::NotJson(line) => Ok(Reason::NotJson(*line)),
        Reason::Missing(line, field) => Ok(Reason::Missing(*line, field.copy()?)),
        Reason::WrongKind(line, field) => Ok(Reason::WrongKind(*line, field.copy()?)),
        Reason::UnknownField(line, field) => Ok(Reason::UnknownField(*line, field.copy()?)),
        Reason::BadName(line, name) => Ok(Reason::BadName(*line, name.copy()?)),
        Reason::Duplicate(line, name) => Ok(Reason::Duplicate(*line, name.copy()?)),
        Reason::Unknown(line, name) => Ok(Reason::Unknown(*line, name.copy()?)),
        Reason::OverLimit(line, field, n) => Ok(Reason::OverLimit(*line, field.copy()?, *n)),
        Reason::WrongHex(line, field) => Ok(Reason::WrongHex(*line, field.copy()?)),
        Reason::NotAdjacent(line) => Ok(Reason::NotAdjacent(*line)),
        Reason::ConformingCall(line) => Ok(Reason::ConformingCall(*line)),
        Reason::EventInRace(line) => Ok(Reason::EventInRace(*line)),
        Reason::SelfArc(arc) => Ok(Reason::SelfArc(*arc)),
        Reason::Parallel(first, second) => Ok(Reason::Parallel(*first, *second)),
        Reason::NotStrong(set) => Ok(Reason::NotStrong(set.copy()?)),
        Reason::ManyLeaders(count) => Ok(Reason::ManyLeaders(*count)),
        Reason::NotFeedback(cycle) => Ok(Reason::NotFeedback(cycle.copy()?)),
        Reason::BoundTooSmall(given, needed) => Ok(Reason::BoundTooSmall(*given, *needed)),
        Reason::StartTooSoon(start, delta) => Ok(Reason::StartTooSoon(*start, *delta)),
        Reason::WrongTimelock(arc, given, due) => Ok(Reason::WrongTimelock(*arc, *given, *due)),
        Reason::NoSeed(party) => Ok(Reason::NoSeed(*party)),
        Reason::WrongWallet(party, lock) => Ok(Reason::WrongWallet(*party, *lock)),
        Reason::BadLine(line) => Ok(Reason::BadLine(*line)),
        Reason::CutShort => Ok(Reason::CutShort),
        Reason::BadReply(arc, at, old, new) => Ok(Reason::BadReply(*arc, *at, *old, *new)),
        Reason::TooManyLeaders(group, count) => Ok(Reason::TooManyLeaders(*group, *count)),
        Reason::NoAccount(swap, arc) => Ok(Reason::NoAccount(*swap, *arc)),
        Reason::Overdrawn(chain, name, have, wanted) => Ok(Reason::Overdrawn(
            *chain,
            name.copy()?,
            *have,
            *wanted,
        )),
        Reason::NotConforming(line) => Ok(Reason::NotConforming(*line)),
    }
}

/// A copy of a refusal: its reason with its names.
pub(crate) fn copy_refusal(refusal: &Refusal) -> Result<Refusal, NoMemory>
    ensures { IfOk result (λ r. r ≡ refusal.now) }
{
    Ok(Refusal {
        reason: copy_reason(&refusal.reason)?,
        names: refusal.names.copy()?,
    })
}
