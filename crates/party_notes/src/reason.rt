//! Why an input isn't answered.

ghost use Rattle.std.specs.Prelude.{◌≡◌};
ghost use Rattle.party_notes.specs.Faults.{reason_fault, refusal_fault};

use command_input::{HeaderFault, OfferFault, Refusal, nameless};
use std::alloc::Global;
use swap_base::{Digest, Fault};

/// Why an input isn't answered.
#[derive(Debug, Drop)]
pub enum AnswerReason {
    /// The first reason against a line. Lines are counted from the input's first.
    Refused(Refusal),
    /// What stands in the input has this digest, and not the one that was agreed on.
    NotAgreed(Digest),
}

/// Why an input isn't answered: a reason, or want of memory.
pub type AnswerFault = Fault<AnswerReason>;

/// The fault of a refusal.
pub fn refusal_fault(fault: HeaderFault) -> AnswerFault
    ensures { result ≡ refusal_fault fault }
{
    match fault {
        Fault::Refused(refusal) => Fault::Refused(AnswerReason::Refused(refusal)),
        Fault::NoMemory => Fault::NoMemory,
    }
}

/// The fault of a reason that speaks of no party by its number.
pub(crate) fn reason_fault(alloc: Global, fault: OfferFault) -> AnswerFault
    ensures { result ≡ reason_fault fault }
{
    match fault {
        Fault::Refused(reason) => Fault::Refused(AnswerReason::Refused(nameless(alloc, reason))),
        Fault::NoMemory => Fault::NoMemory,
    }
}
