//! Why a text isn't judged.

ghost use Rattle.std.specs.Prelude.{◌≡◌};
ghost use Rattle.party_judge.specs.Faults.{refusal_fault};

use command_input::{HeaderFault, Refusal};
use swap_base::{Digest, Fault};

/// Why a text isn't judged.
#[derive(Debug, Drop)]
pub enum JudgeReason {
    /// The first reason against a line, or the first reply that isn't the table's. Lines are counted
    /// from the text's first.
    Refused(Refusal),
    /// What stands in the text has this digest, and a party told another one.
    NotAgreed(Digest),
}

/// Why a text isn't judged: a reason, or want of memory.
pub type JudgeFault = Fault<JudgeReason>;

/// The fault of a refusal.
pub(crate) fn refusal_fault(fault: HeaderFault) -> JudgeFault
    ensures { result ≡ refusal_fault fault }
{
    match fault {
        Fault::Refused(refusal) => Fault::Refused(JudgeReason::Refused(refusal)),
        Fault::NoMemory => Fault::NoMemory,
    }
}
