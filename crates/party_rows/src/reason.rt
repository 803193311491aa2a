//! Why no deal is made.

ghost use Rattle.std.specs.Prelude.{◌≡◌};
ghost use Rattle.party_rows.specs.Inside.{deal_fault_by_refusal};

use command_input::{HeaderFault, Refusal};
use swap_base::{ByteText, Fault};

/// Why no deal is made.
#[derive(Debug, Drop)]
pub enum DealReason {
    /// As a plain job's header is refused, or against a line.
    Refused(Refusal),
    /// The first party without a row, by its name.
    NoRow(ByteText),
}

/// Why no deal is made: a reason, or want of memory.
pub type DealFault = Fault<DealReason>;

/// The fault of a refusal.
pub(crate) fn deal_fault_by_refusal(fault: HeaderFault) -> DealFault
    ensures { result ≡ deal_fault_by_refusal fault }
{
    match fault {
        Fault::Refused(refusal) => Fault::Refused(DealReason::Refused(refusal)),
        Fault::NoMemory => Fault::NoMemory,
    }
}
