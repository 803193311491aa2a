//! A reason with the names of the parties that it may speak of.

ghost use Rattle.std.specs.Prelude.{◌≡◌, []};
ghost use Rattle.command_input.specs.Refusal.{fault_with_names, refusal};

use crate::reason::{OfferFault, Reason};
use std::alloc::Global;
use swap_base::{ByteText, Fault, Listed};

/// Why an input is refused. A reason speaks of parties by their numbers, so that it goes with their
/// names.
#[derive(Debug, Drop)]
pub struct Refusal {
    pub reason: Reason,
    /// The names of the parties by their numbers; none where the input has no header within its
    /// limits.
    pub names: Listed<ByteText>,
}

/// Why an input gives nothing: a refusal, or want of memory.
pub type HeaderFault = Fault<Refusal>;

/// The refusal for a reason that mentions no party by its number.
pub fn nameless(alloc: Global, reason: Reason) -> Refusal
    ensures { result ≡ refusal [] reason }
{
    Refusal {
        reason,
        names: Listed::empty(alloc),
    }
}

/// The fault with the names of the parties.
pub fn with_names(fault: OfferFault, names: Listed<ByteText>) -> HeaderFault
    ensures { result ≡ fault_with_names names fault }
{
    match fault {
        Fault::Refused(reason) => Fault::Refused(Refusal { reason, names }),
        Fault::NoMemory => Fault::NoMemory,
    }
}
