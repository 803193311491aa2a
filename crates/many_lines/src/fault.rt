//! What is said against a line.

ghost use Rattle.std.specs.Prelude.{◌≡◌, []};
ghost use Rattle.command_input.specs.Refusal.{fault_with_names};
ghost use Rattle.many_lines.specs.Heading.{bad_many_line, by_field};

use command_input::{HeaderFault, OfferFault, Reason, Refusal, with_names};
use std::alloc::Global;
use swap_base::{Fault, Listed};
use transcript_book::WordFault;

/// The fault without names, since its reason speaks of no party.
pub(crate) fn nameless(alloc: Global, fault: OfferFault) -> HeaderFault
    ensures { result ≡ fault_with_names [] fault }
{
    with_names(fault, Listed::empty(alloc))
}

/// The line isn't of the form that stands next.
pub(crate) fn bad(alloc: Global, line: u32) -> HeaderFault
    ensures { result ≡ Fault.Refused (bad_many_line line) }
{
    Fault::Refused(Refusal {
        reason: Reason::BadLine(line),
        names: Listed::empty(alloc),
    })
}

/// The fault of a line one of whose fields says nothing: the line has another form.
pub(crate) fn by_field(alloc: Global, line: u32, fault: WordFault) -> HeaderFault
    ensures { result ≡ by_field line fault }
{
    match fault {
        Fault::Refused(_) => bad(alloc, line),
        Fault::NoMemory => Fault::NoMemory,
    }
}
