//! Why the reading of an input stopped.

ghost use Rattle.std.specs.Prelude.{◌≡◌, []};
ghost use Rattle.command_input.specs.Faults.{named_fault};

use crate::reason::Reason;
use crate::refusal::{Refusal, nameless};
use std::alloc::Global;
use swap_base::{ByteText, Fault, Listed, NoMemory};
use swap_io::{DrainFault, LineFault};

/// Why the reading of an input stopped: something is said against it, or one of the faults of
/// reading.
#[derive(Debug, Drop)]
pub enum InputFault<R> {
    Refused(R),
    /// A call of the source failed.
    ReadFault,
    /// The input is longer than the limit.
    TooLong,
    NoMemory,
}

impl InputFault<Reason> {
    /// The fault with the names of the parties that its reason may speak of.
    pub fn with_names(self, names: Listed<ByteText>) -> InputFault<Refusal>
        ensures { result ≡ named_fault names self }
    {
        match self {
            InputFault::Refused(reason) => InputFault::Refused(Refusal { reason, names }),
            InputFault::ReadFault => InputFault::ReadFault,
            InputFault::TooLong => InputFault::TooLong,
            InputFault::NoMemory => InputFault::NoMemory,
        }
    }
}

/// What is said against an input without a line.
pub fn no_line(alloc: Global) -> InputFault<Refusal>
    ensures { result ≡ InputFault.Refused (record { reason = Reason.NotJson 1; names = [] }) }
{
    InputFault::Refused(nameless(alloc, Reason::NotJson(1)))
}

impl<R> From<LineFault> for InputFault<R> {
    ghost use Rattle.std.specs.Prelude.{◌≡◌};
    ghost use Rattle.command_input.specs.Faults.{of_line};

    ghost from_gives = { λ l e. e ≡ of_line l };

    fn from(e: LineFault) -> InputFault<R> {
        match e {
            LineFault::ReadFault => InputFault::ReadFault,
            LineFault::TooLong => InputFault::TooLong,
            LineFault::NoMemory => InputFault::NoMemory,
        }
    }
}

impl<R> From<DrainFault> for InputFault<R> {
    ghost use Rattle.std.specs.Prelude.{◌≡◌};
    ghost use Rattle.command_input.specs.Faults.{of_drain};

    ghost from_gives = { λ d e. e ≡ of_drain d };

    fn from(e: DrainFault) -> InputFault<R> {
        match e {
            DrainFault::ReadFault => InputFault::ReadFault,
            DrainFault::TooLong => InputFault::TooLong,
        }
    }
}

impl<R> From<Fault<R>> for InputFault<R> {
    ghost use Rattle.std.specs.Prelude.{◌≡◌};
    ghost use Rattle.command_input.specs.Faults.{of_offer};

    ghost from_gives = { λ f e. e ≡ of_offer f };

    fn from(e: Fault<R>) -> InputFault<R> {
        match e {
            Fault::Refused(r) => InputFault::Refused(r),
            Fault::NoMemory => InputFault::NoMemory,
        }
    }
}

impl<R> From<NoMemory> for InputFault<R> {
    ghost use Rattle.command_input.specs.Faults.{IsInputNoMemory};

    ghost from_gives = { λ _ e. IsInputNoMemory e };

    fn from(_e: NoMemory) -> InputFault<R> {
        InputFault::NoMemory
    }
}
