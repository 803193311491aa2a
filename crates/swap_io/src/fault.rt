//! Why bytes were not read or written.

ghost use Rattle.std.specs.Prelude.{◌≡◌};
ghost use Rattle.swap_io.specs.declared.fault.ReadAllFault.TheVariants.{ReadFault, NoMemory};
ghost use Rattle.swap_io.specs.declared.fault.DrainFault.TheVariants as drained;
ghost use Rattle.swap_io.specs.declared.fault.LineFault.TheVariants as line;
ghost use Rattle.swap_io.specs.declared.fault.TextFault.TheVariants as text;
ghost use Rattle.swap_io.specs.Faults.{drain_line_fault};

use std::alloc::AllocError;
use swap_base::NoMemory;

/// A call of a source or a sink failed, and gave or took no byte.
#[derive(Clone, Copy, Debug, PartialEq, Eq)]
pub struct Failed;

/// Why an input was not read to its end.
#[derive(Clone, Copy, Debug, PartialEq, Eq)]
pub enum ReadAllFault {
    /// A call of the source failed.
    ReadFault,
    /// The input is longer than the limit.
    TooLong,
    NoMemory,
}

/// Why a line was not read.
#[derive(Clone, Copy, Debug, PartialEq, Eq)]
pub enum LineFault {
    /// A call of the source failed.
    ReadFault,
    /// The input is longer than the limit.
    TooLong,
    NoMemory,
}

/// Why the rest of an input was not taken.
#[derive(Clone, Copy, Debug, PartialEq, Eq)]
pub enum DrainFault {
    /// A call of the source failed.
    ReadFault,
    /// The input is longer than the limit.
    TooLong,
}

/// A call of the sink failed before all bytes were written.
#[derive(Clone, Copy, Debug, PartialEq, Eq)]
pub struct WriteFault;

/// Why a text was not written whole.
#[derive(Clone, Copy, Debug, PartialEq, Eq)]
pub enum TextFault {
    /// A call of the sink failed.
    WriteFault,
    NoMemory,
}

impl From<AllocError> for ReadAllFault {
    ghost from_gives = { λ _ e. e ≡ NoMemory };

    fn from(_e: AllocError) -> ReadAllFault {
        ReadAllFault::NoMemory
    }
}

impl From<Failed> for ReadAllFault {
    ghost from_gives = { λ _ e. e ≡ ReadFault };

    fn from(_e: Failed) -> ReadAllFault {
        ReadAllFault::ReadFault
    }
}

impl From<Failed> for WriteFault {
    fn from(_e: Failed) -> WriteFault {
        WriteFault
    }
}

impl From<Failed> for DrainFault {
    ghost from_gives = { λ _ e. e ≡ drained.ReadFault };

    fn from(_e: Failed) -> DrainFault {
        DrainFault::ReadFault
    }
}

impl From<DrainFault> for LineFault {
    ghost from_gives = { λ d e. e ≡ drain_line_fault d };

    fn from(e: DrainFault) -> LineFault {
        match e {
            DrainFault::ReadFault => LineFault::ReadFault,
            DrainFault::TooLong => LineFault::TooLong,
        }
    }
}

impl From<NoMemory> for LineFault {
    ghost from_gives = { λ _ e. e ≡ line.NoMemory };

    fn from(_e: NoMemory) -> LineFault {
        LineFault::NoMemory
    }
}

impl From<AllocError> for LineFault {
    ghost from_gives = { λ _ e. e ≡ line.NoMemory };

    fn from(_e: AllocError) -> LineFault {
        LineFault::NoMemory
    }
}

impl From<WriteFault> for TextFault {
    ghost from_gives = { λ _ e. e ≡ text.WriteFault };

    fn from(_e: WriteFault) -> TextFault {
        TextFault::WriteFault
    }
}

impl From<NoMemory> for TextFault {
    ghost from_gives = { λ _ e. e ≡ text.NoMemory };

    fn from(_e: NoMemory) -> TextFault {
        TextFault::NoMemory
    }
}

impl From<AllocError> for TextFault {
    ghost from_gives = { λ _ e. e ≡ text.NoMemory };

    fn from(_e: AllocError) -> TextFault {
        TextFault::NoMemory
    }
}
