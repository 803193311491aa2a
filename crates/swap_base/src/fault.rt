//! Want of memory, alone or beside a refusal with its reason.

use std::alloc::{AllocError, AllocFailed};

/// Memory ran out. It is merged with no other answer.
#[derive(Clone, Copy, Debug, PartialEq, Eq)]
pub struct NoMemory;

impl From<AllocError> for NoMemory {
    fn from(_e: AllocError) -> NoMemory {
        NoMemory
    }
}

impl<T: Drop> From<AllocFailed<T>> for NoMemory {
    fn from(_e: AllocFailed<T>) -> NoMemory {
        NoMemory
    }
}

/// Why a call gave no value: a reason of the caller's input, or want of memory.
#[derive(Debug, Drop)]
pub enum Fault<R> {
    Refused(R),
    NoMemory,
}

impl<R> From<NoMemory> for Fault<R> {
    ghost use Rattle.swap_base.specs.Fault.{IsNoMemory};

    ghost from_gives = { λ _ e. IsNoMemory e };

    fn from(_e: NoMemory) -> Fault<R> {
        Fault::NoMemory
    }
}

impl<R> From<AllocError> for Fault<R> {
    ghost use Rattle.swap_base.specs.Fault.{IsNoMemory};

    ghost from_gives = { λ _ e. IsNoMemory e };

    fn from(_e: AllocError) -> Fault<R> {
        Fault::NoMemory
    }
}

impl<R, T: Drop> From<AllocFailed<T>> for Fault<R> {
    ghost use Rattle.swap_base.specs.Fault.{IsNoMemory};

    ghost from_gives = { λ _ e. IsNoMemory e };

    fn from(_e: AllocFailed<T>) -> Fault<R> {
        Fault::NoMemory
    }
}
