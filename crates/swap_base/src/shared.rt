//! A value with several holders.

ghost use Rattle.std.specs.Prelude.{◌≡◌, IfOk, IfSome};
ghost use Rattle.std.specs.Borrow.{LendsIf, sem};

use crate::copy::TryCopy;
use crate::fault::NoMemory;
use std::alloc::Global;
use std::marker::Model;
use std::ops::Deref;
use std::sync::Arc;

/// A value with several holders, in any threads, which contracts see as the value.
#[derive(Debug, Drop)]
pub struct Shared<T> {
    held: Arc<T, Global>,
}

impl<T> Model for Shared<T> {
    ghost use Rattle.std.specs.Arc.{arc_value};

    ghost Value = { T };

    ghost view = { λ s. arc_value s.held };
}

impl<T: Drop> Shared<T> {
    /// The value, held once.
    pub fn new(alloc: Global, value: T) -> Result<Shared<T>, NoMemory>
        ensures { IfOk result (λ s. s ≡ value) }
    {
        Ok(Shared {
            held: Arc::new(alloc, value)?,
        })
    }
}

impl<T> Shared<T> {
    ghost use Rattle.swap_base.specs.contracts.shared.Shared.{the_row};

    /// The value, to write to, where it has no other holder.
    pub fn get_mut(&mut self) -> Option<&mut T>
        ensures* writes_back { sem 𝓛 (LendsIf (the_row T.row) T.row self.entry result (λ w. w) self.old) }
        ensures value { IfSome result (λ x. x.now ≡ self.old) }
    {
        Arc::get_mut(&mut self.held)
    }
}

impl<T> Deref for Shared<T> {
    type Target = T;

    ghost deref_gives = { λ s x. x ≡ s };

    fn deref(&self) -> &T
        ensures { result.now ≡ self.now }
    {
        &self.held
    }
}

impl<T: Drop> TryCopy for Shared<T> {
    /// One more holder. It takes no memory.
    fn copy(&self) -> Result<Shared<T>, NoMemory> {
        Ok(Shared {
            held: self.held.clone()?,
        })
    }
}
