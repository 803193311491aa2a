//! Which slots of a swap are swept.

ghost use Rattle.std.specs.Prelude.{◌≡◌, ◌<◌, List, Bool, IfOk, length, replicate, slice_set, true, false};

use std::alloc::Global;
use std::marker::Model;
use swap_base::{ArcId, NoMemory};

/// Whether the slot of each arc is swept.
#[derive(Drop)]
pub(crate) struct Flags {
    items: Vec<bool>,
}

impl Model for Flags {
    ghost Value = { List Bool };

    ghost view = { λ f. f.items.items };
}

impl Flags {
    /// None of the slots is swept.
    pub(crate) fn none(alloc: Global, slots: usize) -> Result<Flags, NoMemory>
        ensures { IfOk result (λ f. f ≡ replicate slots false) }
    {
        Ok(Flags {
            items: vec![in alloc; false; slots]?,
        })
    }

    pub(crate) fn as_slice(&self) -> &[bool]
        ensures { result.now ≡ self.now }
    {
        &self.items
    }

    /// The slot of this arc is swept from now on.
    pub(crate) fn set(&mut self, arc: ArcId)
        requires { arc < length self.old }
        ensures { self.new ≡ slice_set self.old arc true }
    {
        self.items[arc as usize] = true;
    }
}
