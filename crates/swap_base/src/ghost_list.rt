//! A ghost list: a list that only clauses read.

ghost use Rattle.std.specs.Prelude.{◌≡◌, List, [], ◌∷◌, ◌++◌};
ghost use Rattle.std.specs.Borrow.{ftrue};

use std::fmt;
use std::fmt::{Debug, Formatter, Write};
use std::marker::{Model, PhantomData};

/// The items that were told to it, oldest first. It takes no memory, and its methods do nothing
/// when the program runs: clauses read the list as `items`.
#[derive(Drop)]
pub struct GhostList<T> {
    of: PhantomData<T>,
    pub ghost items: { List T },
}

impl<T> Model for GhostList<T> {
    ghost also_owns = { λ _. ftrue };
}

impl<T> GhostList<T> {
    pub fn new() -> GhostList<T>
        ensures { result.items ≡ [] }
    {
        GhostList { of: PhantomData }
    }

    /// With one more item.
    pub fn and(&self, item: &T) -> GhostList<T>
        ensures { result.items ≡ self.now.items ++ item.now ∷ [] }
    {
        GhostList { of: PhantomData }
    }
}

impl<T> Debug for GhostList<T> {
    fn fmt<W: Write>(&self, f: &mut Formatter<W>) -> fmt::Result {
        f.write_str("GhostList")
    }
}
