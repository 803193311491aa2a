//! The bytes that passed, for clauses alone.

ghost use Rattle.std.specs.Prelude.{◌≡◌, ◌==◌, ◌++◌, [], length, ℕ, List, Bool, false};
ghost use Rattle.std.specs.Borrow.{ftrue};

use std::marker::Model;

/// The pieces that were told to it, one behind the other. It takes no memory, and its methods do
/// nothing when the program runs: clauses read the bytes as `bytes`, and as `ended` whether the
/// last piece was empty.
#[derive(Drop)]
pub(crate) struct Trace {
    ghost bytes: { List ℕ },
    ghost ended: { Bool },
}

impl Model for Trace {
    ghost also_owns = { λ _. ftrue };
}

/// One piece of what passed.
#[derive(Drop)]
pub(crate) struct Piece<'a> {
    pub bytes: &'a [u8],
}

impl Trace {
    pub(crate) fn new() -> Trace
        ensures { (result.bytes ≡ []) × (result.ended ≡ false) }
    {
        Trace {}
    }

    /// With one more piece.
    #[inline(always)]
    pub(crate) fn then(&self, _piece: &Piece<'_>) -> Trace
        ensures { (result.bytes ≡ self.now.bytes ++ _piece.now.bytes.now) × (result.ended ≡ (length _piece.now.bytes.now == 0)) }
    {
        Trace {}
    }
}
