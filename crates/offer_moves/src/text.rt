//! A text that lies in the input.

ghost use Rattle.std.specs.Prelude.{◌≡◌, ℕ, List};

use std::marker::Model;

/// A text that is borrowed from the input until it is kept, which contracts see as the list of its
/// bytes.
#[derive(Debug, Drop)]
pub struct TextRef<'v> {
    bytes: &'v [u8],
}

impl<'v> Model for TextRef<'v> {
    ghost Value = { List ℕ };

    ghost view = { λ t. t.bytes.now };
}

impl<'v> TextRef<'v> {
    pub fn new(bytes: &'v [u8]) -> TextRef<'v>
        ensures { result ≡ bytes.now }
    {
        TextRef { bytes }
    }

    pub fn as_slice(&self) -> &'v [u8]
        ensures { result.now ≡ self.now }
    {
        self.bytes
    }
}
