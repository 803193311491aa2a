//! A text of bytes.

ghost use Rattle.std.specs.Prelude.{◌≡◌, ℕ, List, position, IfOk};
ghost use Rattle.std.specs.Str.{bytes_eq};
ghost use Rattle.std.proofs.Common.{rules};
ghost use Rattle.std.specs.Cmp.Rules.{comparing};

use crate::fault::NoMemory;
use std::alloc::Global;
use std::marker::Model;

/// A text of bytes, of any encoding, which contracts see as their list.
#[derive(Debug, Drop)]
pub struct ByteText {
    bytes: Vec<u8>,
}

impl Model for ByteText {
    ghost Value = { List ℕ };

    ghost view = { λ t. t.bytes.items };
}

impl ByteText {
    pub fn new(bytes: Vec<u8>) -> ByteText
        ensures { result ≡ bytes.items }
    {
        ByteText { bytes }
    }

    pub fn from_slice(alloc: Global, bytes: &[u8]) -> Result<ByteText, NoMemory>
        ensures { IfOk result (λ t. t ≡ bytes.now) }
    {
        Ok(ByteText {
            bytes: Vec::from_slice(alloc, bytes)?,
        })
    }

    pub fn as_slice(&self) -> &[u8]
        ensures { result.now ≡ self.now }
    {
        &self.bytes
    }

    /// The bytes, without taking memory.
    pub fn into_vec(self) -> Vec<u8>
        ensures { result.items ≡ self }
    {
        self.bytes
    }

    /// An equal text.
    pub fn copy(&self) -> Result<ByteText, NoMemory>
        ensures { IfOk result (λ t. t ≡ self.now) }
    {
        Ok(ByteText {
            bytes: self.bytes.clone()?,
        })
    }
}

impl PartialEq for ByteText {
    ghost eq = { λ a b. bytes_eq a b };

    ghost laws = { Prim.search (comparing, rules) };

    fn eq(&self, other: &ByteText) -> bool {
        self.bytes == other.bytes
    }
}

impl Eq for ByteText {
    ghost laws = { Prim.search (comparing, rules) };
}

/// The place of a name among names.
pub fn find_place(names: &[ByteText], name: &[u8]) -> Option<usize>
    ensures { result ≡ position (bytes_eq name.now) names.now }
{
    names.iter().position(|known| name == known.as_slice())
}
