//! Copies that take memory.

ghost use Rattle.std.specs.Prelude.{◌≡◌, IfOk};

use crate::fault::NoMemory;
use crate::listed::Listed;
use crate::text::ByteText;

/// A value that is copied with memory. A value that holds lists takes it where they lie.
pub trait TryCopy: Sized {
    /// An equal value.
    fn copy(&self) -> Result<Self, NoMemory>
        ensures { IfOk result (λ x. x ≡ self.now) };
}

impl TryCopy for u8 {
    fn copy(&self) -> Result<u8, NoMemory> {
        Ok(*self)
    }
}

impl TryCopy for u32 {
    fn copy(&self) -> Result<u32, NoMemory> {
        Ok(*self)
    }
}

impl TryCopy for u64 {
    fn copy(&self) -> Result<u64, NoMemory> {
        Ok(*self)
    }
}

impl TryCopy for [u8; 32] {
    fn copy(&self) -> Result<[u8; 32], NoMemory> {
        Ok(*self)
    }
}

impl TryCopy for ByteText {
    fn copy(&self) -> Result<ByteText, NoMemory> {
        ByteText::copy(self)
    }
}

impl<T: TryCopy + Drop> TryCopy for Option<T> {
    fn copy(&self) -> Result<Option<T>, NoMemory> {
        match self {
            None => Ok(None),
            Some(x) => Ok(Some(x.copy()?)),
        }
    }
}

fn copies<T: TryCopy + Drop>(xs: &Listed<T>) -> Result<Listed<T>, NoMemory>
    ensures { IfOk result (λ l. l ≡ xs.now) }
{
    let mut list = Vec::new(xs.allocator());
    for x in xs.as_slice() {
        list.push(x.copy()?)?;
    }
    Ok(Listed::new(list))
}

impl<T: TryCopy + Drop> TryCopy for Listed<T> {
    fn copy(&self) -> Result<Listed<T>, NoMemory> {
        copies(self)
    }
}
