//! A sink of bytes, and writing to one whole.

ghost use Rattle.std.specs.Prelude.{◌<◌, ℕ, List, length, Option, IfOk, OnOk, OnErr};
ghost use Rattle.std.specs.Io.{WritesAtMost};
ghost use Rattle.std.specs.Io.KnownBytes.{WriteAppends, Appends};
ghost use Rattle.swap_io.specs.Causes.{HasCause, AppendsProperPrefix};

use crate::fault::{Failed, WriteFault};

/// Where bytes are written to.
pub trait Sink {
    // The bytes that were taken, where the sink tells them.
    ghost taken: { Self → Option (List ℕ) };

    // How many calls have failed, held at 2^64 - 1.
    ghost faults: { Self → ℕ };

    /// Takes the first of these bytes, at least one where there is one, and answers how many. None
    /// are taken where the call fails.
    fn write(&mut self, bytes: &[u8]) -> Result<usize, Failed>
        ensures bound { WritesAtMost result bytes.now }
        ensures some { IfOk result (λ n. 0 < length bytes.now → 0 < n) }
        ensures bytes { WriteAppends (taken self.old) (taken self.new) result bytes.now }
        ensures cause { HasCause (faults self.old) (faults self.new) result };
}

/// Appends all of the bytes. After a fault a proper prefix of them was appended.
pub fn write_all<K: Sink>(sink: &mut K, bytes: &[u8]) -> Result<(), WriteFault>
    ensures all { OnOk result (Appends (K.taken sink.old) (K.taken sink.new) bytes.now) }
    ensures prefix { OnErr result (AppendsProperPrefix (K.taken sink.old) (K.taken sink.new) bytes.now) }
    ensures cause { HasCause (K.faults sink.old) (K.faults sink.new) result }
{
    let mut at = 0;
    while at < bytes.len() {
        at += sink.write(&bytes[at..])?;
    }
    Ok(())
}
