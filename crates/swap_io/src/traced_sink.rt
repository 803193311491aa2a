//! A sink that tells what it took, whatever the sink below it tells.

ghost use Rattle.std.specs.Prelude.{◌≡◌, ◌<◌, [], length, Some, IfOk};
ghost use Rattle.std.specs.Io.{WritesAtMost};
ghost use Rattle.std.specs.Io.KnownBytes.{WriteAppends};
ghost use Rattle.swap_io.specs.Causes.{HasCause};
ghost use Rattle.swap_io.specs.Counted.{WrittenSoFar};

use crate::fault::Failed;
use crate::sink::Sink;
use crate::trace::{Piece, Trace};
use std::marker::Model;

/// A sink over a sink. Clauses know what its writes took; when the program runs it does no more
/// than the sink below it.
#[derive(Drop)]
pub struct TracedSink<K: Sink> {
    inner: K,
    trace: Trace,
}

impl<K: Sink> Model for TracedSink<K> {
    ghost Value = { WrittenSoFar K };

    ghost view = { λ s. record { inner = s.inner; written = s.trace.bytes } };
}

impl<K: Sink> TracedSink<K> {
    /// Before the first write.
    pub fn new(inner: K) -> TracedSink<K>
        ensures { result ≡ record { inner = inner; written = [] } }
    {
        TracedSink {
            inner,
            trace: Trace::new(),
        }
    }
}

impl<K: Sink> Sink for TracedSink<K> {
    ghost taken = { λ s. Some s.written };

    ghost faults = { λ s. K.faults s.inner };

    fn write(&mut self, bytes: &[u8]) -> Result<usize, Failed>
        ensures bound { WritesAtMost result bytes.now }
        ensures some { IfOk result (λ n. 0 < length bytes.now → 0 < n) }
        ensures bytes { WriteAppends (Some self.old.written) (Some self.new.written) result bytes.now }
        ensures cause { HasCause (K.faults self.old.inner) (K.faults self.new.inner) result }

        // What the sink below it took.
        ensures below { WriteAppends (K.taken self.old.inner) (K.taken self.new.inner) result bytes.now }
    {
        let count = self.inner.write(bytes)?;
        self.trace = self.trace.then(&Piece {
            bytes: &bytes[..count],
        });
        Ok(count)
    }
}
