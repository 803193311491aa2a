//! A sink in memory that grows.

ghost use Rattle.std.specs.Prelude.{◌≡◌, ◌<◌, [], length, Some, IfOk};
ghost use Rattle.std.specs.Io.{WritesAtMost};
ghost use Rattle.std.specs.Io.KnownBytes.{WriteAppends};
ghost use Rattle.swap_io.specs.Causes.{HasCause};
ghost use Rattle.swap_io.specs.Supply.{Grown};

use crate::fault::Failed;
use crate::sink::Sink;
use std::alloc::Global;
use std::marker::Model;
use swap_base::ByteText;

/// A sink that takes each piece whole, and fails for want of memory alone.
#[derive(Drop)]
pub struct TextSink {
    bytes: Vec<u8>,
    faults: u64,
}

impl Model for TextSink {
    ghost Value = { Grown };

    ghost view = { λ s. record { taken = s.bytes.items; faults = s.faults } };
}

impl TextSink {
    pub fn new(alloc: Global) -> TextSink
        ensures { result ≡ record { taken = []; faults = 0 } }
    {
        TextSink {
            bytes: Vec::new(alloc),
            faults: 0,
        }
    }

    /// The bytes that were taken, without taking memory.
    pub fn into_text(self) -> ByteText
        ensures { result ≡ self.taken }
    {
        ByteText::new(self.bytes)
    }
}

impl Sink for TextSink {
    ghost taken = { λ s. Some s.taken };

    ghost faults = { λ s. s.faults };

    fn write(&mut self, bytes: &[u8]) -> Result<usize, Failed>
        ensures bound { WritesAtMost result bytes.now }
        ensures some { IfOk result (λ n. 0 < length bytes.now → 0 < n) }
        ensures bytes { WriteAppends (Some self.old.taken) (Some self.new.taken) result bytes.now }
        ensures cause { HasCause self.old.faults self.new.faults result }

        // The exact count.
        ensures whole { IfOk result (λ n. n ≡ length bytes.now) }
    {
        match self.bytes.extend_from_slice(bytes) {
            Ok(()) => Ok(bytes.len()),
            Err(_) => {
                self.faults = self.faults.saturating_add(1);
                Err(Failed)
            }
        }
    }
}
