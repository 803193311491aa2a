//! std's reader and writer as a source and a sink, which tell their bytes as far as the reader or
//! the writer does. The source tells the bytes that its reads gave, whatever the reader tells.

ghost use Rattle.std.specs.Prelude.{◌≡◌, ◌<◌, ◌↔◌, [], false, length, IfOk, IfSome, OnOk, MatchResult};
ghost use Rattle.std.specs.Io.{ReadsAtMost, WritesAtMost};
ghost use Rattle.std.specs.Io.KnownBytes.{WriteAppends};
ghost use Rattle.swap_io.specs.Tape.{ReadConsumes};
ghost use Rattle.swap_io.specs.Causes.{next_count, HasCause};
ghost use Rattle.swap_io.specs.Counted.{Counted, IsTraced, ReadSoFar};

use crate::fault::Failed;
use crate::sink::Sink;
use crate::source::Source;
use crate::trace::{Piece, Trace};
use std::io::{Read, Write};
use std::marker::Model;

/// A source over a reader. Each of its errors is counted and is `Failed`.
#[derive(Drop)]
pub struct ReaderSource<R: Read> {
    inner: R,
    faults: u64,
    trace: Trace,
}

impl<R: Read> Model for ReaderSource<R> {
    ghost Value = { ReadSoFar R };

    ghost view = { λ s. record { inner = s.inner; faults = s.faults; given = s.trace.bytes; ended = s.trace.ended } };
}

impl<R: Read> ReaderSource<R> {
    /// Before the first read.
    pub fn new(inner: R) -> ReaderSource<R>
        ensures { result ≡ record { inner = inner; faults = 0; given = []; ended = false } }
    {
        ReaderSource {
            inner,
            faults: 0,
            trace: Trace::new(),
        }
    }
}

impl<R: Read> Source for ReaderSource<R> {
    ghost left = { λ s. record { ahead = R.remaining s.inner; given = s.given; ended = s.ended } };

    ghost faults = { λ s. s.faults };

    fn read(&mut self, buf: &mut [u8]) -> Result<usize, Failed>
        requires room { 0 < length buf.old }
        ensures bound { ReadsAtMost result buf.new }
        ensures bytes { ReadConsumes (record { ahead = R.remaining self.old.inner; given = self.old.given; ended = self.old.ended })
            (record { ahead = R.remaining self.new.inner; given = self.new.given; ended = self.new.ended }) result buf.new }
        ensures end { IfOk result (λ n. IfSome (R.remaining self.old.inner) (λ xs. (n ≡ 0) ↔ (xs ≡ []))) }
        ensures cause { HasCause self.old.faults self.new.faults result }
        ensures calm { OnOk result (self.new.faults ≡ self.old.faults) }

        // The exact count, and the exact trace.
        ensures counts { MatchResult result (λ _. self.new.faults ≡ self.old.faults)
            (λ _. self.new.faults ≡ next_count self.old.faults) }
        ensures traced { IsTraced self.old self.new result buf.new }
    {
        match self.inner.read(buf) {
            Ok(count) => {
                self.trace = self.trace.then(&Piece {
                    bytes: &buf[..count],
                });
                Ok(count)
            }
            Err(_) => {
                self.faults = self.faults.saturating_add(1);
                Err(Failed)
            }
        }
    }
}

/// A sink over a writer. Each error of the writer is counted and is `Failed`, and so is a nonempty
/// piece from which the writer takes nothing. The sink never flushes.
#[derive(Drop)]
pub struct WriterSink<W: Write> {
    inner: W,
    faults: u64,
}

impl<W: Write> Model for WriterSink<W> {
    ghost Value = { Counted W };

    ghost view = { λ s. record { inner = s.inner; faults = s.faults } };
}

impl<W: Write> WriterSink<W> {
    pub fn new(inner: W) -> WriterSink<W>
        ensures { result ≡ record { inner = inner; faults = 0 } }
    {
        WriterSink { inner, faults: 0 }
    }
}

impl<W: Write> Sink for WriterSink<W> {
    ghost taken = { λ s. W.contents s.inner };

    ghost faults = { λ s. s.faults };

    fn write(&mut self, bytes: &[u8]) -> Result<usize, Failed>
        ensures bound { WritesAtMost result bytes.now }
        ensures some { IfOk result (λ n. 0 < length bytes.now → 0 < n) }
        ensures bytes { WriteAppends (W.contents self.old.inner) (W.contents self.new.inner)
            result bytes.now }
        ensures cause { HasCause self.old.faults self.new.faults result }

        // The exact count.
        ensures counts { MatchResult result (λ _. self.new.faults ≡ self.old.faults)
            (λ _. self.new.faults ≡ next_count self.old.faults) }
    {
        match self.inner.write(bytes) {
            Ok(count) if count > 0 || bytes.is_empty() => Ok(count),
            _ => {
                self.faults = self.faults.saturating_add(1);
                Err(Failed)
            }
        }
    }
}
