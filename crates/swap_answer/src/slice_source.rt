//! A source over bytes in memory, which never fails.

ghost use Rattle.std.specs.Prelude.{◌≡◌, ◌≤◌, ◌<◌, ◌↔◌, [], length, take, drop, IfOk, IsOk, OnOk};
ghost use Rattle.std.specs.Io.{ReadsAtMost};
ghost use Rattle.swap_io.specs.Causes.{HasCause};
ghost use Rattle.swap_io.specs.Tape.{ReadConsumes};
ghost use Rattle.swap_answer.specs.Sliced.{Sliced, no_faults, sliced_tape};

use std::marker::Model;
use swap_io::{Failed, Source};

/// A source over bytes that it borrows.
#[derive(Drop)]
pub struct SliceSource<'a> {
    bytes: &'a [u8],
    at: usize,
}

impl<'a> Model for SliceSource<'a> {
    ghost Value = { Sliced };

    ghost view = { λ s. record { rest = drop s.at s.bytes.now; gave = take s.at s.bytes.now } };

    ghost invariant = { λ s. s.at ≤ length s.bytes.now };
}

impl<'a> SliceSource<'a> {
    /// A source of these bytes.
    pub fn new(bytes: &'a [u8]) -> SliceSource<'a>
        ensures { result ≡ record { rest = bytes.now; gave = [] } }
    {
        SliceSource { bytes, at: 0 }
    }
}

impl<'a> Source for SliceSource<'a> {
    ghost left = { λ s. sliced_tape s };

    ghost faults = { λ s. no_faults };

    fn read(&mut self, buf: &mut [u8]) -> Result<usize, Failed>
        requires room { 0 < length buf.old }
        ensures bound { ReadsAtMost result buf.new }
        ensures bytes { ReadConsumes (sliced_tape self.old) (sliced_tape self.new) result buf.new }
        ensures end { IfOk result (λ n. (n ≡ 0) ↔ (self.old.rest ≡ [])) }
        ensures cause { HasCause no_faults no_faults result }
        ensures calm { OnOk result (no_faults ≡ no_faults) }

        // No call fails.
        ensures never { IsOk result }
    {
        let rest = &self.bytes[self.at..];
        let count = rest.len().min(buf.len());
        buf[..count].copy_from_slice(&rest[..count]);
        self.at += count;
        Ok(count)
    }
}
