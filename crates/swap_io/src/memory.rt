//! A source and a sink in memory. Their calls fail where they are told to.

ghost use Rattle.std.specs.Prelude.{◌≡◌, ◌<◌, ◌≤◌, ◌↔◌, ◌⊎◌, [], length, take, drop, Contains, Some, IfOk, IsOk, IsErr, OnOk, vec_capacity};
ghost use Rattle.std.specs.Io.{ReadsAtMost, WritesAtMost};
ghost use Rattle.std.specs.Io.KnownBytes.{WriteAppends};
ghost use Rattle.swap_io.specs.Causes.{HasCause};
ghost use Rattle.swap_io.specs.Tape.{ReadConsumes};
ghost use Rattle.swap_io.specs.Supply.{Supply, supply_tape, given, after_read, Store, IsFull, accepted_byte_count, after_write};

use crate::fault::Failed;
use crate::sink::Sink;
use crate::source::Source;
use std::alloc::Global;
use std::marker::Model;
use swap_base::NoMemory;

/// A source over bytes in memory.
#[derive(Drop)]
pub struct VecSource {
    bytes: Vec<u8>,
    at: usize,
    per_call: usize,
    failing: Vec<u64>,
    calls: u64,
    faults: u64,
}

impl Model for VecSource {
    ghost Value = { Supply };

    ghost view = { λ s. record {
      left = drop s.at s.bytes.items;
      gave = take s.at s.bytes.items;
      per_call = s.per_call;
      failing = s.failing.items;
      calls = s.calls;
      faults = s.faults;
    } };

    ghost invariant = { λ s. (0 < s.per_call) × (s.at ≤ length s.bytes.items) };
}

impl VecSource {
    /// A source of these bytes, which gives at most `per_call` of them at a call.
    /// The calls whose numbers, from 0, are in `failing` fail.
    pub fn new(bytes: Vec<u8>, per_call: usize, failing: Vec<u64>) -> VecSource
        requires { 0 < per_call }
        ensures { result ≡ record {
          left = bytes.items;
          gave = [];
          per_call = per_call;
          failing = failing.items;
          calls = 0;
          faults = 0;
        } }
    {
        VecSource {
            bytes,
            at: 0,
            per_call,
            failing,
            calls: 0,
            faults: 0,
        }
    }
}

impl Source for VecSource {
    ghost left = { λ s. supply_tape s };

    ghost faults = { λ s. s.faults };

    fn read(&mut self, buf: &mut [u8]) -> Result<usize, Failed>
        requires room { 0 < length buf.old }
        ensures bound { ReadsAtMost result buf.new }
        ensures bytes { ReadConsumes (supply_tape self.old) (supply_tape self.new) result buf.new }
        ensures end { IfOk result (λ n. (n ≡ 0) ↔ (self.old.left ≡ [])) }
        ensures cause { HasCause self.old.faults self.new.faults result }
        ensures calm { OnOk result (self.new.faults ≡ self.old.faults) }

        // The exact answer, and the source after it.
        ensures fails { IsErr result ↔ Contains self.old.failing self.old.calls }
        ensures never { self.old.failing ≡ [] → IsOk result }
        ensures count { IfOk result (λ n. n ≡ given self.old (length buf.old)) }
        ensures after { self.new ≡ after_read self.old result }
    {
        let call = self.calls;
        self.calls = self.calls.saturating_add(1);
        if self.failing.contains(&call) {
            self.faults = self.faults.saturating_add(1);
            return Err(Failed);
        }
        let rest = &self.bytes[self.at..];
        let count = rest.len().min(self.per_call).min(buf.len());
        buf[..count].copy_from_slice(&rest[..count]);
        self.at += count;
        Ok(count)
    }
}

/// A sink in memory, of limited room.
#[derive(Drop)]
pub struct VecSink {
    taken: Vec<u8>,
    room: usize,
    per_call: usize,
    failing: Vec<u64>,
    calls: u64,
    faults: u64,
}

impl Model for VecSink {
    ghost Value = { Store };

    ghost view = { λ s. record {
      taken = s.taken.items;
      room = s.room;
      per_call = s.per_call;
      failing = s.failing.items;
      calls = s.calls;
      faults = s.faults;
    } };

    ghost invariant = { λ s. (0 < s.per_call) × (length s.taken.items ≤ s.room)
        × (s.room ≤ vec_capacity s.taken) };
}

impl VecSink {
    /// A sink that takes at most `per_call` bytes at a call and at most `room` in all, with its
    /// memory taken at once. The calls whose numbers, from 0, are in `failing` fail.
    pub fn new(
        alloc: Global,
        room: usize,
        per_call: usize,
        failing: Vec<u64>,
    ) -> Result<VecSink, NoMemory>
        requires { 0 < per_call }
        ensures { IfOk result (λ s. s ≡ record {
          taken = [];
          room = room;
          per_call = per_call;
          failing = failing.items;
          calls = 0;
          faults = 0;
        }) }
    {
        Ok(VecSink {
            taken: Vec::with_capacity(alloc, room)?,
            room,
            per_call,
            failing,
            calls: 0,
            faults: 0,
        })
    }

    /// The bytes that were taken.
    pub fn taken(&self) -> &[u8]
        ensures bytes { result.now ≡ self.now.taken }
        ensures within { length result.now ≤ self.now.room }
    {
        &self.taken
    }
}

impl Sink for VecSink {
    ghost taken = { λ s. Some s.taken };

    ghost faults = { λ s. s.faults };

    fn write(&mut self, bytes: &[u8]) -> Result<usize, Failed>
        ensures bound { WritesAtMost result bytes.now }
        ensures some { IfOk result (λ n. 0 < length bytes.now → 0 < n) }
        ensures bytes { WriteAppends (Some self.old.taken) (Some self.new.taken) result bytes.now }
        ensures cause { HasCause self.old.faults self.new.faults result }

        // The exact answer, and the sink after it.
        ensures fails { IsErr result ↔ (Contains self.old.failing self.old.calls
            ⊎ (IsFull self.old × (0 < length bytes.now))) }
        ensures full { self.old.failing ≡ [] → IsErr result ↔ (IsFull self.old × (0 < length bytes.now)) }
        ensures count { IfOk result (λ n. n ≡ accepted_byte_count self.old bytes.now) }
        ensures after { self.new ≡ after_write self.old bytes.now result }
    {
        let call = self.calls;
        self.calls = self.calls.saturating_add(1);
        let room = self.room - self.taken.len();
        if self.failing.contains(&call) || (room == 0 && !bytes.is_empty()) {
            self.faults = self.faults.saturating_add(1);
            return Err(Failed);
        }
        let count = bytes.len().min(self.per_call).min(room);
        self.taken.extend_from_slice(&bytes[..count]).unwrap();
        Ok(count)
    }
}
