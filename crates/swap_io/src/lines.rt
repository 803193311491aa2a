//! The lines of a source, one after another, through a buffer.

ghost use Rattle.std.specs.Prelude.{◌≡◌, ◌<◌, ◌≤◌, ◌+◌, ◌^◌, ◌↔◌, [], length, take, drop, IsTrue, MatchOption, IfOk, IfSome, IsErrOf, OnOk};
ghost use Rattle.swap_io.specs.Tape.{IsAtEnd};
ghost use Rattle.swap_io.specs.Causes.{Rose};
ghost use Rattle.swap_io.specs.Lines.{Reading, feeds, lacks_feed, past_feeds, TookFromSource, TookSome, IsNext, IsCutAtFeed, TakesLine, IsFilled};

use crate::fault::{DrainFault, LineFault};
use crate::line_end::LineEnd;
use crate::source::Source;
use memchr::memchr;
use std::alloc::Global;
use std::marker::Model;
use swap_base::NoMemory;

/// The most bytes that are kept after a line.
const ROOM: usize = 8192;

/// What stands before the first line feed and after it, where there is one.
fn cut(bytes: &[u8]) -> Option<(&[u8], &[u8])>
    ensures { MatchOption result (IsTrue (lacks_feed bytes.now)) (λ parts. IsCutAtFeed bytes.now parts.0.now parts.1.now) }
{
    match memchr(b'\n', bytes) {
        Some(at) => Some((&bytes[..at], &bytes[at + 1..])),
        None => None,
    }
}

/// How many line feeds the bytes begin with.
fn feeds(bytes: &[u8]) -> usize
    ensures exact { result ≡ feeds bytes.now }
    ensures few { result ≤ length bytes.now }
{
    for (i, b) in bytes.iter().enumerate() {
        if *b != b'\n' {
            return i;
        }
    }
    bytes.len()
}

/// The lines of one source, whose bytes it counts. It keeps what it took beyond the last line.
#[derive(Drop)]
pub struct Lines {
    buffer: Vec<u8>,
    at: usize,
    taken: usize,
    limit: usize,
}

impl Model for Lines {
    ghost Value = { Reading };

    ghost view = { λ l. record { kept = drop l.at l.buffer.items; taken = l.taken; limit = l.limit } };

    ghost invariant = { λ l. (l.at ≤ length l.buffer.items) × (length l.buffer.items ≤ 8192) × (l.taken ≤ l.limit + 1) × (l.limit < 2 ^ 32) };
}

impl Lines {
    /// The lines of a source of at most `limit` bytes, with its memory taken at once.
    pub fn new(alloc: Global, limit: usize) -> Result<Lines, NoMemory>
        requires { limit < 2 ^ 32 }
        ensures { IfOk result (λ l. l ≡ record { kept = []; taken = 0; limit = limit }) }
    {
        Ok(Lines {
            buffer: Vec::with_capacity(alloc, ROOM)?,
            at: 0,
            taken: 0,
            limit,
        })
    }

    /// Whether more bytes were taken than may be.
    fn exceeds_limit(&self) -> bool
        ensures past { IsTrue result ↔ (self.now.limit < self.now.taken) }
        ensures few { length self.now.kept ≤ 8192 }
        ensures most { self.now.taken ≤ self.now.limit + 1 }
    {
        self.taken > self.limit
    }

    /// Takes bytes from the source, none only at its end.
    fn pull<S: Source>(&mut self, source: &mut S, chunk: &mut [u8]) -> Result<usize, DrainFault>
        requires room { 0 < length chunk.old }
        requires before { self.old.taken ≤ self.old.limit }
        ensures bytes { IfOk result (λ n. (n ≤ length chunk.new) × TookFromSource (S.left source.old) (S.left source.new) self.old self.new (take n chunk.new)) }
        ensures end { IfOk result (λ n. n ≡ 0 → IsAtEnd (S.left source.new)) }
        ensures takes { TookSome (S.left source.old) (S.left source.new) self.old self.new }
        ensures too_long { IsErrOf result DrainFault.TooLong ↔ (self.new.limit < self.new.taken) }
        ensures later { S.faults source.old ≤ S.faults source.new }
        ensures failed { IsErrOf result DrainFault.ReadFault → Rose (S.faults source.old) (S.faults source.new) }
        ensures calm { ¬ IsErrOf result DrainFault.ReadFault → S.faults source.new ≡ S.faults source.old }
        ensures kept { self.new.kept ≡ self.old.kept }
        ensures most { self.new.taken ≤ self.new.limit + 1 }
    {
        let room = self.limit - self.taken;
        let want = if room < chunk.len() {
            room + 1
        } else {
            chunk.len()
        };
        let count = source.read(&mut chunk[..want])?;
        self.taken += count;
        if self.taken > self.limit {
            return Err(DrainFault::TooLong);
        }
        Ok(count)
    }

    /// Keeps bytes, where none were kept.
    fn keep(&mut self, bytes: &[u8]) -> Result<(), NoMemory>
        requires few { length bytes.now ≤ 8192 }
        ensures kept { OnOk result (self.new.kept ≡ bytes.now) }
        ensures no_more { length self.new.kept ≤ length bytes.now }
        ensures taken { self.new.taken ≡ self.old.taken }
        ensures limit { self.new.limit ≡ self.old.limit }
        ensures few { length self.new.kept ≤ 8192 }
        ensures most { self.new.taken ≤ self.new.limit + 1 }
    {
        self.buffer.clear();
        self.at = 0;
        self.buffer.extend_from_slice(bytes)?;
        Ok(())
    }

    /// Takes bytes from the source and keeps them; none where nothing is left.
    fn fill<S: Source>(&mut self, source: &mut S) -> Result<bool, LineFault>
        requires before { self.old.taken ≤ self.old.limit }
        requires empty { self.old.kept ≡ [] }
        ensures no_more { length self.new.kept + self.old.taken ≤ self.new.taken }
        ensures filled { IfOk result (λ more. IsFilled more (S.left source.old) (S.left source.new) self.old self.new) }
        ensures takes { TookSome (S.left source.old) (S.left source.new) self.old self.new }
        ensures too_long { IsErrOf result LineFault.TooLong ↔ (self.new.limit < self.new.taken) }
        ensures later { S.faults source.old ≤ S.faults source.new }
        ensures failed { IsErrOf result LineFault.ReadFault → Rose (S.faults source.old) (S.faults source.new) }
        ensures calm { ¬ IsErrOf result LineFault.ReadFault → S.faults source.new ≡ S.faults source.old }
        ensures few { length self.new.kept ≤ 8192 }
        ensures most { self.new.taken ≤ self.new.limit + 1 }
    {
        let mut chunk = [0u8; ROOM];
        let count = self.pull(source, &mut chunk)?;
        if count == 0 {
            return Ok(false);
        }
        self.keep(&chunk[..count])?;
        Ok(true)
    }

    /// Moves what is kept to the line, up to its first line feed, and answers whether there is one.
    fn take_line(&mut self, line: &mut Vec<u8>) -> Result<bool, NoMemory>
        ensures no_more { length self.new.kept ≤ length self.old.kept }
        ensures line { IfOk result (λ ended. TakesLine ended self.old self.new line.old.items line.new.items) }
        ensures taken { self.new.taken ≡ self.old.taken }
        ensures limit { self.new.limit ≡ self.old.limit }
    {
        let rest = &self.buffer[self.at..];
        match cut(rest) {
            Some((first, after)) => {
                line.extend_from_slice(first)?;
                self.at = self.buffer.len() - after.len();
                Ok(true)
            }
            None => {
                line.extend_from_slice(rest)?;
                self.at = self.buffer.len();
                Ok(false)
            }
        }
    }

    /// Passes over the empty lines that what is kept begins with, and answers how many. It reads
    /// nothing.
    pub fn pass_feeds(&mut self) -> usize
        ensures count { result ≡ feeds self.old.kept }
        ensures past { self.new ≡ past_feeds self.old }
        ensures within { result ≤ length self.old.kept }
        ensures few { length self.old.kept ≤ 8192 }
        ensures most { self.old.taken ≤ self.old.limit + 1 }
    {
        let count = feeds(&self.buffer[self.at..]);
        self.at += count;
        count
    }

    /// Gives the next line, without its line feed. After a fault the line may hold anything.
    pub fn next<S: Source>(
        &mut self,
        source: &mut S,
        line: &mut Vec<u8>,
    ) -> Result<LineEnd, LineFault>
        // The line, and what is kept after it.
        ensures next { IfOk result (λ end. IsNext (S.left source.old) (S.left source.new) self.old self.new line.new.items end) }
        ensures few { length self.new.kept ≤ 8192 }

        // What was taken, whatever the answer. No more is kept than what was kept and taken.
        ensures no_more { length self.new.kept + self.old.taken ≤ length self.old.kept + self.new.taken }
        ensures takes { TookSome (S.left source.old) (S.left source.new) self.old self.new }
        ensures most { self.new.taken ≤ self.new.limit + 1 }

        // The end of the input, where the source tells its bytes.
        ensures end { IfOk result (λ end. IfSome (S.left source.old).ahead (λ xs. (end ≡ LineEnd.End) ↔ ((self.old.kept ≡ []) × (xs ≡ [])))) }

        // The causes of faults.
        ensures too_long { IsErrOf result LineFault.TooLong ↔ (self.new.limit < self.new.taken) }
        ensures later { S.faults source.old ≤ S.faults source.new }
        ensures failed { IsErrOf result LineFault.ReadFault → Rose (S.faults source.old) (S.faults source.new) }
        ensures calm { ¬ IsErrOf result LineFault.ReadFault → S.faults source.new ≡ S.faults source.old }
    {
        if self.exceeds_limit() {
            return Err(LineFault::TooLong);
        }
        line.clear();
        'parts: while !self.take_line(line)? {
            if !self.fill(source)? {
                return Ok(if line.is_empty() {
                    LineEnd::End
                } else {
                    LineEnd::Rest
                });
            }
        }
        Ok(LineEnd::Ended)
    }

    /// Takes and drops the rest of the input. It takes no memory.
    pub fn drain<S: Source>(&mut self, source: &mut S) -> Result<(), DrainFault>
        ensures end { OnOk result (IsAtEnd (S.left source.new)) }
        ensures kept { self.new.kept ≡ [] }
        ensures takes { TookSome (S.left source.old) (S.left source.new) self.old self.new }
        ensures most { self.new.taken ≤ self.new.limit + 1 }
        ensures too_long { IsErrOf result DrainFault.TooLong ↔ (self.new.limit < self.new.taken) }
        ensures later { S.faults source.old ≤ S.faults source.new }
        ensures failed { IsErrOf result DrainFault.ReadFault → Rose (S.faults source.old) (S.faults source.new) }
        ensures calm { ¬ IsErrOf result DrainFault.ReadFault → S.faults source.new ≡ S.faults source.old }
    {
        self.buffer.clear();
        self.at = 0;
        if self.exceeds_limit() {
            return Err(DrainFault::TooLong);
        }
        let mut chunk = [0u8; ROOM];
        'rest: while self.pull(source, &mut chunk)? > 0 {}
        Ok(())
    }
}
