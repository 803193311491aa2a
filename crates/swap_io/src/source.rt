//! A source of bytes, and reading one to its end.

ghost use Rattle.std.specs.Prelude.{◌≡◌, ◌<◌, ◌≤◌, ◌+◌, ◌↔◌, ◌⊎◌, ℕ, List, [], length, vec_len, Some, IfSome, IfOk, OnOk, IsErrOf, MatchResult};
ghost use Rattle.std.specs.Io.{ReadsAtMost};
ghost use Rattle.swap_io.specs.Tape.{Tape, ReadConsumes, Consumes, IsAtEnd};
ghost use Rattle.swap_io.specs.Causes.{Rose, HasCause, ConsumesSome, ConsumesAtMost};

use crate::fault::{Failed, ReadAllFault};
use std::alloc::Global;

/// Where bytes are read from.
pub trait Source {
    // The bytes that its reads gave, and those that are left, where the source knows them.
    ghost left: { Self → Tape };

    // How many calls have failed, held at 2^64 - 1.
    ghost faults: { Self → ℕ };

    /// Gives the first bytes of what is left, and how many. None are given exactly at the end of
    /// input, and none where the call fails.
    fn read(&mut self, buf: &mut [u8]) -> Result<usize, Failed>
        requires room { 0 < length buf.old }
        ensures bound { ReadsAtMost result buf.new }
        ensures bytes { ReadConsumes (left self.old) (left self.new) result buf.new }
        ensures end { IfOk result (λ n. IfSome (left self.old).ahead (λ xs. (n ≡ 0) ↔ (xs ≡ []))) }
        ensures cause { HasCause (faults self.old) (faults self.new) result }
        ensures calm { OnOk result (faults self.new ≡ faults self.old) };
}

const CHUNK: usize = 4096;

/// All bytes up to the end of input, where these are at most `limit`. A longer input is read one
/// byte past the limit.
pub fn read_all<S: Source>(
    alloc: Global,
    source: &mut S,
    limit: usize,
) -> Result<Vec<u8>, ReadAllFault>
    // What was read.
    ensures all { IfOk result (λ v. Consumes (S.left source.old) (S.left source.new) v.items) }
    ensures end { OnOk result (IsAtEnd (S.left source.new)) }
    ensures within { IfOk result (λ v. vec_len v ≤ limit) }
    ensures too_long { IsErrOf result ReadAllFault.TooLong
        → ConsumesSome (S.left source.old) (S.left source.new) (limit + 1) }
    ensures read_fault { IsErrOf result ReadAllFault.ReadFault
        → ConsumesAtMost (S.left source.old) (S.left source.new) limit }
    ensures no_memory { IsErrOf result ReadAllFault.NoMemory
        → ConsumesAtMost (S.left source.old) (S.left source.new) (limit + 1) }

    // The count of faults.
    ensures later { S.faults source.old ≤ S.faults source.new }
    ensures failed { IsErrOf result ReadAllFault.ReadFault
        → Rose (S.faults source.old) (S.faults source.new) }
    ensures calm { ¬ IsErrOf result ReadAllFault.ReadFault → S.faults source.new ≡ S.faults source.old }

    // The answer to an input that the source tells, where no call fails.
    ensures short { (xs : List ℕ) → (S.left source.old).ahead ≡ Some xs → length xs ≤ limit
        → ¬ Rose (S.faults source.old) (S.faults source.new)
        → MatchResult result (λ v. v.items ≡ xs) (λ e. e ≡ ReadAllFault.NoMemory) }
    ensures long { (xs : List ℕ) → (S.left source.old).ahead ≡ Some xs → limit < length xs
        → ¬ Rose (S.faults source.old) (S.faults source.new)
        → IsErrOf result ReadAllFault.TooLong ⊎ IsErrOf result ReadAllFault.NoMemory }
{
    let mut all = Vec::new(alloc);
    let mut buf = [0u8; CHUNK];
    while all.len() <= limit {
        let room = limit - all.len();
        let want = if room < CHUNK { room + 1 } else { CHUNK };
        let count = source.read(&mut buf[..want])?;
        if count == 0 {
            return Ok(all);
        }
        all.extend_from_slice(&buf[..count])?;
    }
    Err(ReadAllFault::TooLong)
}
