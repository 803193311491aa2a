//! Up to eight hashlocks, kept in place.

ghost use Rattle.std.specs.Prelude.{◌≡◌, ◌<◌, ◌≤◌, ◌++◌, ◌∷◌, [], length, slice_index_or};
ghost use Rattle.std.specs.Str.{bytes_eq};
ghost use Rattle.swap_base.specs.Lists.{same_list};

use std::marker::Model;
use swap_base::{Digest, LockId};

/// One hashlock per lock, at most eight.
#[derive(Clone, Copy, Debug)]
pub struct LockList {
    len: u8,
    digests: [Digest; 8],
}

impl Model for LockList {
    ghost use Rattle.std.specs.Prelude.{List, ℕ};

    ghost Value = { List (List ℕ) };

    ghost use Rattle.escrow_core.specs.Locks.{list_digests, IsPadded, padded, padded_ok};

    ghost view = { list_digests };

    ghost invariant = { IsPadded };

    ghost inverse = { padded };

    ghost inverse_ok = { padded_ok };
}

impl LockList {
    /// No hashlock.
    pub fn new() -> LockList
        ensures { result ≡ [] }
    {
        LockList {
            len: 0,
            digests: [[0; 32]; 8],
        }
    }

    pub fn len(&self) -> u8
        ensures count { result ≡ length self.now }
        ensures few { length self.now ≤ 8 }
    {
        self.len
    }

    pub fn push(&mut self, digest: Digest)
        requires { length self.old < 8 }
        ensures { self.new ≡ self.old ++ digest ∷ [] }
    {
        self.digests[self.len as usize] = digest;
        self.len += 1;
    }

    /// The list of these digests.
    pub fn from_slice(digests: &[Digest]) -> LockList
        requires { length digests.now ≤ 8 }
        ensures { result ≡ digests.now }
    {
        let mut list = LockList::new();
        for digest in digests {
            list.push(*digest);
        }
        list
    }

    /// The hashlock of that lock.
    pub fn get(&self, lock: LockId) -> Digest
        requires { lock < length self.now }
        ensures { result ≡ slice_index_or self.now lock [] }
    {
        self.digests[lock as usize]
    }

    /// Whether both have the same hashlocks in the same places.
    pub fn same(&self, other: &LockList) -> bool
        ensures { result ≡ same_list bytes_eq self.now other.now }
    {
        self.digests[..self.len as usize] == other.digests[..other.len as usize]
    }
}
