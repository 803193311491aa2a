//! A disk in memory. Its calls fail where they are told to, and it can be made to crash.

ghost use Rattle.std.specs.Prelude.{◌≡◌, ◌⊎◌, ◌<◌, [], length, drop, Some, None};
ghost use Rattle.wallet_journal.specs.Device.{written};
ghost use Rattle.wallet_journal.specs.Held.{AreOnDisk, Leaves, HadLeft, visible_bytes, only_held};
ghost use Rattle.wallet_journal.specs.Memory.{DiskState, crashed};
ghost use Rattle.wallet_journal.specs.Layout.{byte};
ghost use Rattle.std.proofs.Common.{inl};

use crate::contents::Contents;
use crate::disk::Disk;
use crate::failures::Failures;
use std::alloc::Global;
use std::marker::Model;
use swap_base::{GhostList, NoMemory};
use swap_io::Failed;

/// A disk in memory.
#[derive(Drop)]
pub struct MemoryDisk {
    contents: Contents,
    past: GhostList<Contents>,
    failures: Failures,
}

impl Model for MemoryDisk {
    ghost use Rattle.wallet_journal.specs.Memory.{DiskState};
    ghost use Rattle.wallet_journal.specs.Held.{AreOnDisk};

    ghost Value = { DiskState };

    ghost view = { λ d. record {
      held = d.contents;
      past = d.past.items;
      failing = d.failures.failing.items;
      calls = d.failures.calls;
      left = d.failures.left;
      faults = d.failures.count;
    } };

    ghost invariant = { λ d. AreOnDisk d.contents };
}

impl MemoryDisk {
    /// A disk on which nothing was written. The calls whose numbers, from 0, are in `failing` fail;
    /// `ready` isn't counted.
    pub fn new(alloc: Global, failing: Vec<u64>) -> MemoryDisk
        ensures value { result ≡ record {
          held = record { synced = []; loose = []; spare = 0 };
          past = [];
          failing = failing.items;
          calls = 0;
          left = None;
          faults = 0;
        } }
    {
        MemoryDisk {
            contents: Contents::new(alloc),
            past: GhostList::new(),
            failures: Failures {
                failing,
                calls: 0,
                left: None,
                count: 0,
            },
        }
    }

    /// Lets the next `k` calls pass, and every later one fail.
    pub fn limit_calls(&mut self, k: u8)
        ensures left { self.new ≡ record self.old { left = Some k } }
        ensures on { AreOnDisk self.old.held }
    {
        self.failures.left = Some(k);
    }

    /// The disk as it is: what a read gives is among what a crash may leave.
    pub(crate) fn as_read(&self) -> &MemoryDisk
        ensures value { result.now ≡ self.now }
        ensures among { Leaves self.now.held (visible_bytes self.now.held) }
    {
        let _held = &self.contents;
        self
    }

    /// The byte that a read gives at a place. It takes no memory.
    pub fn byte(&self, at: u32) -> u8
        requires range { at < 549426 }
        ensures value { result ≡ byte (visible_bytes self.now.held) at }
    {
        let mut one = [0u8; 1];
        self.contents.read(at, &mut one);
        one[0]
    }

    /// The disk that a crash leaves, all of it synced, which fails no more: what isn't synced holds
    /// its old bytes for 0, its new ones for 1, and else that value. It takes no memory.
    pub fn crash(self, image: u8) -> MemoryDisk
        ensures value { result ≡ record { held = crashed image self.held; past = []; failing = []; calls = 0; left = None; faults = 0 } }
        ensures left { Leaves self.held (visible_bytes result.held) }
    {
        let alloc = *self.failures.failing.allocator();
        MemoryDisk {
            contents: self.contents.crash(image),
            past: GhostList::new(),
            failures: Failures {
                failing: Vec::new(alloc),
                calls: 0,
                left: None,
                count: 0,
            },
        }
    }
}

impl Disk for MemoryDisk {
    ghost seen = { λ d. visible_bytes d.held };

    ghost may_leave = { λ d c. Leaves d.held c };

    ghost moment = { λ d. length d.past };

    ghost left_since = { λ d t c. Leaves d.held c ⊎ HadLeft (drop t d.past) c };

    ghost faults = { λ d. d.faults };

    ghost spare = { λ d. d.held.spare };

    ghost synced = { λ d. d.held.synced };

    ghost loose = { λ d. d.held.loose };

    ghost never_fails = { λ d. (d.failing ≡ []) × (d.left ≡ None) };

    ghost stops_after = { λ d n. (d.failing ≡ []) × (d.left ≡ Some n) };

    ghost counts_now = { λ d t c le now. inl now };

    ghost only_now = { λ d c left. only_held d.past d.held c left };

    fn ready(&mut self) -> Result<(), NoMemory> {
        self.contents.reserve()
    }

    fn read(&mut self, at: u32, buf: &mut [u8]) -> Result<(), Failed> {
        self.contents.read(at, buf);
        if self.failures.next() {
            return Err(Failed);
        }
        Ok(())
    }

    fn write_at(&mut self, at: u32, bytes: &[u8]) -> Result<(), Failed> {
        self.past = self.past.and(&self.contents);
        self.contents.put(at, bytes);
        if self.failures.next() {
            return Err(Failed);
        }
        Ok(())
    }

    fn sync(&mut self) -> Result<(), Failed> {
        if self.failures.next() {
            return Err(Failed);
        }
        self.past = self.past.and(&self.contents);
        self.contents.settle();
        Ok(())
    }
}
