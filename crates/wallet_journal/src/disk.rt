//! A disk of one size, as a journal sees it: what a read gives, and what a crash may leave.

ghost use Rattle.std.specs.Prelude.{◌≡◌, ◌<◌, ◌≤◌, ◌+◌, ℕ, List, [], ◌∷◌, ◌++◌, length, OnOk};
ghost use Rattle.swap_io.specs.Causes.{HasCause};
ghost use Rattle.wallet_journal.specs.Device.{Write, slice, written, Tears, AddsNone, Only, Elapses, IsFated, IsSettled};

use swap_base::NoMemory;
use swap_io::Failed;

/// How many bytes a disk has.
pub const DISK_BYTES: usize = 549_426;

/// A disk of 549,426 bytes.
pub trait Disk {
    /// The bytes as a read gives them.
    ghost seen: { Self → List ℕ };

    /// What a crash at this moment may leave.
    ghost may_leave: { Self → List ℕ → Type 0 };

    /// The moment, as a number that doesn't fall.
    ghost moment: { Self → ℕ };

    /// What a crash at some moment from that one on might have left, during a call or between two.
    ghost left_since: { Self → ℕ → List ℕ → Type 0 };

    /// How many calls have failed, held at 2^64 - 1.
    ghost faults: { Self → ℕ };

    /// How many calls are sure to find the memory that they need.
    ghost spare: { Self → ℕ };

    /// The writes that a sync made last, oldest first.
    ghost synced: { Self → List Write };

    /// The writes since, oldest first.
    ghost loose: { Self → List Write };

    /// No call fails from now on.
    ghost never_fails: { Self → Type 0 };

    /// This many calls pass before every later one fails; `ready` isn't counted.
    ghost stops_after: { Self → ℕ → Type 0 };

    /// Takes memory for calls to come, and leaves all as it was.
    fn ready(&mut self) -> Result<(), NoMemory>
        ensures spare { OnOk result (8 ≤ spare self.new) }
        ensures seen { seen self.new ≡ seen self.old }
        ensures sized { length (seen self.new) ≡ 549426 }
        ensures among { may_leave self.new (seen self.new) }
        ensures crash { AddsNone (may_leave self.old) (may_leave self.new) }
        ensures time { Elapses (moment self.old) (moment self.new) (left_since self.old) (left_since self.new) (may_leave self.new) }
        ensures faults { faults self.new ≡ faults self.old }
        ensures writes { (synced self.new ≡ synced self.old) × (loose self.new ≡ loose self.old) }
        ensures never { never_fails self.old → never_fails self.new }
        ensures stops { (n : ℕ) → stops_after self.old n → stops_after self.new n };

    /// Fills the buffer from a place on.
    fn read(&mut self, at: u32, buf: &mut [u8]) -> Result<(), Failed>
        requires range { at + length buf.old ≤ 549426 }
        requires spare { 0 < spare self.old }
        ensures bytes { OnOk result (buf.new ≡ slice at (length buf.old) (seen self.old)) }
        ensures writes { (synced self.new ≡ synced self.old) × (loose self.new ≡ loose self.old) }
        ensures seen { seen self.new ≡ seen self.old }
        ensures among { may_leave self.new (seen self.new) }
        ensures crash { AddsNone (may_leave self.old) (may_leave self.new) }
        ensures time { Elapses (moment self.old) (moment self.new) (left_since self.old) (left_since self.new) (may_leave self.new) }
        ensures spare { spare self.old ≤ spare self.new + 1 }
        ensures cause { HasCause (faults self.old) (faults self.new) result }
        ensures fate { IsFated (never_fails self.old) (never_fails self.new) (stops_after self.old) (stops_after self.new) result };

    /// Writes over what stands at a place. Until a sync succeeds, a crash may leave any bytes in
    /// the range, also where the write fails.
    fn write_at(&mut self, at: u32, bytes: &[u8]) -> Result<(), Failed>
        requires range { at + length bytes.now ≤ 549426 }
        requires few { length bytes.now ≤ 68673 }
        requires spare { 0 < spare self.old }
        ensures written { OnOk result (seen self.new ≡ written (seen self.old) at bytes.now) }
        ensures writes { (synced self.new ≡ synced self.old) × (loose self.new ≡ loose self.old ++ record { at = at; bytes = bytes.now } ∷ []) }
        ensures among { may_leave self.new (seen self.new) }
        ensures crash { Tears at (length bytes.now) (may_leave self.old) (may_leave self.new) }
        ensures time { Elapses (moment self.old) (moment self.new) (left_since self.old) (left_since self.new) (may_leave self.new) }
        ensures spare { spare self.old ≤ spare self.new + 1 }
        ensures cause { HasCause (faults self.old) (faults self.new) result }
        ensures fate { IsFated (never_fails self.old) (never_fails self.new) (stops_after self.old) (stops_after self.new) result };

    /// After it a crash leaves what a read gives. After one that fails it leaves nothing that it
    /// couldn't leave before.
    fn sync(&mut self) -> Result<(), Failed>
        requires spare { 0 < spare self.old }
        ensures durable { OnOk result (Only (seen self.old) (may_leave self.new)) }
        ensures writes { IsSettled result (synced self.old) (loose self.old) (synced self.new) (loose self.new) }
        ensures seen { OnOk result (seen self.new ≡ seen self.old) }
        ensures among { may_leave self.new (seen self.new) }
        ensures crash { AddsNone (may_leave self.old) (may_leave self.new) }
        ensures time { Elapses (moment self.old) (moment self.new) (left_since self.old) (left_since self.new) (may_leave self.new) }
        ensures spare { spare self.old ≤ spare self.new + 1 }
        ensures cause { HasCause (faults self.old) (faults self.new) result }
        ensures fate { IsFated (never_fails self.old) (never_fails self.new) (stops_after self.old) (stops_after self.new) result };

    /// This moment is one of those since an earlier one.
    ghost counts_now: { (disk : Self) (t : ℕ) (c : List ℕ) → t ≤ moment disk → may_leave disk c → left_since disk t c };

    /// Since this moment there is no other.
    ghost only_now: { (disk : Self) (c : List ℕ) → left_since disk (moment disk) c → may_leave disk c };
}
