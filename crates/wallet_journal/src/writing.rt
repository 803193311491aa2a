//! A write that a sync makes last.

ghost use Rattle.std.specs.Prelude.{◌≡◌, ◌<◌, ◌≤◌, ◌+◌, ◌++◌, ◌∷◌, [], ℕ, length, IsOk, OnOk};
ghost use Rattle.swap_io.specs.Causes.{HasCause};
ghost use Rattle.wallet_journal.specs.Device.{written, Torn, LeavesOnly, IsStill, IsSettled, AreStopped};

use crate::disk::Disk;
use swap_io::Failed;

/// Writes over what stands at a place of a still disk, and syncs.
pub(crate) fn write_synced<D: Disk>(disk: &mut D, at: u32, bytes: &[u8]) -> Result<(), Failed>
    requires still { IsStill (D.seen disk.old) (D.may_leave disk.old) (D.loose disk.old) }
    requires range { at + length bytes.now ≤ 549426 }
    requires few { length bytes.now ≤ 68673 }
    requires spare { 2 ≤ D.spare disk.old }
    ensures still { OnOk result (IsStill (D.seen disk.new) (D.may_leave disk.new) (D.loose disk.new)) }
    ensures written { OnOk result (D.seen disk.new ≡ written (D.seen disk.old) at bytes.now) }
    ensures torn { LeavesOnly D.moment D.left_since disk.old disk.new (Torn at (length bytes.now) (D.seen disk.old)) }
    ensures spare { D.spare disk.old ≤ D.spare disk.new + 2 }
    ensures writes { IsSettled result (D.synced disk.old) (D.loose disk.old ++ record { at = at; bytes = bytes.now } ∷ []) (D.synced disk.new)
        (D.loose disk.new) }
    ensures never { D.never_fails disk.old → IsOk result × D.never_fails disk.new }
    ensures stops { (n : ℕ) → D.stops_after disk.old n → AreStopped n result (D.stops_after disk.new) }
    ensures cause { HasCause (D.faults disk.old) (D.faults disk.new) result }
{
    disk.write_at(at, bytes)?;
    disk.sync()
}
