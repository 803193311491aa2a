//! Recording a hashkey on a disk.

ghost use Rattle.std.specs.Prelude.{◌≡◌, ◌<◌, ◌≤◌, ◌+◌, ℕ, length, None, true, IsOk, IsErr, OnOk, IfErr};
ghost use Rattle.swap_io.specs.Causes.{HasCause};
ghost use Rattle.wallet_journal.specs.Device.{LeavesOnly, IsStill, IsUntouched};
ghost use Rattle.wallet_journal.specs.Layout.{HasWholeParts, encoded_body, is_made, recorded};
ghost use Rattle.wallet_journal.specs.Journal.{Gains};
ghost use Rattle.wallet_journal.specs.OwnDisks.{IsInRecord};
ghost use Rattle.wallet_journal.specs.Recording.{IsRecordFault, IsStoppedRecording, IsStoppedRecord, IsWritten};
ghost use Rattle.wallet_journal.specs.Stopped.{bytes_left, kept_key, IsOfWrites};
ghost use Rattle.wallet_journal.specs.declared.fault.RecordFault.TheVariants.{DiskFault as Failing, NoMemory as Wanting};

use crate::bodies::encoded_body;
use crate::disk::Disk;
use crate::fault::RecordFault;
use crate::writing::write_synced;
use hashkey_path::Hashkey;
use std::alloc::Global;
use swap_io::Failed;

/// Writes the body of a hashkey and then opens its gate, each with a sync.
pub(crate) fn store<D: Disk>(disk: &mut D, key: &Hashkey, body: &[u8]) -> Result<(), Failed>
    requires still { IsStill (D.seen disk.old) (D.may_leave disk.old) (D.loose disk.old) }
    requires made { is_made (D.seen disk.old) ≡ true }
    requires lock { key.now.lock < 8 }
    requires unrecorded { recorded (D.seen disk.old) key.now.lock ≡ None }
    requires few { length key.now.path ≤ 32 }
    requires paired { length key.now.sigs ≡ length key.now.path }
    requires told { HasWholeParts key.now }
    requires body { body.now ≡ encoded_body key.now }
    requires spare { 4 ≤ D.spare disk.old }
    ensures still { OnOk result (IsStill (D.seen disk.new) (D.may_leave disk.new) (D.loose disk.new)) }
    ensures gains { OnOk result (Gains (D.seen disk.old) key.now (D.seen disk.new)) }
    ensures any_moment { LeavesOnly D.moment D.left_since disk.old disk.new (IsInRecord (D.seen disk.old) key.now) }
    ensures written { OnOk result (IsWritten key.now (D.synced disk.old) (D.synced disk.new) (D.loose disk.new)) }
    ensures never { D.never_fails disk.old → IsOk result × D.never_fails disk.new }
    ensures stops { (n : ℕ) → n < 4 → D.stops_after disk.old n
        → IsErr result × IsStoppedRecording n key.now (D.synced disk.old) (D.synced disk.new) (D.loose disk.new) }
    ensures cause { HasCause (D.faults disk.old) (D.faults disk.new) result }
{
    let lock = key.lock as u32;
    write_synced(disk, 42 + 68673 * lock, body)?;
    write_synced(disk, 34 + lock, &[1])
}

/// Records a hashkey on a disk. Where memory runs out, nothing was written.
pub(crate) fn store_ready<D: Disk>(
    alloc: Global,
    disk: &mut D,
    key: &Hashkey,
) -> Result<(), RecordFault>
    requires still { IsStill (D.seen disk.old) (D.may_leave disk.old) (D.loose disk.old) }
    requires made { is_made (D.seen disk.old) ≡ true }
    requires lock { key.now.lock < 8 }
    requires unrecorded { recorded (D.seen disk.old) key.now.lock ≡ None }
    requires few { length key.now.path ≤ 32 }
    requires paired { length key.now.sigs ≡ length key.now.path }
    ensures still { OnOk result (IsStill (D.seen disk.new) (D.may_leave disk.new) (D.loose disk.new)) }
    ensures gains { OnOk result (Gains (D.seen disk.old) key.now (D.seen disk.new)) }
    ensures any_moment { LeavesOnly D.moment D.left_since disk.old disk.new (IsInRecord (D.seen disk.old) key.now) }
    ensures written { OnOk result (IsWritten key.now (D.synced disk.old) (D.synced disk.new) (D.loose disk.new)) }
    ensures untouched { IfErr result (λ e. e ≡ Wanting → IsUntouched (D.seen disk.old) (D.seen disk.new) (D.may_leave disk.old) (D.may_leave disk.new)) }
    ensures never { D.never_fails disk.old → D.never_fails disk.new }
    ensures passes { D.never_fails disk.old → IfErr result (λ e. e ≡ Wanting) }
    ensures stops { (n : ℕ) → n < 4 → D.stops_after disk.old n → IsStoppedRecord n key.now (D.synced disk.old) (D.synced disk.new) (D.loose disk.new) result }
    ensures left { (n image : ℕ) → n < 4 → D.stops_after disk.old n → IsOfWrites (D.seen disk.old) (D.synced disk.old) → IfErr result (λ e. e ≡ Failing
        → recorded (bytes_left image (D.synced disk.new) (D.loose disk.new)) key.now.lock ≡ kept_key key.now n image) }
    ensures later { D.faults disk.old ≤ D.faults disk.new }
    ensures fault { IfErr result (IsRecordFault (D.faults disk.old) (D.faults disk.new) (D.seen disk.old) (D.seen disk.new) (D.may_leave disk.new)
        (D.loose disk.new)) }
{
    let body = encoded_body(alloc, key)?;
    disk.ready()?;
    store(disk, key, &body)?;
    Ok(())
}
