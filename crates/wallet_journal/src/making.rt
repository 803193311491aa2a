//! Making a journal on a disk that has none.

ghost use Rattle.std.specs.Prelude.{◌≡◌, ◌<◌, ◌≤◌, false, IsOk, OnOk};
ghost use Rattle.swap_io.specs.Causes.{HasCause};
ghost use Rattle.wallet_journal.specs.Device.{LeavesOnly, IsStill};
ghost use Rattle.wallet_journal.specs.Layout.{is_made};
ghost use Rattle.wallet_journal.specs.Journal.{IsUnused, IsNewJournal, IsHead};

use crate::disk::Disk;
use crate::writing::write_synced;
use swap_base::{Digest, PartyId};
use swap_io::Failed;

/// A deal's id, a party, and eight closed gates.
fn encoded_head(id: &Digest, me: PartyId) -> [u8; 41]
    ensures { IsHead id.now me result }
{
    let mut head = [0u8; 41];
    head[..32].copy_from_slice(id);
    head[32] = me;
    head
}

/// Writes all but byte 0, and then byte 0, each with a sync.
pub(crate) fn make<D: Disk>(disk: &mut D, id: &Digest, me: PartyId) -> Result<(), Failed>
    requires still { IsStill (D.seen disk.old) (D.may_leave disk.old) (D.loose disk.old) }
    requires unmade { is_made (D.seen disk.old) ≡ false }
    requires spare { 4 ≤ D.spare disk.old }
    ensures still { OnOk result (IsStill (D.seen disk.new) (D.may_leave disk.new) (D.loose disk.new)) }
    ensures new { OnOk result (IsNewJournal id.now me (D.seen disk.new)) }
    ensures any_moment { LeavesOnly D.moment D.left_since disk.old disk.new (IsUnused id.now me) }
    ensures never { D.never_fails disk.old → IsOk result × D.never_fails disk.new }
    ensures cause { HasCause (D.faults disk.old) (D.faults disk.new) result }
{
    write_synced(disk, 1, &encoded_head(id, me))?;
    write_synced(disk, 0, &[1])
}
