//! What a disk has recorded as its journal is opened.

ghost use Rattle.std.specs.Prelude.{◌≡◌, ◌≢◌, ◌↔◌, ◌<◌, ◌≤◌, ◌+◌, ℕ, map, length, false, true, replicate, None, IsOk, IfOk, IfErr, OnOk};
ghost use Rattle.std.specs.List.{range_with_len};
ghost use Rattle.swap_digraph.specs.Deal.{IsWellSized, path_limit};
ghost use Rattle.swap_io.specs.Causes.{HasCause};
ghost use Rattle.wallet_journal.specs.Device.{AddsNone, IsStill, IsUntouched, LeavesOnly, slice};
ghost use Rattle.wallet_journal.specs.Layout.{is_made, recorded};
ghost use Rattle.wallet_journal.specs.Journal.{IsUnused, IsKeptJournal};
ghost use Rattle.wallet_journal.specs.Opening.{IsReadFault, IsLeastDamaged, IsPartyJournal, IsOpenFault, IsOpened, is_damaged_contents};
ghost use Rattle.wallet_journal.specs.OwnDisks.{IsInOpening};
ghost use Rattle.wallet_journal.specs.declared.fault.Unopened.TheVariants.{DiskFault as Failing};

use crate::disk::{DISK_BYTES, Disk};
use crate::fault::Unopened;
use crate::making::make;
use crate::reading::{SignedKeys, recorded_keys};
use std::alloc::Global;
use swap_base::{Digest, Listed, NoMemory, PartyId};
use swap_digraph::{Deal, path_limit};
use swap_io::Failed;

/// The bytes in front of the bodies: the mark that a journal is made, the deal's id, the party, and
/// the gates.
const HEAD_BYTES: usize = 42;

fn zeros(alloc: Global, n: usize) -> Result<Vec<u8>, NoMemory>
    ensures { IfOk result (λ v. length v.items ≡ n) }
{
    Ok(vec![in alloc; 0u8; n]?)
}

/// Syncs the disk and reads its head.
fn sync_and_read<D: Disk>(disk: &mut D, head: &mut [u8]) -> Result<(), Failed>
    requires sized { length (D.seen disk.old) ≡ 549426 }
    requires size { length head.old ≡ 42 }
    requires spare { 2 ≤ D.spare disk.old }
    ensures bytes { OnOk result (head.new ≡ slice 0 42 (D.seen disk.new)) }
    ensures same { OnOk result (D.seen disk.new ≡ D.seen disk.old) }
    ensures still { OnOk result (IsStill (D.seen disk.new) (D.may_leave disk.new) (D.loose disk.new)) }
    ensures left { LeavesOnly D.moment D.left_since disk.old disk.new (D.may_leave disk.old) }
    ensures among { OnOk result (D.may_leave disk.old (D.seen disk.new)) }
    ensures crash { AddsNone (D.may_leave disk.old) (D.may_leave disk.new) }
    ensures never { D.never_fails disk.old → IsOk result × D.never_fails disk.new }
    ensures spare { D.spare disk.old ≤ D.spare disk.new + 2 }
    ensures cause { HasCause (D.faults disk.old) (D.faults disk.new) result }
{
    disk.sync()?;
    disk.read(0, head)
}

/// The head of a disk that was synced.
fn read_head<D: Disk>(disk: &mut D) -> Result<[u8; HEAD_BYTES], Unopened>
    ensures bytes { IfOk result (λ h. h ≡ slice 0 42 (D.seen disk.new)) }
    ensures same { OnOk result (D.seen disk.new ≡ D.seen disk.old) }
    ensures still { OnOk result (IsStill (D.seen disk.new) (D.may_leave disk.new) (D.loose disk.new)) }
    ensures left { LeavesOnly D.moment D.left_since disk.old disk.new (D.may_leave disk.old) }
    ensures among { D.may_leave disk.old (D.seen disk.old) }
    ensures crash { AddsNone (D.may_leave disk.old) (D.may_leave disk.new) }
    ensures wanting { IfErr result (λ e. e ≢ Failing → D.seen disk.new ≡ D.seen disk.old) }
    ensures never { D.never_fails disk.old → D.never_fails disk.new }
    ensures passes { D.never_fails disk.old → IfErr result (λ e. e ≢ Failing) }
    ensures spare { OnOk result (4 ≤ D.spare disk.new) }
    ensures later { D.faults disk.old ≤ D.faults disk.new }
    ensures fault { IfErr result (IsReadFault (D.faults disk.old) (D.faults disk.new)) }
{
    disk.ready()?;
    let mut head = [0u8; HEAD_BYTES];
    sync_and_read(disk, &mut head)?;
    Ok(head)
}

/// The bytes of a still disk.
fn read_whole<D: Disk>(alloc: Global, disk: &mut D) -> Result<Vec<u8>, Unopened>
    requires still { IsStill (D.seen disk.old) (D.may_leave disk.old) (D.loose disk.old) }
    requires spare { 0 < D.spare disk.old }
    ensures bytes { IfOk result (λ v. v.items ≡ D.seen disk.old) }
    ensures same { D.seen disk.new ≡ D.seen disk.old }
    ensures still { IsStill (D.seen disk.new) (D.may_leave disk.new) (D.loose disk.new) }
    ensures left { LeavesOnly D.moment D.left_since disk.old disk.new (D.may_leave disk.old) }
    ensures never { D.never_fails disk.old → D.never_fails disk.new }
    ensures passes { D.never_fails disk.old → IfErr result (λ e. e ≢ Failing) }
    ensures later { D.faults disk.old ≤ D.faults disk.new }
    ensures fault { IfErr result (IsReadFault (D.faults disk.old) (D.faults disk.new)) }
{
    let mut bytes = zeros(alloc, DISK_BYTES)?;
    disk.read(0, &mut bytes)?;
    Ok(bytes)
}

fn none_signed(alloc: Global, locks: u8) -> Result<SignedKeys, Unopened>
    ensures value { IfOk result (λ s. s ≡ replicate locks None) }
    ensures fault { IfErr result (IsReadFault 0 0) }
    ensures passes { IfErr result (λ e. e ≢ Failing) }
{
    let mut keys = Vec::new(alloc);
    'locks: for _lock in 0..locks {
        keys.push(None)?;
    }
    Ok(Listed::new(keys))
}

fn is_id(bytes: &[u8], id: &Digest) -> bool
    ensures { (result ≡ true) ↔ (bytes.now ≡ id.now) }
{
    bytes == id.as_slice()
}

fn is_made(head: &[u8]) -> bool
    requires { 0 < length head.now }
    ensures { result ≡ is_made head.now }
{
    head[0] == 1
}

/// Whether a head is of a party's journal of a deal.
fn head_matches(head: &[u8], deal: &Deal, me: PartyId) -> bool
    requires { length head.now ≡ 42 }
    ensures { (result ≡ true) ↔ IsPartyJournal deal.now me head.now }
{
    is_id(&head[1..33], &deal.id) && head[33] == me
}

/// What bytes have recorded for each lock of a deal, or the least lock whose body can't be one of
/// the deal's.
fn sound_keys(alloc: Global, bytes: &[u8], deal: &Deal) -> Result<SignedKeys, Unopened>
    requires sized { IsWellSized deal.now }
    requires size { length bytes.now ≡ 549426 }
    ensures value { IfOk result (λ s. s ≡ map (recorded bytes.now) (range_with_len 0 (length deal.now.leaders))) }
    ensures sound { OnOk result ((i : ℕ) → i < length deal.now.leaders → is_damaged_contents deal.now bytes.now i ≡ false) }
    ensures fault { IfErr result (IsLeastDamaged (path_limit deal.now) deal.now.graph.n bytes.now (length deal.now.leaders)) }
{
    let locks = deal.leaders.len() as u8;
    recorded_keys(alloc, bytes, path_limit(deal), deal.graph.n(), locks)
}

/// What a still disk, on which a journal is made, has recorded of a party's journal of a deal.
fn found<D: Disk>(
    alloc: Global,
    disk: &mut D,
    head: &[u8],
    deal: &Deal,
    me: PartyId,
) -> Result<SignedKeys, Unopened>
    requires sized { IsWellSized deal.now }
    requires still { IsStill (D.seen disk.old) (D.may_leave disk.old) (D.loose disk.old) }
    requires head { head.now ≡ slice 0 42 (D.seen disk.old) }
    requires made { is_made (D.seen disk.old) ≡ true }
    requires spare { 0 < D.spare disk.old }
    ensures kept { IfOk result (IsKeptJournal (D.seen disk.new) (D.may_leave disk.new) (D.loose disk.new) deal.now.id me) }
    ensures shown { IfOk result (IsOpened deal.now me (D.seen disk.old)) }
    ensures untouched { IsUntouched (D.seen disk.old) (D.seen disk.new) (D.may_leave disk.old) (D.may_leave disk.new) }
    ensures left { LeavesOnly D.moment D.left_since disk.old disk.new (D.may_leave disk.old) }
    ensures never { D.never_fails disk.old → D.never_fails disk.new }
    ensures passes { D.never_fails disk.old → IfErr result (λ e. e ≢ Failing) }
    ensures later { D.faults disk.old ≤ D.faults disk.new }
    ensures fault { IfErr result (IsOpenFault deal.now me (D.seen disk.old) (D.faults disk.old) (D.faults disk.new)) }
{
    if !head_matches(head, deal, me) {
        return Err(Unopened::Foreign);
    }
    let bytes = read_whole(alloc, disk)?;
    sound_keys(alloc, &bytes, deal)
}

/// Makes the journal of a party on a disk that has none.
fn begun<D: Disk>(
    alloc: Global,
    disk: &mut D,
    deal: &Deal,
    me: PartyId,
) -> Result<SignedKeys, Unopened>
    requires sized { IsWellSized deal.now }
    requires still { IsStill (D.seen disk.old) (D.may_leave disk.old) (D.loose disk.old) }
    requires unmade { is_made (D.seen disk.old) ≡ false }
    requires spare { 4 ≤ D.spare disk.old }
    ensures kept { IfOk result (IsKeptJournal (D.seen disk.new) (D.may_leave disk.new) (D.loose disk.new) deal.now.id me) }
    ensures value { IfOk result (λ s. s ≡ replicate (length deal.now.leaders) None) }
    ensures any_moment { LeavesOnly D.moment D.left_since disk.old disk.new (IsUnused deal.now.id me) }
    ensures untouched { IfErr result (λ e. e ≢ Failing → IsUntouched (D.seen disk.old) (D.seen disk.new) (D.may_leave disk.old) (D.may_leave disk.new)) }
    ensures never { D.never_fails disk.old → D.never_fails disk.new }
    ensures passes { D.never_fails disk.old → IfErr result (λ e. e ≢ Failing) }
    ensures later { D.faults disk.old ≤ D.faults disk.new }
    ensures fault { IfErr result (IsReadFault (D.faults disk.old) (D.faults disk.new)) }
{
    let signed = none_signed(alloc, deal.leaders.len() as u8)?;
    make(disk, &deal.id, me)?;
    Ok(signed)
}

/// What a disk has recorded of a party's journal of a deal, which is made there where there is
/// none.
pub(crate) fn opened<D: Disk>(
    alloc: Global,
    disk: &mut D,
    deal: &Deal,
    me: PartyId,
) -> Result<SignedKeys, Unopened>
    requires sized { IsWellSized deal.now }
    ensures kept { IfOk result (IsKeptJournal (D.seen disk.new) (D.may_leave disk.new) (D.loose disk.new) deal.now.id me) }
    ensures shown { IfOk result (IsOpened deal.now me (D.seen disk.old)) }
    ensures any_moment { LeavesOnly D.moment D.left_since disk.old disk.new (IsInOpening deal.now me (D.may_leave disk.old)) }
    ensures among { D.may_leave disk.old (D.seen disk.old) }
    ensures untouched { IfErr result (λ e. e ≢ Failing → IsUntouched (D.seen disk.old) (D.seen disk.new) (D.may_leave disk.old) (D.may_leave disk.new)) }
    ensures never { D.never_fails disk.old → D.never_fails disk.new }
    ensures passes { D.never_fails disk.old → IfErr result (λ e. e ≢ Failing) }
    ensures later { D.faults disk.old ≤ D.faults disk.new }
    ensures fault { IfErr result (IsOpenFault deal.now me (D.seen disk.old) (D.faults disk.old) (D.faults disk.new)) }
{
    let head = read_head(disk)?;
    if is_made(&head) {
        found(alloc, disk, &head, deal, me)
    } else {
        begun(alloc, disk, deal, me)
    }
}
