//! A journal of the hashkeys that a party signed.

ghost use Rattle.std.specs.Prelude.{◌≡◌, ◌≢◌, ◌<◌, ◌≤◌, ℕ, List, length, replicate, true, None, Some, slice_set};
ghost use Rattle.std.specs.Prelude.{MatchOption, MatchResult, IfOk, IfErr, OnErr, OnOk};
ghost use Rattle.swap_digraph.specs.Deal.{IsWellSized};
ghost use Rattle.wallet_journal.specs.Device.{LeavesOnly, IsUntouched};
ghost use Rattle.wallet_journal.specs.Layout.{recorded};
ghost use Rattle.wallet_journal.specs.Journal.{MayHaveRecorded, IsKeptJournal, IsMadePartyJournal, KeepsRecorded, listed_hashkey};
ghost use Rattle.wallet_journal.specs.Opening.{IsOpenFault, IsOpened};
ghost use Rattle.wallet_journal.specs.OwnDisks.{IsInRecord, IsOwn, IsOwnFault, FitsDeal};
ghost use Rattle.wallet_journal.specs.Recording.{IsRecordFault, IsRefusedRecord, IsStoppedRecord, IsWritten};
ghost use Rattle.swap_digraph.specs.declared.deal.Deal.{Deal as AnyDeal};
ghost use Rattle.hashkey_path.specs.declared.hashkey.Hashkey.{Hashkey as AnyKey};
ghost use Rattle.wallet_journal.specs.Held.{Leaves, visible_bytes};
ghost use Rattle.wallet_journal.specs.Stopped.{bytes_left, kept_key, IsOfWrites, IsOwnDisk, IsWrittenUp, ShowsAll};
ghost use Rattle.wallet_journal.specs.declared.fault.Unopened.TheVariants.{DiskFault as Failing};
ghost use Rattle.wallet_journal.specs.declared.fault.RecordFault.TheVariants.{DiskFault as Stopped, NoMemory as Wanting};

use crate::disk::Disk;
use crate::fault::{OpenFault, RecordFault};
use crate::memory::MemoryDisk;
use crate::opening::opened;
use crate::reading::SignedKeys;
use crate::storing::store_ready;
use hashkey_path::Hashkey;
use std::alloc::Global;
use std::marker::Model;
use std::mem;
use swap_base::{Digest, Listed, LockId, NoMemory, PartyId, Shared, TryCopy};
use swap_digraph::Deal;

/// A journal on a disk.
#[derive(Drop)]
pub struct Journal<D: Disk> {
    disk: D,
    id: Digest,
    me: PartyId,
    signed: SignedKeys,
    sound: bool,
}

impl<D: Disk> Model for Journal<D> {
    ghost use Rattle.std.specs.Prelude.{◌≡◌, true};
    ghost use Rattle.wallet_journal.specs.Journal.{JournalState, IsKeptJournal};

    ghost Value = { JournalState D };

    ghost view = { λ j. record { disk = j.disk; id = j.id; me = j.me; signed = j.signed; sound = j.sound } };

    ghost invariant = { λ j. j.sound ≡ true → IsKeptJournal (D.seen j.disk) (D.may_leave j.disk) (D.loose j.disk) j.id j.me j.signed };
}

/// Notes the hashkey that is recorded for a lock. It takes no memory.
fn note(signed: &mut SignedKeys, lock: LockId, key: Shared<Hashkey>)
    requires { lock < length signed.old }
    ensures { signed.new ≡ slice_set signed.old lock (Some key) }
{
    let alloc = signed.allocator();
    let mut keys = mem::replace(signed, Listed::empty(alloc)).into_vec();
    keys[lock as usize] = Some(key);
    *signed = Listed::new(keys);
}

/// Records a hashkey on a disk and notes it.
fn record_key<D: Disk>(
    disk: &mut D,
    id: &Digest,
    me: PartyId,
    signed: &mut SignedKeys,
    key: &Shared<Hashkey>,
) -> Result<(), RecordFault>
    requires kept { IsKeptJournal (D.seen disk.old) (D.may_leave disk.old) (D.loose disk.old) id.now me signed.old }
    requires lock { key.now.lock < length signed.old }
    requires unrecorded { listed_hashkey signed.old key.now.lock ≡ None }
    requires few { length key.now.path ≤ 32 }
    requires paired { length key.now.sigs ≡ length key.now.path }
    ensures kept { OnOk result (IsKeptJournal (D.seen disk.new) (D.may_leave disk.new) (D.loose disk.new) id.now me signed.new) }
    ensures noted { OnOk result (signed.new ≡ slice_set signed.old key.now.lock (Some key.now)) }
    ensures recorded { OnOk result (recorded (D.seen disk.new) key.now.lock ≡ Some key.now) }
    ensures any_moment { LeavesOnly D.moment D.left_since disk.old disk.new (IsInRecord (D.seen disk.old) key.now) }
    ensures written { OnOk result (IsWritten key.now (D.synced disk.old) (D.synced disk.new) (D.loose disk.new)) }
    ensures untouched { IfErr result (λ e. e ≡ Wanting → IsUntouched (D.seen disk.old) (D.seen disk.new) (D.may_leave disk.old) (D.may_leave disk.new)) }
    ensures never { D.never_fails disk.old → D.never_fails disk.new }
    ensures passes { D.never_fails disk.old → IfErr result (λ e. e ≡ Wanting) }
    ensures stops { (n : ℕ) → n < 4 → D.stops_after disk.old n → IsStoppedRecord n key.now (D.synced disk.old) (D.synced disk.new) (D.loose disk.new) result }
    ensures left { (n image : ℕ) → n < 4 → D.stops_after disk.old n → IsOfWrites (D.seen disk.old) (D.synced disk.old) → IfErr result (λ e. e ≡ Stopped
        → recorded (bytes_left image (D.synced disk.new) (D.loose disk.new)) key.now.lock ≡ kept_key key.now n image) }
    ensures later { D.faults disk.old ≤ D.faults disk.new }
    ensures fault { IfErr result (IsRecordFault (D.faults disk.old) (D.faults disk.new) (D.seen disk.old) (D.seen disk.new) (D.may_leave disk.new)
        (D.loose disk.new)) }
    ensures same { IfErr result (λ e. signed.new ≡ signed.old) }
{
    let alloc = signed.allocator();
    let noted = key.copy()?;
    store_ready(alloc, disk, key)?;
    note(signed, key.lock, noted);
    Ok(())
}

impl<D: Disk> Journal<D> {
    /// Opens the journal of a party of a deal, which it makes where the disk has none.
    pub fn open(
        alloc: Global,
        disk: D,
        deal: &Deal,
        me: PartyId,
    ) -> Result<Journal<D>, OpenFault<D>>
        requires sized { IsWellSized deal.now }
        ensures opened { IfOk result (λ j. (j.id ≡ deal.now.id) × (j.me ≡ me) × (j.sound ≡ true)
            × IsOpened deal.now me (D.seen disk) j.signed) }

        // A crash leaves just what is recorded.
        ensures durable { IfOk result (λ j. (i : ℕ) → i < length j.signed → (c : List ℕ) → D.may_leave j.disk c → recorded c i ≡ listed_hashkey j.signed i) }

        // What is recorded on each device that a crash could have left is recorded on each that one
        // leaves during the call or after it.
        ensures any_moment { MatchResult result (λ j. LeavesOnly D.moment D.left_since disk j.disk (KeepsRecorded (D.may_leave disk)))
            (λ e. LeavesOnly D.moment D.left_since disk e.disk (KeepsRecorded (D.may_leave disk))) }
        ensures fault { IfErr result (λ e. IsOpenFault deal.now me (D.seen disk) (D.faults disk) (D.faults e.disk) e.why) }
        ensures later { MatchResult result (λ j. D.faults disk ≤ D.faults j.disk) (λ e. D.faults disk ≤ D.faults e.disk) }

        // A refusal leaves the disk as it was, and so does want of memory.
        ensures untouched { IfErr result (λ e. e.why ≢ Failing → IsUntouched (D.seen disk) (D.seen e.disk) (D.may_leave disk) (D.may_leave e.disk)) }

        // Where each device that a crash could have left is of this deal's and party's journals, so
        // is each that one leaves, and it isn't refused.
        ensures own { ((c : List ℕ) → D.may_leave disk c → IsOwn deal.now me c) → MatchResult result
            (λ j. LeavesOnly D.moment D.left_since disk j.disk (IsOwn deal.now me)) (λ e. LeavesOnly D.moment D.left_since disk e.disk (IsOwn deal.now me)) }
        ensures own_fault { ((c : List ℕ) → D.may_leave disk c → IsOwn deal.now me c) → IfErr result (λ e. IsOwnFault e.why) }

        // A disk that never fails stays one, and gives no fault.
        ensures never { D.never_fails disk → MatchResult result (λ j. D.never_fails j.disk) (λ e. D.never_fails e.disk) }
        ensures passes { D.never_fails disk → IfErr result (λ e. e.why ≢ Failing) }
    {
        let mut disk = disk;
        match opened(alloc, &mut disk, deal, me) {
            Ok(signed) => Ok(Journal {
                disk,
                id: deal.id,
                me,
                signed,
                sound: true,
            }),
            Err(why) => Err(OpenFault { why, disk }),
        }
    }

    /// Records a hashkey. After a fault of the disk the journal is to be opened again; where memory
    /// runs out, it is as it was.
    pub fn record(&mut self, key: &Shared<Hashkey>) -> Result<(), RecordFault>
        requires sound { self.old.sound ≡ true }
        requires lock { key.now.lock < length self.old.signed }
        requires unrecorded { listed_hashkey self.old.signed key.now.lock ≡ None }
        requires few { length key.now.path ≤ 32 }
        requires paired { length key.now.sigs ≡ length key.now.path }
        ensures ok { OnOk result ((self.new.sound ≡ true) × (self.new.signed ≡ slice_set self.old.signed key.now.lock (Some key.now))) }

        // Each crash leaves it recorded.
        ensures recorded { OnOk result ((c : List ℕ) → D.may_leave self.new.disk c → recorded c key.now.lock ≡ Some key.now) }

        // The writes were those of its body and of its gate, and no more.
        ensures written { OnOk result (IsWritten key.now (D.synced self.old.disk) (D.synced self.new.disk) (D.loose self.new.disk)) }

        // A crash at any moment leaves it recorded whole or not at all, and each other lock as it
        // was.
        ensures whole { LeavesOnly D.moment D.left_since self.old.disk self.new.disk (MayHaveRecorded (D.seen self.old.disk) key.now) }
        ensures any_moment { LeavesOnly D.moment D.left_since self.old.disk self.new.disk (KeepsRecorded (D.may_leave self.old.disk)) }
        ensures own { (d : AnyDeal) → FitsDeal d key.now → ((c : List ℕ) → D.may_leave self.old.disk c → IsOwn d self.old.me c)
            → LeavesOnly D.moment D.left_since self.old.disk self.new.disk (IsOwn d self.old.me) }

        // A disk that never fails stays one, and gives no fault. One that stops within the four
        // calls has the writes of those so far.
        ensures never { D.never_fails self.old.disk → D.never_fails self.new.disk }
        ensures passes { D.never_fails self.old.disk → IfErr result (λ e. e ≡ Wanting) }
        ensures stops { (n : ℕ) → n < 4 → D.stops_after self.old.disk n
            → IsStoppedRecord n key.now (D.synced self.old.disk) (D.synced self.new.disk) (D.loose self.new.disk) result }

        // Where the disk is one in memory, that tells what a crash then leaves recorded.
        ensures left { (n image : ℕ) → n < 4 → D.stops_after self.old.disk n → IsOfWrites (D.seen self.old.disk) (D.synced self.old.disk)
            → IfErr result (λ e. e ≡ Stopped
            → recorded (bytes_left image (D.synced self.new.disk) (D.loose self.new.disk)) key.now.lock ≡ kept_key key.now n image) }
        ensures same { (self.new.id ≡ self.old.id) × (self.new.me ≡ self.old.me) }
        ensures later { D.faults self.old.disk ≤ D.faults self.new.disk }

        // Want of memory comes before anything is written.
        ensures untouched { IfErr result (λ e. e ≡ Wanting
            → IsUntouched (D.seen self.old.disk) (D.seen self.new.disk) (D.may_leave self.old.disk) (D.may_leave self.new.disk)) }
        ensures fault { IfErr result (λ e. IsRefusedRecord (D.faults self.old.disk) (D.faults self.new.disk) e self.old.signed self.new.signed self.new.sound) }
    {
        match record_key(&mut self.disk, &self.id, self.me, &mut self.signed, key) {
            Ok(()) => Ok(()),
            Err(fault) => {
                self.sound = matches!(fault, RecordFault::NoMemory);
                Err(fault)
            }
        }
    }

    /// The hashkey that is recorded for a lock, if any.
    pub fn signed(&self, lock: LockId) -> Option<&Hashkey>
        requires lock { lock < length self.now.signed }
        ensures value { MatchOption result (listed_hashkey self.now.signed lock ≡ None) (λ k. listed_hashkey self.now.signed lock ≡ Some k.now) }

        // As long as no call answers that the disk failed, the disk has recorded the same for the
        // lock, at once and after each crash.
        ensures shown { self.now.sound ≡ true → recorded (D.seen self.now.disk) lock ≡ listed_hashkey self.now.signed lock }
        ensures durable { self.now.sound ≡ true → (c : List ℕ) → D.may_leave self.now.disk c → recorded c lock ≡ listed_hashkey self.now.signed lock }
    {
        match &self.signed.as_slice()[lock as usize] {
            Some(key) => Some(key),
            None => None,
        }
    }

    /// For each lock the hashkey that is recorded, if any.
    pub fn keys(&self) -> &SignedKeys
        ensures value { result.now ≡ self.now.signed }
        ensures locks { self.now.sound ≡ true → (i : ℕ) (k : AnyKey) → i < length self.now.signed → listed_hashkey self.now.signed i ≡ Some k → k.lock ≡ i }
    {
        &self.signed
    }

    /// The disk. Where no call answered that it failed, each crash leaves this deal's and party's
    /// journal on the disk, with the hashkeys that it shows.
    pub fn disk(&self) -> &D
        ensures value { result.now ≡ self.now.disk }
        ensures shown { self.now.sound ≡ true → (i : ℕ) → i < length self.now.signed → recorded (D.seen self.now.disk) i ≡ listed_hashkey self.now.signed i }
        ensures durable { self.now.sound ≡ true → (i : ℕ) → i < length self.now.signed → (c : List ℕ) → D.may_leave self.now.disk c
            → recorded c i ≡ listed_hashkey self.now.signed i }
        ensures made { self.now.sound ≡ true → (c : List ℕ) → D.may_leave self.now.disk c → IsMadePartyJournal self.now.id self.now.me c }
    {
        &self.disk
    }

    /// The disk, without taking memory.
    pub fn into_disk(self) -> D
        ensures value { result ≡ self.disk }
        ensures made { self.sound ≡ true → (c : List ℕ) → D.may_leave self.disk c → IsMadePartyJournal self.id self.me c }
    {
        self.disk
    }
}

impl Journal<MemoryDisk> {
    /// The journal of a party of a deal on a new disk in memory, on which no call fails.
    pub fn in_memory(
        alloc: Global,
        deal: &Deal,
        me: PartyId,
    ) -> Result<Journal<MemoryDisk>, NoMemory>
        requires sized { IsWellSized deal.now }
        ensures made { IfOk result (λ j. (j.id ≡ deal.now.id) × (j.me ≡ me) × (j.sound ≡ true)) }
        ensures none { IfOk result (λ j. j.signed ≡ replicate (length deal.now.leaders) None) }
        ensures own { IfOk result (λ j. IsOwnDisk deal.now me j.disk) }
        ensures durable { IfOk result (λ j. ShowsAll j.signed j.disk.held) }
    {
        let disk = MemoryDisk::new(alloc, Vec::new(alloc));
        match Journal::open(alloc, disk, deal, me) {
            Ok(journal) => Ok(journal),
            Err(_) => Err(NoMemory),
        }
    }

    /// The disk, where it is one in memory: what a read gives is among what a crash may leave.
    pub fn memory(&self) -> &MemoryDisk
        ensures value { result.now ≡ self.now.disk }
        ensures among { Leaves result.now.held (visible_bytes result.now.held) }
    {
        self.disk.as_read()
    }

    /// Lets the next `k` calls of the disk pass, and every later one fail.
    pub fn limit_calls(&mut self, k: u8)
        ensures left { self.new ≡ record self.old { disk = record self.old.disk { left = Some k } } }
        ensures ready { self.old.sound ≡ true → IsWrittenUp self.old.disk self.old.signed }
    {
        self.disk.limit_calls(k);
    }

    /// The disk crashes with an image, and the journal is opened again. Where memory runs out, it
    /// is to be opened again.
    pub fn crash(&mut self, alloc: Global, deal: &Deal, image: u8) -> Result<(), NoMemory>
        requires sized { IsWellSized deal.now }
        requires own { (c : List ℕ) → Leaves self.old.disk.held c → IsOwn deal.now self.old.me c }
        ensures opened { OnOk result ((self.new.id ≡ deal.now.id) × (self.new.me ≡ self.old.me) × (self.new.sound ≡ true)) }
        ensures places { OnOk result (length self.new.signed ≡ length deal.now.leaders) }
        ensures shown { OnOk result ((i : ℕ) → i < length self.new.signed
            → listed_hashkey self.new.signed i ≡ recorded (bytes_left image self.old.disk.held.synced self.old.disk.held.loose) i) }
        ensures left { Leaves self.old.disk.held (bytes_left image self.old.disk.held.synced self.old.disk.held.loose) }
        ensures own { OnOk result (IsOwnDisk deal.now self.old.me self.new.disk) }
        ensures durable { OnOk result (ShowsAll self.new.signed self.new.disk.held) }
        ensures lost { OnErr result ((c : List ℕ) → Leaves self.new.disk.held c → Leaves self.old.disk.held c) }
        ensures party { self.new.me ≡ self.old.me }
    {
        let disk = mem::replace(&mut self.disk, MemoryDisk::new(alloc, Vec::new(alloc)));
        match Journal::open(alloc, disk.crash(image), deal, self.me) {
            Ok(journal) => {
                *self = journal;
                Ok(())
            }
            Err(fault) => {
                self.disk = fault.disk;
                self.sound = false;
                Err(NoMemory)
            }
        }
    }
}
