//! Journals on disks whose calls fail, or that stop and crash.

ghost use Rattle.std.specs.Prelude.{◌≡◌, true};
ghost use Rattle.swap_digraph.specs.Deal.{IsWellSized};

use crate::tests::rows::{answers, parted, word_number};
use crate::tests::shown::{key_told, refusal};
use hashkey_path::Hashkey;
use std::alloc::{AllocError, Global};
use std::test::Fail;
use swap_base::{NoMemory, Shared};
use swap_digraph::Deal;
use wallet_journal::{Journal, MemoryDisk, RecordFault};

/// What a journal shows once it is opened from its disk, or why it isn't opened.
fn opened_again(alloc: Global, deal: &Deal, key: &Hashkey, disk: MemoryDisk) -> &'static str
    requires { IsWellSized deal.now }
{
    match Journal::open(alloc, disk, deal, 1) {
        Ok(journal) => key_told(&journal, key),
        Err(fault) => refusal(fault.why),
    }
}

/// What a journal answers that is to record the hashkey.
fn recorded(journal: &mut Journal<MemoryDisk>, key: &Shared<Hashkey>) -> &'static str
    requires { journal.old.sound ≡ true }
{
    if key.path.len() > 32 || key.sigs.len() != key.path.len() {
        return "no hashkey of a deal";
    }
    if key.lock as usize >= journal.keys().len() || journal.signed(key.lock).is_some() {
        return "no lock, or recorded before";
    }
    match journal.record(key) {
        Ok(()) => "Ok",
        Err(RecordFault::DiskFault) => "DiskFault",
        Err(RecordFault::NoMemory) => "NoMemory",
    }
}

/// What a journal answers whose disk stops after some calls, and what another shows after a crash.
fn stopped_outcome(
    alloc: Global,
    deal: &Deal,
    key: &Shared<Hashkey>,
    journal: Journal<MemoryDisk>,
    calls: u8,
    image: u8,
) -> (&'static str, &'static str)
    requires sized { IsWellSized deal.now }
    requires sound { journal.sound ≡ true }
{
    let mut journal = journal;
    journal.limit_calls(calls);
    let answer = recorded(&mut journal, key);
    (
        answer,
        opened_again(alloc, deal, key, journal.into_disk().crash(image)),
    )
}

fn stopped(
    alloc: Global,
    deal: &Deal,
    key: &Shared<Hashkey>,
    calls: u8,
    image: u8,
) -> (&'static str, &'static str)
    requires { IsWellSized deal.now }
{
    match Journal::open(alloc, MemoryDisk::new(alloc, Vec::new(alloc)), deal, 1) {
        Ok(journal) => stopped_outcome(alloc, deal, key, journal, calls, image),
        Err(fault) => (refusal(fault.why), "not opened"),
    }
}

/// What is answered where the record's disk stops after some calls, and what is shown after a
/// crash.
pub(crate) fn stop_told(
    alloc: Global,
    deal: &Deal,
    key: &Shared<Hashkey>,
    asked: &str,
) -> Result<String, AllocError>
    requires { IsWellSized deal.now }
{
    let (calls, image) = parted(asked, " ");
    let (answer, shown) = stopped(alloc, deal, key, word_number(calls), word_number(image));
    format!(in alloc; "{answer}, {shown}")
}

fn recorded_outcome(
    alloc: Global,
    deal: &Deal,
    key: &Shared<Hashkey>,
    journal: Journal<MemoryDisk>,
) -> (&'static str, &'static str)
    requires sized { IsWellSized deal.now }
    requires sound { journal.sound ≡ true }
{
    let mut journal = journal;
    let answer = recorded(&mut journal, key);
    (answer, opened_again(alloc, deal, key, journal.into_disk()))
}

/// What is answered where one call of the disk fails, and what a journal shows that is opened on
/// the same disk again.
fn failed(
    alloc: Global,
    deal: &Deal,
    key: &Shared<Hashkey>,
    disk: MemoryDisk,
) -> (&'static str, &'static str)
    requires { IsWellSized deal.now }
{
    match Journal::open(alloc, disk, deal, 1) {
        Ok(journal) => recorded_outcome(alloc, deal, key, journal),
        Err(fault) => (
            refusal(fault.why),
            opened_again(alloc, deal, key, fault.disk),
        ),
    }
}

fn failing_disk(alloc: Global, call: u8) -> Result<MemoryDisk, NoMemory> {
    let failing = Vec::from_slice(alloc, &[call as u64])?;
    Ok(MemoryDisk::new(alloc, failing))
}

/// What is answered where the call of this number fails, and what is shown on the same disk then.
pub(crate) fn fault_told(
    alloc: Global,
    deal: &Deal,
    key: &Shared<Hashkey>,
    asked: &str,
) -> Result<String, AllocError>
    requires { IsWellSized deal.now }
{
    let Ok(disk) = failing_disk(alloc, word_number(asked)) else {
        return String::from_str(alloc, "NoMemory");
    };
    let (answer, shown) = failed(alloc, deal, key, disk);
    format!(in alloc; "{answer}, {shown}")
}

/// How many calls of a record pass, and the number that a crash gives to what isn't synced: what is
/// answered, and what is shown after the crash.
const EARLY_STOPS: &str = "\
0 0 => DiskFault, no key
0 1 => DiskFault, no key
0 7 => DiskFault, no key
0 255 => DiskFault, no key
1 0 => DiskFault, no key
1 1 => DiskFault, no key
1 7 => DiskFault, no key
1 255 => DiskFault, no key";

/// What is answered and shown where the body is synced.
const LATE_STOPS: &str = "\
2 0 => DiskFault, no key
2 1 => DiskFault, the key
2 7 => DiskFault, no key
2 255 => DiskFault, no key
3 0 => DiskFault, no key
3 1 => DiskFault, the key
3 7 => DiskFault, no key
3 255 => DiskFault, no key";

/// What is answered and shown where all four calls pass.
const NO_STOPS: &str = "\
4 0 => Ok, the key
4 1 => Ok, the key
4 7 => Ok, the key
4 255 => Ok, the key
5 0 => Ok, the key";

/// The number of the call that fails: what is answered, and what is shown then. The first six calls
/// make the journal, the next four record, and three open it again: they sync, read the head, and
/// read all.
const FAULTS: &str = "\
0 => DiskFault, no key
1 => DiskFault, no key
2 => DiskFault, no key
3 => DiskFault, no key
4 => DiskFault, no key
5 => DiskFault, no key
6 => DiskFault, no key
7 => DiskFault, no key
8 => DiskFault, the key
9 => DiskFault, the key
10 => Ok, DiskFault
11 => Ok, DiskFault
12 => Ok, DiskFault
13 => Ok, the key";

#[test]
fn records_that_stop_early(rt: HostRuntime) -> Result<(), Fail> {
    answers(rt.alloc(), "stops", EARLY_STOPS)
}

#[test]
fn records_that_stop_late(rt: HostRuntime) -> Result<(), Fail> {
    answers(rt.alloc(), "stops", LATE_STOPS)
}

#[test]
fn records_that_do_not_stop(rt: HostRuntime) -> Result<(), Fail> {
    answers(rt.alloc(), "stops", NO_STOPS)
}

#[test]
fn failing_calls(rt: HostRuntime) -> Result<(), Fail> {
    answers(rt.alloc(), "faults", FAULTS)
}
