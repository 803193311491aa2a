//! Machines that are made again from a journal, as a table.

ghost use Rattle.std.specs.Prelude.{◌≡◌, ◌<◌, [], true, None, length};
ghost use Rattle.swap_digraph.specs.Deal.{IsWellSized};

use hashkey_path::Hashkey;
use party_machine::{Machine, MachineFault, Misfit};
use party_wallet::Wallet;
use std::alloc::Global;
use std::test::Fail;
use swap_base::{Digest, Fault, Listed, LockId, NoMemory, PartyId, Shared};
use swap_digraph::Deal;
use tests_parts::small_deal;
use wallet_journal::{Journal, MemoryDisk};

/// A hashkey for a lock, as timelocks have it.
fn bare(alloc: Global, lock: LockId) -> Result<Shared<Hashkey>, NoMemory> {
    let key = Hashkey {
        lock,
        secret: [9; 32],
        path: Listed::empty(alloc),
        sigs: Listed::empty(alloc),
    };
    Ok(Shared::new(alloc, key)?)
}

/// Records a hashkey, where the journal has a place for it and none there, on a disk that never
/// fails.
fn record(journal: &mut Journal<MemoryDisk>, key: &Shared<Hashkey>)
    requires sound { journal.old.sound ≡ true }
    requires never { (journal.old.disk.failing ≡ []) × (journal.old.disk.left ≡ None) }
    ensures sound { journal.new.sound ≡ true }
    ensures same { (journal.new.id ≡ journal.old.id) × (journal.new.me ≡ journal.old.me) }
    ensures places { length journal.new.signed ≡ length journal.old.signed }
{
    if key.path.len() > 32 || key.sigs.len() != key.path.len() {
        return;
    }
    if (key.lock as usize) < journal.keys().len() && journal.signed(key.lock).is_none() {
        let _ = journal.record(key);
    }
}

/// What a machine that was made says of itself, or why it wasn't made.
fn told(made: Result<Machine, MachineFault>) -> &'static str {
    match made {
        Ok(machine) => {
            let mut machine = machine;
            match machine.next() {
                Ok(None) => "nothing due",
                Ok(Some(_)) => "something due",
                Err(NoMemory) => "NoMemory",
            }
        }
        Err(Fault::Refused(Misfit::WrongWallet(0))) => "WrongWallet 0",
        Err(Fault::Refused(Misfit::WrongWallet(_))) => "WrongWallet",
        Err(Fault::NoMemory) => "NoMemory",
    }
}

/// What is told of a party's machine that is made of its journal, on which a hashkey for a lock is
/// recorded, if there is such a lock.
fn resumed(
    alloc: Global,
    deal: &Deal,
    party: PartyId,
    lock: LockId,
) -> Result<&'static str, NoMemory>
    requires sized { IsWellSized deal.now }
    requires party { party < deal.now.graph.n }
{
    let mut journal = Journal::in_memory(alloc, deal, party)?;
    record(&mut journal, &bare(alloc, lock)?);
    let seed: Digest = [9; 32];
    let wallet = Wallet::for_deal(alloc, &seed, party, deal)?;
    Ok(told(Machine::resume(alloc, deal, party, wallet, &journal)))
}

fn is_told(alloc: Global, deal: &Deal, row: &str) -> Result<(), Fail>
    requires { IsWellSized deal.now }
{
    let (asked, wanted) = row.split_once(" => ").unwrap_or((row, ""));
    let (party, lock) = asked.split_once(" ").unwrap_or((asked, ""));
    let party: PartyId = party.parse().unwrap_or(99);
    if party >= deal.graph.n() {
        return Err("no such party".into());
    }
    let answer = resumed(alloc, deal, party, lock.parse().unwrap_or(99))?;
    if answer != wanted {
        return Err(Fail::new(format_args!("{row} but {answer}")));
    }
    Ok(())
}

fn are_told(alloc: Global, deal: &Deal, table: &str) -> Result<(), Fail>
    requires { IsWellSized deal.now }
{
    for row in table.lines() {
        is_told(alloc, deal, row)?;
    }
    Ok(())
}

/// A party, and the lock for which its journal has a hashkey recorded (9: none).
const RESUMED: &str = "\
0 9 => WrongWallet 0
0 0 => WrongWallet 0
1 9 => nothing due
1 0 => nothing due
1 1 => nothing due";

#[test]
fn machines_of_journals(rt: HostRuntime) -> Result<(), Fail> {
    let alloc = rt.alloc();
    let deal = small_deal(alloc)?;
    are_told(alloc, &deal, RESUMED)
}
