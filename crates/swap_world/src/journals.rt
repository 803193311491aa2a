//! The journals of conforming parties, and the crash of one.

ghost use Rattle.std.specs.Prelude.{◌≡◌, ◌⊎◌, ◌<◌, ◌≤◌, ℕ, List, [], true, Some, None, length, map, replicate, slice_set, All, IfOk, OnOk, OnErr};
ghost use Rattle.ledger_core.specs.Book.{history};
ghost use Rattle.swap_digraph.specs.Deal.{IsWellSized};
ghost use Rattle.hashkey_path.specs.declared.hashkey.Hashkey.{Hashkey};
ghost use Rattle.swap_rules.specs.Due.{Action};
ghost use Rattle.wallet_journal.specs.Held.{Leaves, visible_bytes};
ghost use Rattle.wallet_journal.specs.Layout.{recorded};
ghost use Rattle.wallet_journal.specs.OwnDisks.{IsOwn};
ghost use Rattle.wallet_journal.specs.Stopped.{bytes_left, kept_key, IsWrittenUp};
ghost use Rattle.party_machine.specs.Machine.{next_due, resumed_machine, IsOfSame};
ghost use Rattle.party_machine.specs.Recording.{signs_next, MayHave};
ghost use Rattle.swap_run.specs.Run.{recorded_hashkeys, relearnt, signed_through_call};
ghost use Rattle.swap_world.specs.Acting.{histories, IsSameOwner};
ghost use Rattle.swap_world.specs.Inside.{AreArcLedgers};
ghost use Rattle.swap_world.specs.Players.{without_journal};
ghost use Rattle.swap_world.specs.Journals.{near_known, HasNewJournal, IsDiskDuringSigning, IsMachineJournal};

use crate::player::{Actor, Player};
use crate::turn::learn;
use ledger_core::{Ledger, is_adjacent};
use party_machine::Machine;
use std::alloc::Global;
use swap_base::{ArcId, NoMemory};
use swap_digraph::Deal;
use wallet_journal::{Journal, MemoryDisk, RecordFault};

/// A player with its journal, where it conforms, on a disk on which nothing was written before.
fn with_journal(alloc: Global, deal: &Deal, player: Player<()>) -> Result<Actor, NoMemory>
    requires sized { IsWellSized deal.now }
    ensures same { IfOk result (λ x. without_journal x ≡ player) }
    ensures journal { IfOk result (HasNewJournal deal.now) }
{
    match player {
        Player::Conforming(machine, ()) => {
            let journal = Journal::in_memory(alloc, deal, machine.me())?;
            // A read of the disk gives what a crash may leave.
            let _disk = journal.memory();
            Ok(Player::Conforming(machine, journal))
        }
        Player::Planned(planner) => Ok(Player::Planned(planner)),
        Player::Manual => Ok(Player::Manual),
    }
}

/// The players with their journals. Each journal lies on a disk on which nothing was written
/// before.
pub(crate) fn with_journals(
    alloc: Global,
    deal: &Deal,
    players: Vec<Player<()>>,
) -> Result<Vec<Actor>, NoMemory>
    requires sized { IsWellSized deal.now }
    ensures same { IfOk result (λ v. map without_journal v.items ≡ players.items) }
    ensures journals { IfOk result (λ v. All (HasNewJournal deal.now) v.items) }
{
    let mut actors = Vec::new(alloc);
    'players: for player in players {
        actors.push(with_journal(alloc, deal, player)?)?;
    }
    Ok(actors)
}

/// A party begins its act on a disk that stops within the call after k of them. The party makes no
/// call.
fn begin(machine: &mut Machine, journal: &mut Journal<MemoryDisk>, _k: u8) -> Result<(), NoMemory>
    requires few { _k ≤ 3 }
    requires locks { length machine.old.signed ≤ 8 }
    requires opened { (journal.old.id ≡ machine.old.deal.id) × (journal.old.me ≡ machine.old.me) }
    requires sound { journal.old.sound ≡ true }
    requires recorded { journal.old.signed ≡ machine.old.signed }
    requires stops { (journal.old.disk.failing ≡ []) × (journal.old.disk.left ≡ Some _k) }
    requires written { IsWrittenUp journal.old.disk journal.old.signed }
    ensures left { OnOk result ((image : ℕ) (key : Hashkey) → signs_next machine.old ≡ Some key
        → recorded (bytes_left image journal.new.disk.held.synced journal.new.disk.held.loose) key.lock ≡ kept_key key _k image) }
    ensures calm { OnOk result (signs_next machine.old ≡ None → (x : Action) → next_due machine.old ≡ Some x
        → signed_through_call machine.old.signed x.call ≡ machine.old.signed) }
    ensures whole { (c : List ℕ) → Leaves journal.new.disk.held c
        → Leaves journal.old.disk.held c ⊎ MayHave (visible_bytes journal.old.disk.held) (signs_next machine.old) c }
    ensures own { ((c : List ℕ) → Leaves journal.old.disk.held c → IsOwn machine.old.deal journal.old.me c)
        → (c : List ℕ) → Leaves journal.new.disk.held c → IsOwn machine.old.deal journal.old.me c }
    ensures same { IsOfSame machine.old machine.new }
    ensures party { journal.new.me ≡ journal.old.me }
    ensures between { IsDiskDuringSigning machine.old.signed machine.new.signed journal.new.disk.held }
{
    match machine.next_recorded(journal) {
        Ok(_answer) => Ok(()),
        Err(RecordFault::DiskFault) => Ok(()),
        Err(RecordFault::NoMemory) => Err(NoMemory),
    }
}

/// A party begins its act and stops within disk call k, counted from 0. It restarts with what a
/// crash with that image leaves of its disk.
fn restart(
    alloc: Global,
    machine: &mut Machine,
    journal: &mut Journal<MemoryDisk>,
    deal: &Deal,
    k: u8,
    image: u8,
) -> Result<(), NoMemory>
    requires sized { IsWellSized deal.now }
    requires same { machine.old.deal ≡ deal.now }
    requires few { k ≤ 3 }
    requires places { length machine.old.signed ≡ length deal.now.leaders }
    requires journal { IsMachineJournal deal.now machine.old.me machine.old.signed journal.old }
    ensures ok { OnOk result (machine.new
        ≡ resumed_machine machine.old.deal machine.old.me machine.old.seed (recorded_hashkeys machine.old.signed (next_due machine.old) k image)) }
    ensures owner { IsSameOwner machine.old machine.new }
    ensures journal { OnOk result (IsMachineJournal deal.now machine.old.me machine.new.signed journal.new) }
    ensures between { IsDiskDuringSigning machine.old.signed machine.new.signed journal.new.disk.held }
{
    journal.limit_calls(k);
    begin(machine, journal, k)?;
    journal.crash(alloc, deal, image)?;
    // A read of the disk gives what a crash may leave.
    let _disk = journal.memory();
    machine.restart(journal)
}

/// Lets a machine that knows nothing of an arc know its ledger to its end, where that touches it.
fn learn_if_adjacent(
    machine: &mut Machine,
    deal: &Deal,
    ledgers: &[Ledger],
    arc: ArcId,
) -> Result<(), NoMemory>
    requires arc { arc < length deal.now.graph.arcs }
    requires same { machine.old.deal ≡ deal.now }
    requires ledgers { AreArcLedgers deal.now ledgers.now }
    requires none { history machine.old.known arc ≡ [] }
    ensures ok { OnOk result (machine.new ≡ record machine.old {
      known =
          slice_set machine.old.known arc (near_known deal.now machine.old.me (histories ledgers.now) arc);
    }) }
    ensures owner { IsSameOwner machine.old machine.new }
    ensures signed { machine.new.signed ≡ machine.old.signed }
{
    if !is_adjacent(deal, arc, machine.me()) {
        return Ok(());
    }
    learn(machine, &ledgers[arc as usize])
}

/// Lets a machine that knows nothing know each ledger that touches it to its end.
fn relearn(machine: &mut Machine, deal: &Deal, ledgers: &[Ledger]) -> Result<(), NoMemory>
    requires sized { IsWellSized deal.now }
    requires same { machine.old.deal ≡ deal.now }
    requires ledgers { AreArcLedgers deal.now ledgers.now }
    requires none { machine.old.known ≡ replicate (length deal.now.graph.arcs) [] }
    ensures ok { OnOk result (machine.new ≡ record machine.old { known = relearnt deal.now machine.old.me (histories ledgers.now) }) }
    ensures owner { IsSameOwner machine.old machine.new }
    ensures signed { machine.new.signed ≡ machine.old.signed }
{
    'arcs: for arc in 0..deal.graph.arcs().len() as ArcId {
        learn_if_adjacent(machine, deal, ledgers, arc)?;
    }
    Ok(())
}

/// A party crashes within its act and restarts. It then knows each ledger that touches it to its
/// end.
pub(crate) fn crash(
    machine: &mut Machine,
    journal: &mut Journal<MemoryDisk>,
    deal: &Deal,
    ledgers: &Vec<Ledger>,
    k: u8,
    image: u8,
) -> Result<(), NoMemory>
    requires sized { IsWellSized deal.now }
    requires same { machine.old.deal ≡ deal.now }
    requires few { k ≤ 3 }
    requires places { length machine.old.signed ≡ length deal.now.leaders }
    requires ledgers { AreArcLedgers deal.now ledgers.now.items }
    requires journal { IsMachineJournal deal.now machine.old.me machine.old.signed journal.old }
    ensures ok { OnOk result (machine.new ≡ record machine.old {
      known = relearnt deal.now machine.old.me (histories ledgers.now.items);
      signed = recorded_hashkeys machine.old.signed (next_due machine.old) k image;
    }) }
    ensures owner { IsSameOwner machine.old machine.new }
    ensures journal { OnOk result (IsMachineJournal deal.now machine.old.me machine.new.signed journal.new) }
    ensures between { OnErr result (IsDiskDuringSigning machine.old.signed machine.new.signed journal.new.disk.held) }
{
    let alloc = *ledgers.allocator();
    restart(alloc, machine, journal, deal, k, image)?;
    relearn(machine, deal, ledgers)
}
