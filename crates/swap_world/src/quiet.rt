//! The number of rounds in which nobody has anything to do.

ghost use Rattle.std.specs.Prelude.{◌≡◌, ◌<◌, ◌≤◌, ◌+◌, ℕ, length, slice_index_or};
ghost use Rattle.ledger_core.specs.History.{height};
ghost use Rattle.ledger_core.specs.Book.{history};
ghost use Rattle.swap_run.specs.Fair.{adjacent_arcs};
ghost use Rattle.swap_world.specs.Acting.{histories};
ghost use Rattle.swap_world.specs.Players.{Actor};
ghost use Rattle.swap_world.specs.TouchingArcs.{all_adjacent};
ghost use Rattle.swap_world.specs.Quiet.{IsLow, AreLow, IsCalm, IsCalmActor, IsReadyActor, HasSeen, HaveArcs};

use crate::player::{Actor, Player};
use crate::turn::fresh_ticks;
use ledger_core::Ledger;
use party_machine::Machine;
use swap_base::{ArcId, Listed};
use swap_digraph::Deal;

/// Up to `most` rounds, each with one tick, for which the height stays at or below `until`.
fn remaining_rounds(height: u32, until: u64, most: u64) -> u64
    ensures few { result ≤ most }
    ensures low { 0 < result → height + result ≤ until }
{
    let height = height as u64;
    if until < height {
        return 0;
    }
    let room = until - height;
    if most < room { most } else { room }
}

/// Up to `most` rounds of ticks on this ledger that leave a resting party at rest. The party has
/// seen the first `seen` entries of the ledger and rests until its height passes `until`.
fn ledger_rounds(ledger: &Ledger, seen: u32, until: u64, most: u64) -> u64
    requires { seen ≤ length ledger.now.history }
    ensures few { result ≤ most }
    ensures low { 0 < result → IsLow seen until result ledger.now.history }
{
    match fresh_ticks(ledger, seen) {
        None => 0,
        Some(_) => remaining_rounds(ledger.height(), until, most),
    }
}

/// Up to `most` rounds of ticks on these arcs' ledgers that leave the machine at rest. The machine
/// rests until a height passes `until`.
fn bounded_rounds(
    ledgers: &[Ledger],
    machine: &Machine,
    near: &[ArcId],
    until: u64,
    most: u64,
) -> u64
    requires arcs { HaveArcs (length ledgers.now) machine.now.deal near.now }
    requires seen { HasSeen machine.now (histories ledgers.now) }
    ensures few { result ≤ most }
    ensures low { 0 < result → AreLow machine.now.known until result (histories ledgers.now) near.now }
{
    let mut rounds = most;
    'arcs: for arc in near {
        let place = *arc as usize;
        let seen = machine.known(*arc).count();
        rounds = ledger_rounds(&ledgers[place], seen, until, rounds);
    }
    rounds
}

/// Up to `most` rounds in which a machine that looks at these arcs makes no call.
fn machine_rounds(ledgers: &[Ledger], machine: &Machine, near: &[ArcId], most: u64) -> u64
    requires arcs { HaveArcs (length ledgers.now) machine.now.deal near.now }
    requires seen { HasSeen machine.now (histories ledgers.now) }
    ensures few { result ≤ most }
    ensures calm { 0 < result → IsCalm result (histories ledgers.now) near.now machine.now }
{
    match machine.idle_deadline() {
        None => 0,
        Some(until) => bounded_rounds(ledgers, machine, near, until, most),
    }
}

/// Up to `most` rounds in which the party makes no call.
fn needed_rounds(ledgers: &[Ledger], actor: &Actor, near: &[ArcId], most: u64) -> u64
    requires { IsReadyActor (length ledgers.now) (histories ledgers.now) near.now actor.now }
    ensures few { result ≤ most }
    ensures calm { 0 < result → IsCalmActor result (histories ledgers.now) near.now actor.now }
{
    match actor {
        Player::Conforming(machine, _) => machine_rounds(ledgers, machine, near, most),
        Player::Planned(_) => 0,
        Player::Manual => most,
    }
}

/// Up to `most` rounds in which nobody makes a call.
pub(crate) fn rounds(
    deal: &Deal,
    ledgers: &[Ledger],
    actors: &[Actor],
    near: &[Listed<ArcId>],
    most: u64,
) -> u64
    requires near { near.now ≡ all_adjacent deal.now }
    requires parties { length actors.now ≡ deal.now.graph.n }
    requires ready { (v : ℕ) (x : Actor) → v < length actors.now
        → IsReadyActor (length ledgers.now) (histories ledgers.now) (adjacent_arcs deal.now v) (slice_index_or actors.now v x) }
    ensures few { result ≤ most }
    ensures calm { 0 < result → (v : ℕ) (x : Actor) → v < length actors.now
        → IsCalmActor result (histories ledgers.now) (adjacent_arcs deal.now v) (slice_index_or actors.now v x) }
{
    let mut rounds = most;
    'parties: for p in 0..actors.len() {
        rounds = needed_rounds(ledgers, &actors[p], near[p].as_slice(), rounds);
    }
    rounds
}

/// Up to `most` rounds for which the first ledger stays at or below the horizon.
pub(crate) fn horizon_rounds(ledgers: &[Ledger], horizon: u64, most: u64) -> u64
    ensures few { result ≤ most }
    ensures some { 0 < result → 0 < length ledgers.now }
    ensures low { 0 < result → height (history (histories ledgers.now) 0) + result ≤ horizon }
{
    if ledgers.is_empty() {
        return 0;
    }
    remaining_rounds(ledgers[0].height(), horizon, most)
}
