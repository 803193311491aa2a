//! How the ledgers are shared as a round begins, and closed as it ends.

ghost use Rattle.std.specs.Prelude.{◌≡◌, ◌≢◌, ◌<◌, ℕ, Some, None, IfOk, length, map};
ghost use Rattle.swap_digraph.specs.Deal.{IsWellSized};
ghost use Rattle.ledger_core.specs.Value.{LedgerState};
ghost use Rattle.ledger_shared.specs.Value.{table_clock};
ghost use Rattle.swap_world.specs.Inside.{IsArcLedger};
ghost use Rattle.party_threads.specs.Turns.{turn_actor, held_pass, held_clock, arc_ledger, HasArc, IsBehind, AreBehind, AreHome};
ghost use Rattle.party_threads.specs.Turns.{HavePlaces, IsArcFree, AreFree, dealt_party_pass, AreDealt, IsSet, AreSet, IsClosed, IsShut, IsSameShape, IsSameBut};

use crate::home::Home;
use crate::turn::{Turn, put, put_clock, seen_count, take, take_clock};
use ledger_core::Ledger;
use ledger_shared::{SharedLedger, share};
use std::alloc::Global;
use std::sync::Wait;
use swap_base::{ArcId, NoMemory};
use swap_digraph::Deal;

/// Shares the ledger of an arc, and hands out its three passes.
fn hand_out_one<R: Wait>(
    rt: &R,
    alloc: Global,
    deal: &Deal,
    arc: ArcId,
    ledger: Box<Ledger>,
    turns: &mut [Turn],
) -> Result<SharedLedger, NoMemory>
    requires ledger { IsArcLedger deal.now arc ledger.value }
    requires arc { arc < length deal.now.graph.arcs }
    requires sized { IsWellSized deal.now }
    requires places { HavePlaces deal.now turns.old }
    requires arcs { (v : ℕ) → v < deal.now.graph.n → HasArc (turn_actor turns.old v) arc }
    requires behind { (v : ℕ) → v < deal.now.graph.n → IsBehind (turn_actor turns.old v) v arc ledger.value.history }
    requires free { IsArcFree deal.now turns.old arc }
    ensures dealt { IfOk result (λ s. (v : ℕ) → v < deal.now.graph.n → held_pass turns.new v arc ≡ dealt_party_pass (turn_actor turns.old v) v s.lock ledger.value) }
    ensures clock { IfOk result (λ s. held_clock turns.new deal.now.graph.n arc ≡ Some (table_clock s.lock ledger.value)) }
    ensures others { IsSameBut arc turns.old turns.new }
{
    let whole = ledger.len();
    let ends = deal.graph.arcs()[arc as usize];
    let clock = deal.graph.n();
    let from = seen_count(turns, ends.from, arc, whole);
    let to = seen_count(turns, ends.to, arc, whole);
    match share(rt, alloc, ledger, from, to) {
        Ok((shared, first, second, ticker)) => {
            put(turns, ends.from, arc, first);
            put(turns, ends.to, arc, second);
            put_clock(turns, clock, arc, ticker);
            Ok(shared)
        }
        Err(_) => Err(NoMemory),
    }
}

/// Takes the ledger from its place.
fn leave(ledgers: &mut [Option<Home>], arc: ArcId) -> Box<Ledger>
    requires { (l : LedgerState) × (arc_ledger ledgers.old arc ≡ Some l) }
    ensures ledger { arc_ledger ledgers.old arc ≡ Some result.value }
    ensures number { length ledgers.new ≡ length ledgers.old }
    ensures others { (a : ℕ) → a ≢ arc → arc_ledger ledgers.new a ≡ arc_ledger ledgers.old a }
{
    match ledgers[arc as usize].take() {
        Some(home) => home.into_box(),
        None => unreachable!(),
    }
}

/// Puts the ledger back to its place.
fn come_home(ledgers: &mut [Option<Home>], arc: ArcId, ledger: Box<Ledger>)
    requires { arc < length ledgers.old }
    ensures ledger { arc_ledger ledgers.new arc ≡ Some ledger.value }
    ensures number { length ledgers.new ≡ length ledgers.old }
    ensures others { (a : ℕ) → a ≢ arc → arc_ledger ledgers.new a ≡ arc_ledger ledgers.old a }
{
    ledgers[arc as usize] = Some(Home::from_box(ledger));
}

/// Shares each ledger in order, and hands out the passes.
pub(crate) fn hand_out<R: Wait>(
    rt: &R,
    alloc: Global,
    deal: &Deal,
    ledgers: &mut [Option<Home>],
    turns: &mut [Turn],
) -> Result<Vec<SharedLedger>, NoMemory>
    requires sized { IsWellSized deal.now }
    requires home { AreHome deal.now ledgers.old }
    requires places { HavePlaces deal.now turns.old }
    requires free { AreFree deal.now turns.old }
    requires arcs { (v a : ℕ) → v < deal.now.graph.n → a < length deal.now.graph.arcs → HasArc (turn_actor turns.old v) a }
    requires behind { AreBehind deal.now turns.old ledgers.old }
    ensures dealt { IfOk result (λ s. AreDealt deal.now turns.new (map (λ x. x.lock) s.items) ledgers.old) }
    ensures one_each { IfOk result (λ s. length s.items ≡ length deal.now.graph.arcs) }
    ensures number { length ledgers.new ≡ length ledgers.old }
    ensures shape { IsSameShape turns.old turns.new }
{
    let mut shared = Vec::new(alloc);
    'arcs: for arc in 0..deal.graph.arcs().len() as ArcId {
        let ledger = leave(ledgers, arc);
        let one = hand_out_one(rt, alloc, deal, arc, ledger, turns)?;
        shared.push(one)?;
    }
    Ok(shared)
}

/// Takes the three passes of an arc back, and closes its ledger.
fn close_one(deal: &Deal, ledger: SharedLedger, arc: ArcId, turns: &mut [Turn]) -> Box<Ledger>
    requires sized { IsWellSized deal.now }
    requires places { HavePlaces deal.now turns.old }
    requires arc { arc < length deal.now.graph.arcs }
    requires set { IsSet deal.now turns.old arc ledger.lock }
    ensures closed { IsClosed deal.now turns.old arc result.value }
    ensures free { IsArcFree deal.now turns.new arc }
    ensures others { IsSameBut arc turns.old turns.new }
{
    let ends = deal.graph.arcs()[arc as usize];
    let first = take(turns, ends.from, arc);
    let second = take(turns, ends.to, arc);
    let clock = take_clock(turns, deal.graph.n(), arc);
    ledger.close(first, second, clock)
}

/// Takes all passes back, and closes each ledger, the last one first. It takes no memory.
pub(crate) fn close(
    deal: &Deal,
    mut shared: Vec<SharedLedger>,
    ledgers: &mut [Option<Home>],
    turns: &mut [Turn],
)
    requires sized { IsWellSized deal.now }
    requires places { HavePlaces deal.now turns.old }
    requires one_each { length shared.items ≡ length deal.now.graph.arcs }
    requires number { length ledgers.old ≡ length deal.now.graph.arcs }
    requires set { AreSet deal.now turns.old (map (λ x. x.lock) shared.items) }
    ensures closed { (a : ℕ) → a < length deal.now.graph.arcs → IsShut deal.now turns.old a (arc_ledger ledgers.new a) }
    ensures number { length ledgers.new ≡ length ledgers.old }
    ensures free { (a : ℕ) → a < length deal.now.graph.arcs → IsArcFree deal.now turns.new a }
    ensures shape { IsSameShape turns.old turns.new }
{
    'ledgers: while let Some(ledger) = shared.pop() {
        let arc = shared.len() as ArcId;
        let one = close_one(deal, ledger, arc, turns);
        come_home(ledgers, arc, one);
    }
}
