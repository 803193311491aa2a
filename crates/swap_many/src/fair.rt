//! The fair finish of many swaps, by turns and rounds.

ghost use Rattle.std.specs.Prelude.{◌≡◌, ◌<◌, ◌≤◌, ◌+◌, ℕ, IfOk, OnOk, OnErr, fold, length, true, false};
ghost use Rattle.std.specs.List.{range_with_len};
ghost use Rattle.swap_run.specs.Fair.{adjacent_arcs, repeat};
ghost use Rattle.swap_run.specs.Run.{conforms};
ghost use Rattle.swap_world.specs.Value.{world_cast};
ghost use Rattle.swap_many.specs.Fair.{kept_acts, kept_looks, kept_round_or_rest, kept_rounds, kept_sweeps, kept_ticks, kept_turn, kept_turns};
ghost use Rattle.swap_many.specs.Fair.{have_ended, kept_swap_sweeps};
ghost use Rattle.swap_many.specs.Kept.{kept_finish};
ghost use Rattle.swap_many.specs.Many.{last_horizon};
ghost use Rattle.swap_many.specs.TouchingArcs.{AreAdjacentArcs, swap_adjacent_arcs};
ghost use Rattle.swap_many.specs.Value.{HasManyGone, IsManyStopped, CanContinue, IsSwapParty, many_kept, world_setup, nth_world};

use crate::worlds::Worlds;
use swap_base::{ArcId, Listed, NoMemory, PartyId};
use swap_job::Event;
use swap_run::Strategies;
use swap_world::most_acts;

/// Lets a party of a swap look at each of these arcs, which are those that touch it.
fn look_around<A: Strategies>(
    worlds: &mut Worlds,
    strategies: &A,
    swap: u8,
    p: PartyId,
    near: &[ArcId],
) -> Result<(), NoMemory>
    requires party { IsSwapParty worlds.old swap p }
    requires near { near.now ≡ adjacent_arcs (nth_world worlds.old swap).deal p }
    requires on { CanContinue (A.holds strategies.now) worlds.old }
    ensures ok { OnOk result (HasManyGone (A.gives strategies.now) (kept_looks swap p) worlds.old worlds.new) }
    ensures err { OnErr result (IsManyStopped (A.gives strategies.now) (kept_looks swap p) worlds.old worlds.new) }
{
    'arcs: for arc in near {
        worlds.happen(strategies, swap, &Event::Look(p, *arc))?;
    }
    Ok(())
}

/// Lets a conforming party act until nothing is due.
fn act_to_rest<A: Strategies>(
    worlds: &mut Worlds,
    strategies: &A,
    swap: u8,
    p: PartyId,
) -> Result<(), NoMemory>
    requires party { IsSwapParty worlds.old swap p }
    requires conforms { conforms (world_cast (nth_world worlds.old swap)) p ≡ true }
    requires on { CanContinue (A.holds strategies.now) worlds.old }
    ensures ok { OnOk result (HasManyGone (A.gives strategies.now) (kept_acts swap p) worlds.old worlds.new) }
    ensures err { OnErr result (IsManyStopped (A.gives strategies.now) (kept_acts swap p) worlds.old worlds.new) }
{
    'acts: for _ in 0..most_acts(worlds.deal(swap)) {
        if worlds.happen(strategies, swap, &Event::Act(p))?.is_none() {
            return Ok(());
        }
    }
    Ok(())
}

/// A party's turn: it looks around, and then acts: until nothing is due where it conforms, else
/// once.
fn turn<A: Strategies>(
    worlds: &mut Worlds,
    strategies: &A,
    swap: u8,
    p: PartyId,
    near: &[ArcId],
) -> Result<(), NoMemory>
    requires party { IsSwapParty worlds.old swap p }
    requires near { near.now ≡ adjacent_arcs (nth_world worlds.old swap).deal p }
    requires on { CanContinue (A.holds strategies.now) worlds.old }
    ensures ok { OnOk result (HasManyGone (A.gives strategies.now) (λ m z. kept_turn swap m z p) worlds.old worlds.new) }
    ensures err { OnErr result (IsManyStopped (A.gives strategies.now) (λ m z. kept_turn swap m z p) worlds.old worlds.new) }
{
    look_around(worlds, strategies, swap, p, near)?;
    if worlds.conforms(swap, p) {
        return act_to_rest(worlds, strategies, swap, p);
    }
    worlds.happen(strategies, swap, &Event::Act(p))?;
    Ok(())
}

/// The turns of a swap's parties, in their order.
fn turns<A: Strategies>(
    worlds: &mut Worlds,
    strategies: &A,
    swap: u8,
    near: &[Listed<ArcId>],
) -> Result<(), NoMemory>
    requires swap { swap < length worlds.old.worlds }
    requires near { near.now ≡ swap_adjacent_arcs (nth_world worlds.old swap) }
    requires on { CanContinue (A.holds strategies.now) worlds.old }
    ensures ok { OnOk result (HasManyGone (A.gives strategies.now) (λ m z. kept_turns m z swap) worlds.old worlds.new) }
    ensures err { OnErr result (IsManyStopped (A.gives strategies.now) (λ m z. kept_turns m z swap) worlds.old worlds.new) }
{
    'parties: for p in 0..worlds.deal(swap).graph.n() {
        let place = p as usize;
        turn(worlds, strategies, swap, p, near[place].as_slice())?;
    }
    Ok(())
}

/// Every swap's turns.
fn all_turns<A: Strategies>(
    worlds: &mut Worlds,
    strategies: &A,
    near: &[Listed<Listed<ArcId>>],
) -> Result<(), NoMemory>
    requires near { AreAdjacentArcs near.now worlds.old.worlds }
    requires on { CanContinue (A.holds strategies.now) worlds.old }
    ensures ok { OnOk result (HasManyGone (A.gives strategies.now) (λ m z. fold (kept_turns m) z (range_with_len 0 m.swaps)) worlds.old worlds.new) }
    ensures err { OnErr result (IsManyStopped (A.gives strategies.now) (λ m z. fold (kept_turns m) z (range_with_len 0 m.swaps)) worlds.old worlds.new) }
{
    'each: for swap in 0..worlds.swaps() {
        let place = swap as usize;
        turns(worlds, strategies, swap, near[place].as_slice())?;
    }
    Ok(())
}

/// Each chain ticks by one height.
fn ticks<A: Strategies>(worlds: &mut Worlds, strategies: &A) -> Result<(), NoMemory>
    requires on { CanContinue (A.holds strategies.now) worlds.old }
    ensures ok { OnOk result (HasManyGone (A.gives strategies.now) kept_ticks worlds.old worlds.new) }
    ensures err { OnErr result (IsManyStopped (A.gives strategies.now) kept_ticks worlds.old worlds.new) }
{
    'each: for chain in 0..worlds.chains() {
        worlds.tick(strategies, chain, 1)?;
    }
    Ok(())
}

/// Whether each chain is above that height.
fn have_ended(worlds: &Worlds, horizon: u64) -> bool
    requires { horizon ≡ last_horizon (world_setup worlds.now) }
    ensures { result ≡ have_ended (world_setup worlds.now) (many_kept worlds.now) }
{
    'each: for chain in 0..worlds.chains() {
        if worlds.height(chain) as u64 <= horizon {
            return false;
        }
    }
    true
}

/// Takes this many ticks of each chain.
fn pass<A: Strategies>(worlds: &mut Worlds, strategies: &A, count: u64) -> Result<(), NoMemory>
    requires on { CanContinue (A.holds strategies.now) worlds.old }
    ensures ok { OnOk result (HasManyGone (A.gives strategies.now) (λ m z. repeat count (kept_ticks m) z) worlds.old worlds.new) }
    ensures err { OnErr result (IsManyStopped (A.gives strategies.now) (λ m z. repeat count (kept_ticks m) z) worlds.old worlds.new) }
{
    'rounds: for _ in 0..count {
        ticks(worlds, strategies)?;
    }
    Ok(())
}

/// Some rounds, at most `most`. First come the rounds in which nobody makes a call, and only their
/// ticks are taken. Then comes one more: every swap's turns, and then the ticks. It answers the
/// number of rounds.
fn advance<A: Strategies>(
    worlds: &mut Worlds,
    strategies: &A,
    near: &[Listed<Listed<ArcId>>],
    horizon: u64,
    most: u64,
) -> Result<u64, NoMemory>
    requires near { AreAdjacentArcs near.now worlds.old.worlds }
    requires horizon { horizon ≡ last_horizon (world_setup worlds.old) }
    requires low { have_ended (world_setup worlds.old) (many_kept worlds.old) ≡ false }
    requires some { 1 ≤ most }
    requires on { CanContinue (A.holds strategies.now) worlds.old }
    ensures ok { IfOk result (λ n. HasManyGone (A.gives strategies.now) (λ m z. repeat n (kept_round_or_rest m) z) worlds.old worlds.new) }
    ensures some { IfOk result (λ n. 1 ≤ n) }
    ensures few { IfOk result (λ n. n ≤ most) }
    ensures err { OnErr result ((n : ℕ) × (n ≤ most)
        × IsManyStopped (A.gives strategies.now) (λ m z. repeat n (kept_round_or_rest m) z) worlds.old worlds.new) }
{
    let quiet = worlds.quiet_rounds(near, horizon, most - 1);
    pass(worlds, strategies, quiet)?;
    all_turns(worlds, strategies, near)?;
    ticks(worlds, strategies)?;
    Ok(quiet + 1)
}

/// Rounds until each chain is above every horizon, for which one more than the greatest are enough.
fn rounds<A: Strategies>(
    worlds: &mut Worlds,
    strategies: &A,
    near: &[Listed<Listed<ArcId>>],
) -> Result<(), NoMemory>
    requires near { AreAdjacentArcs near.now worlds.old.worlds }
    requires on { CanContinue (A.holds strategies.now) worlds.old }
    ensures ok { OnOk result (HasManyGone (A.gives strategies.now) kept_rounds worlds.old worlds.new) }
    ensures err { OnErr result (IsManyStopped (A.gives strategies.now) kept_rounds worlds.old worlds.new) }
{
    let horizon = worlds.last_horizon();
    let mut left = horizon + 1;
    'rounds: while left > 0 {
        if have_ended(worlds, horizon) {
            return Ok(());
        }
        let taken = advance(worlds, strategies, near, horizon, left)?;
        left -= taken;
    }
    Ok(())
}

/// Sweeps every slot of a swap.
fn sweep_all<A: Strategies>(worlds: &mut Worlds, strategies: &A, swap: u8)
    requires swap { swap < length worlds.old.worlds }
    requires on { CanContinue (A.holds strategies.now) worlds.old }
    ensures { HasManyGone (A.gives strategies.now) (λ m z. kept_swap_sweeps m z swap) worlds.old worlds.new }
{
    'arcs: for arc in 0..worlds.deal(swap).graph.arcs().len() as ArcId {
        worlds.sweep(strategies, swap, arc, true);
    }
}

/// Sweeps every slot.
fn sweeps<A: Strategies>(worlds: &mut Worlds, strategies: &A)
    requires on { CanContinue (A.holds strategies.now) worlds.old }
    ensures { HasManyGone (A.gives strategies.now) kept_sweeps worlds.old worlds.new }
{
    'each: for swap in 0..worlds.swaps() {
        sweep_all(worlds, strategies, swap);
    }
}

/// The rounds, for which the arcs that touch each party are listed once.
fn listed_rounds<A: Strategies>(worlds: &mut Worlds, strategies: &A) -> Result<(), NoMemory>
    requires on { CanContinue (A.holds strategies.now) worlds.old }
    ensures ok { OnOk result (HasManyGone (A.gives strategies.now) kept_rounds worlds.old worlds.new) }
    ensures err { OnErr result (IsManyStopped (A.gives strategies.now) kept_rounds worlds.old worlds.new) }
{
    match worlds.adjacent_arcs() {
        Ok(near) => rounds(worlds, strategies, &near),
        Err(NoMemory) => {
            worlds.stop();
            Err(NoMemory)
        }
    }
}

/// The fair finish: rounds, and then a sweep of every slot.
pub(crate) fn finish<A: Strategies>(worlds: &mut Worlds, strategies: &A) -> Result<(), NoMemory>
    requires on { CanContinue (A.holds strategies.now) worlds.old }
    ensures ok { OnOk result (HasManyGone (A.gives strategies.now) kept_finish worlds.old worlds.new) }
    ensures err { OnErr result (IsManyStopped (A.gives strategies.now) kept_finish worlds.old worlds.new) }
{
    listed_rounds(worlds, strategies)?;
    sweeps(worlds, strategies);
    Ok(())
}
