//! The fair finish, by turns and rounds.

ghost use Rattle.std.specs.Prelude.{◌≡◌, ◌<◌, ◌≤◌, ◌+◌, ℕ, IfOk, OnOk, OnErr, length, replicate, true, false};
ghost use Rattle.swap_digraph.specs.Deal.{IsWellSized};
ghost use Rattle.swap_run.specs.Run.{conforms};
ghost use Rattle.swap_run.specs.Fair.{acts, adjacent_arcs, finish, is_above_horizon, looks, most_acts, repeat, round_unless_ended};
ghost use Rattle.swap_run.specs.Fair.{the_horizon, tick_low, ticks, turn, turns};
ghost use Rattle.swap_run.specs.Steps.{finish_steps, look_steps, low_step, pass_steps, rounds_steps, tick_steps, turn_steps, turns_steps};
ghost use Rattle.swap_world.specs.Value.{world_cast};
ghost use Rattle.swap_world.specs.Gone.{HasGone};
ghost use Rattle.swap_world.specs.Actors.{AreHeld};
ghost use Rattle.swap_world.specs.TouchingArcs.{all_adjacent};
ghost use Rattle.swap_world.specs.Stopped.{IsStopped};

use crate::touching_arcs::arcs_by_party;
use crate::world::World;
use swap_base::{ArcId, Listed, NoMemory, PartyId};
use swap_digraph::Deal;
use swap_job::Event;
use swap_run::Strategies;
use time_bounds::horizon;

/// Lets a party look at each of these arcs, which are those that touch it.
fn look_around<A: Strategies>(
    world: &mut World,
    strategies: &A,
    p: PartyId,
    near: &[ArcId],
) -> Result<(), NoMemory>
    requires party { p < world.old.deal.graph.n }
    requires near { near.now ≡ adjacent_arcs world.old.deal p }
    requires held { AreHeld (A.holds strategies.now) world.old.roles }
    ensures ok { OnOk result (HasGone (A.gives strategies.now) (λ c s. looks c p s) world.old world.new) }
    ensures err { OnErr result (IsStopped (A.gives strategies.now) (λ c s. look_steps c.deal p) world.old world.new) }
{
    'arcs: for arc in near {
        world.step(strategies, &Event::Look(p, *arc))?;
    }
    Ok(())
}

/// The most calls of a conforming party.
pub fn most_acts(deal: &Deal) -> u32
    requires { IsWellSized deal.now }
    ensures { result ≡ most_acts deal.now }
{
    (deal.leaders.len() as u32 + 3) * deal.graph.arcs().len() as u32
}

/// Lets a conforming party act until nothing is due.
fn act_to_rest<A: Strategies>(
    world: &mut World,
    _strategies: &A,
    p: PartyId,
) -> Result<(), NoMemory>
    requires party { p < world.old.deal.graph.n }
    requires conforms { conforms (world_cast world.old) p ≡ true }
    requires goes_on { world.old.stopped ≡ false }
    ensures ok { OnOk result (HasGone (A.gives _strategies.now) (λ c s. acts c p (most_acts world.old.deal) s) world.old world.new) }
    ensures err { OnErr result (IsStopped (A.gives _strategies.now) (λ c s. replicate (most_acts world.old.deal) (Event.Act p)) world.old world.new) }
{
    'acts: for _ in 0..most_acts(world.deal()) {
        if !world.act_if_due(p)? {
            return Ok(());
        }
    }
    Ok(())
}

/// A party's turn: it looks around, and then acts. A conforming party acts until nothing is due,
/// another one acts once.
fn turn<A: Strategies>(
    world: &mut World,
    strategies: &A,
    p: PartyId,
    near: &[ArcId],
) -> Result<(), NoMemory>
    requires party { p < world.old.deal.graph.n }
    requires near { near.now ≡ adjacent_arcs world.old.deal p }
    requires goes_on { world.old.stopped ≡ false }
    requires held { AreHeld (A.holds strategies.now) world.old.roles }
    ensures ok { OnOk result (HasGone (A.gives strategies.now) (λ c s. turn c s p) world.old world.new) }
    ensures err { OnErr result (IsStopped (A.gives strategies.now) (λ c s. turn_steps c p) world.old world.new) }
{
    look_around(world, strategies, p, near)?;
    if world.conforms(p) {
        return act_to_rest(world, strategies, p);
    }
    world.step(strategies, &Event::Act(p))
}

/// The turns of all parties, in their order.
fn turns<A: Strategies>(
    world: &mut World,
    strategies: &A,
    near: &[Listed<ArcId>],
) -> Result<(), NoMemory>
    requires near { near.now ≡ all_adjacent world.old.deal }
    requires goes_on { world.old.stopped ≡ false }
    requires held { AreHeld (A.holds strategies.now) world.old.roles }
    ensures ok { OnOk result (HasGone (A.gives strategies.now) turns world.old world.new) }
    ensures err { OnErr result (IsStopped (A.gives strategies.now) (λ c s. turns_steps c) world.old world.new) }
{
    'parties: for p in 0..world.deal().graph.n() {
        let place = p as usize;
        turn(world, strategies, p, near[place].as_slice())?;
    }
    Ok(())
}

/// The height above which a ledger of the world has ended.
pub(crate) fn deal_horizon(deal: &Deal) -> u64
    requires { IsWellSized deal.now }
    ensures { result ≡ the_horizon deal.now }
{
    horizon(deal.start, deal.delta, deal.bound)
}

/// Ticks a ledger by one height, where it isn't above the horizon.
fn tick_low<A: Strategies>(world: &mut World, _strategies: &A, arc: ArcId) -> Result<(), NoMemory>
    requires arc { arc < length world.old.deal.graph.arcs }
    requires goes_on { world.old.stopped ≡ false }
    ensures ok { OnOk result (HasGone (A.gives _strategies.now) (λ c s. tick_low c s arc) world.old world.new) }
    ensures err { OnErr result (IsStopped (A.gives _strategies.now) (λ c s. low_step c.deal s.book arc) world.old world.new) }
{
    if world.height(arc) as u64 > deal_horizon(world.deal()) {
        return Ok(());
    }
    world.tick(arc, 1)
}

/// Ticks each ledger that isn't above the horizon by one height.
fn ticks<A: Strategies>(world: &mut World, strategies: &A) -> Result<(), NoMemory>
    requires goes_on { world.old.stopped ≡ false }
    ensures ok { OnOk result (HasGone (A.gives strategies.now) ticks world.old world.new) }
    ensures err { OnErr result (IsStopped (A.gives strategies.now) (λ c s. tick_steps c.deal s.book) world.old world.new) }
{
    'arcs: for arc in 0..world.deal().graph.arcs().len() as ArcId {
        tick_low(world, strategies, arc)?;
    }
    Ok(())
}

/// Whether each ledger is above the horizon.
fn is_above_horizon(world: &World) -> bool
    ensures { result ≡ is_above_horizon world.now.deal world.now.state.book }
{
    let horizon = deal_horizon(world.deal());
    for arc in 0..world.deal().graph.arcs().len() as ArcId {
        if world.height(arc) as u64 <= horizon {
            return false;
        }
    }
    true
}

/// Ticks each ledger that isn't above the horizon by one height, `count` times.
fn pass<A: Strategies>(world: &mut World, strategies: &A, count: u64) -> Result<(), NoMemory>
    requires goes_on { world.old.stopped ≡ false }
    ensures ok { OnOk result (HasGone (A.gives strategies.now) (λ c s. repeat count (ticks c) s) world.old world.new) }
    ensures err { OnErr result (IsStopped (A.gives strategies.now) (pass_steps count) world.old world.new) }
{
    'rounds: for _ in 0..count {
        ticks(world, strategies)?;
    }
    Ok(())
}

/// At most `most` rounds, and answers their number. The rounds in which nobody makes a call come
/// first, by their ticks alone. One round follows them: the turns of all parties, and then the
/// ticks.
fn advance<A: Strategies>(
    world: &mut World,
    strategies: &A,
    near: &[Listed<ArcId>],
    most: u64,
) -> Result<u64, NoMemory>
    requires near { near.now ≡ all_adjacent world.old.deal }
    requires goes_on { world.old.stopped ≡ false }
    requires low { is_above_horizon world.old.deal world.old.state.book ≡ false }
    requires some { 1 ≤ most }
    requires held { AreHeld (A.holds strategies.now) world.old.roles }
    ensures ok { IfOk result (λ n. HasGone (A.gives strategies.now) (λ c s. repeat n (round_unless_ended c) s) world.old world.new) }
    ensures some { IfOk result (λ n. 1 ≤ n) }
    ensures few { IfOk result (λ n. n ≤ most) }
    ensures err { OnErr result ((n : ℕ) × (n ≤ most) × IsStopped (A.gives strategies.now) (rounds_steps n) world.old world.new) }
{
    let quiet = world.quiet_rounds(near, most - 1);
    pass(world, strategies, quiet)?;
    turns(world, strategies, near)?;
    ticks(world, strategies)?;
    Ok(quiet + 1)
}

/// Rounds until each ledger is above the horizon. One round more than the horizon is enough.
fn rounds<A: Strategies>(
    world: &mut World,
    strategies: &A,
    near: &[Listed<ArcId>],
) -> Result<(), NoMemory>
    requires near { near.now ≡ all_adjacent world.old.deal }
    requires goes_on { world.old.stopped ≡ false }
    requires held { AreHeld (A.holds strategies.now) world.old.roles }
    ensures ok { OnOk result (HasGone (A.gives strategies.now) finish world.old world.new) }
    ensures err { OnErr result (IsStopped (A.gives strategies.now) finish_steps world.old world.new) }
{
    let mut left = deal_horizon(world.deal()) + 1;
    'rounds: while left > 0 {
        if is_above_horizon(world) {
            return Ok(());
        }
        let taken = advance(world, strategies, near, left)?;
        left -= taken;
    }
    Ok(())
}

/// The fair finish. The arcs that touch each party are listed once.
pub(crate) fn finish<A: Strategies>(world: &mut World, strategies: &A) -> Result<(), NoMemory>
    requires goes_on { world.old.stopped ≡ false }
    requires held { AreHeld (A.holds strategies.now) world.old.roles }
    ensures ok { OnOk result (HasGone (A.gives strategies.now) finish world.old world.new) }
    ensures err { OnErr result (IsStopped (A.gives strategies.now) finish_steps world.old world.new) }
{
    match arcs_by_party(world.allocator(), world.deal()) {
        Ok(near) => rounds(world, strategies, &near),
        Err(NoMemory) => {
            world.stop();
            Err(NoMemory)
        }
    }
}
