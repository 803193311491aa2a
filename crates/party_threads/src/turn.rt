//! What has turns in a race: a party or the clock, with the passes that it has in a round.

ghost use Rattle.std.specs.Prelude.{◌≡◌, ◌<◌, List, Some, None, length, slice_get};
ghost use Rattle.ledger_core.specs.declared.entry.Entry.{Entry};
ghost use Rattle.ledger_shared.specs.Value.{PassState, ClockState};
ghost use Rattle.party_threads.specs.Turns.{HasArc, turn_actor, held_passes, held_clocks, held_pass, held_clock, pass_start, IsPut, IsClockPut};

use ledger_shared::{ClockPass, Pass};
use swap_base::{ArcId, PartyId};
use swap_world::Player;

/// What acts in a turn: a party or the clock.
#[derive(Drop)]
pub(crate) enum Actor {
    Party(Player<()>),
    Clock,
}

/// An actor, with the passes that it has in a round, by arc, and whether its last turn wanted
/// memory.
#[derive(Drop)]
pub(crate) struct Turn {
    pub actor: Actor,
    pub passes: Vec<Option<Pass>>,
    pub clocks: Vec<Option<ClockPass>>,
    pub failed: bool,
}

/// How many of an arc's `whole` entries an actor's pass has seen when it is dealt.
pub(crate) fn seen_count(turns: &[Turn], v: PartyId, arc: ArcId, whole: u32) -> u32
    requires actor { v < length turns.now }
    requires arc { HasArc (turn_actor turns.now v) arc }
    ensures { (h : List Entry) → length h ≡ whole → result ≡ length (pass_start (turn_actor turns.now v) arc h) }
{
    match &turns[v as usize].actor {
        Actor::Party(Player::Conforming(machine, _)) => machine.known(arc).count(),
        Actor::Party(Player::Planned(planner)) => planner.count(arc) as u32,
        Actor::Party(Player::Manual) => whole,
        Actor::Clock => whole,
    }
}

/// Gives an actor the pass of an arc.
pub(crate) fn put(turns: &mut [Turn], v: PartyId, arc: ArcId, pass: Pass)
    requires actor { v < length turns.old }
    requires place { arc < length (held_passes (slice_get turns.old v)) }
    ensures { IsPut turns.old v arc (Some pass) turns.new }
{
    turns[v as usize].passes[arc as usize] = Some(pass);
}

/// Takes the pass of an arc back.
pub(crate) fn take(turns: &mut [Turn], v: PartyId, arc: ArcId) -> Pass
    requires actor { v < length turns.old }
    requires place { arc < length (held_passes (slice_get turns.old v)) }
    requires there { (p : PassState) × (held_pass turns.old v arc ≡ Some p) }
    ensures pass { held_pass turns.old v arc ≡ Some result }
    ensures gone { IsPut turns.old v arc None turns.new }
{
    match turns[v as usize].passes[arc as usize].take() {
        Some(pass) => pass,
        None => unreachable!(),
    }
}

/// Gives the clock its pass of an arc.
pub(crate) fn put_clock(turns: &mut [Turn], v: PartyId, arc: ArcId, pass: ClockPass)
    requires actor { v < length turns.old }
    requires place { arc < length (held_clocks (slice_get turns.old v)) }
    ensures { IsClockPut turns.old v arc (Some pass) turns.new }
{
    turns[v as usize].clocks[arc as usize] = Some(pass);
}

/// Takes the clock's pass of an arc back.
pub(crate) fn take_clock(turns: &mut [Turn], v: PartyId, arc: ArcId) -> ClockPass
    requires actor { v < length turns.old }
    requires place { arc < length (held_clocks (slice_get turns.old v)) }
    requires there { (p : ClockState) × (held_clock turns.old v arc ≡ Some p) }
    ensures pass { held_clock turns.old v arc ≡ Some result }
    ensures gone { IsClockPut turns.old v arc None turns.new }
{
    match turns[v as usize].clocks[arc as usize].take() {
        Some(pass) => pass,
        None => unreachable!(),
    }
}
