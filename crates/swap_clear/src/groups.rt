//! The groups of parties that reach each other.

ghost use Rattle.std.specs.Prelude.{◌≡◌, ◌<◌, ◌≤◌, ℕ, length, map, IfOk};
ghost use Rattle.swap_base.specs.Lists.{IsElement};
ghost use Rattle.swap_base.specs.Fault.{Gives};
ghost use Rattle.swap_digraph.specs.Graph.{HasEnds, first_is};
ghost use Rattle.swap_clear.specs.Groups.{find_party};
ghost use Rattle.swap_clear.specs.Leaders.{party_cycle, choose_leaders};
ghost use Rattle.swap_clear.specs.Clearing.{led_group, make_group, next_group, cleared_components};
ghost use Rattle.swap_clear.specs.Rows.{TellsReach};

use crate::answer::Group;
use crate::fault::{ClearFault, ClearReason};
use crate::group_digraph::{inner_arcs, named, own_graph, strong_component};
use crate::leaders::{choose_leaders, party_cycle};
use leader_check::height;
use std::alloc::Global;
use swap_base::{Fault, Listed, NoMemory, PartyId};
use swap_digraph::{Digraph, PathList};
use time_bounds::need;

/// For each leader its cycle, with the parties of the set.
fn group_cycles(
    alloc: Global,
    set: &[PartyId],
    own: &Digraph,
    leaders: &[PartyId],
) -> Result<Listed<PathList>, NoMemory>
    requires parties { own.now.n ≤ 32 }
    requires set { length set.now ≡ own.now.n }
    requires ends { HasEnds own.now }
    requires leaders { (v : ℕ) → IsElement v leaders.now → v < own.now.n }
    ensures { IfOk result (λ l. l ≡ map (λ v. map (find_party set.now) (party_cycle own.now leaders.now v)) leaders.now) }
{
    let mut cycles = Vec::new(alloc);
    for v in leaders {
        let cycle = party_cycle(alloc, own, leaders, *v)?;
        cycles.push(named(alloc, set, cycle.as_slice())?)?;
    }
    Ok(Listed::new(cycles))
}

/// The group of a set and its arcs, with those leaders of its own digraph.
fn led_group(
    alloc: Global,
    set: PathList,
    numbers: Listed<u32>,
    own: &Digraph,
    leaders: &[PartyId],
) -> Result<Group, NoMemory>
    requires parties { (1 ≤ own.now.n) × (own.now.n ≤ 32) }
    requires set { length set ≡ own.now.n }
    requires ends { HasEnds own.now }
    requires some { (1 ≤ length leaders.now) × (length leaders.now ≤ 8) }
    requires leaders { (v : ℕ) → IsElement v leaders.now → v < own.now.n }
    ensures { IfOk result (λ group. group ≡ led_group set numbers own.now leaders.now) }
{
    let cycles = group_cycles(alloc, set.as_slice(), own, leaders)?;
    let bound = need(own.n(), leaders.len() as u8, height(alloc, own, leaders)?);
    Ok(Group {
        leaders: named(alloc, set.as_slice(), leaders)?,
        parties: set,
        arcs: numbers,
        cycles,
        bound,
    })
}

/// The group of a set and its arcs, unless it has more than 8 leaders.
#[tactic(auto, unfolding(crate::specs::Clearing::make_group))]
fn make_group(
    alloc: Global,
    number: u32,
    set: PathList,
    numbers: Listed<u32>,
    own: &Digraph,
) -> Result<Group, ClearFault>
    requires parties { (1 ≤ own.now.n) × (own.now.n ≤ 32) }
    requires set { length set ≡ own.now.n }
    requires ends { HasEnds own.now }
    requires some { 1 ≤ length (choose_leaders own.now) }
    ensures { Gives (λ group. group) result (make_group number set numbers own.now) }
{
    let leaders = choose_leaders(alloc, own)?;
    if leaders.len() > 8 {
        return Err(Fault::Refused(ClearReason::TooManyLeaders(number, leaders.len() as u32)));
    }
    Ok(led_group(alloc, set, numbers, own, &leaders)?)
}

/// Whether v is the first of the set.
fn is_first_party(set: &[PartyId], v: PartyId) -> bool
    ensures { result ≡ first_is v set.now }
{
    !set.is_empty() && set[0] == v
}

/// The group of v, where v is its least party and there are arcs in it.
fn next_group(
    alloc: Global,
    graph: &Digraph,
    rows: &[u32],
    number: u32,
    v: PartyId,
) -> Result<Option<Group>, ClearFault>
    requires parties { graph.now.n ≤ 32 }
    requires few { length graph.now.arcs ≤ 128 }
    requires ends { HasEnds graph.now }
    requires rows { TellsReach graph.now rows.now }
    requires v { v < graph.now.n }
    ensures { Gives (λ next. next) result (next_group graph.now number v) }
{
    let set = strong_component(alloc, graph, rows, v)?;
    if !is_first_party(set.as_slice(), v) {
        return Ok(None);
    }
    let numbers = inner_arcs(alloc, graph, set.as_slice())?;
    if numbers.is_empty() {
        return Ok(None);
    }
    let own = own_graph(alloc, graph, set.as_slice(), numbers.as_slice())?;
    match make_group(alloc, number, set, numbers, &own) {
        Ok(group) => Ok(Some(group)),
        Err(fault) => Err(fault),
    }
}

/// The groups by their least party, unless one has too many leaders.
pub fn groups(alloc: Global, graph: &Digraph, rows: &[u32]) -> Result<Listed<Group>, ClearFault>
    requires parties { graph.now.n ≤ 32 }
    requires few { length graph.now.arcs ≤ 128 }
    requires ends { HasEnds graph.now }
    requires rows { TellsReach graph.now rows.now }
    ensures { Gives (λ groups. groups) result (cleared_components graph.now) }
{
    let mut groups = Vec::new(alloc);
    for v in 0..graph.n() {
        match next_group(alloc, graph, rows, groups.len() as u32, v) {
            Err(fault) => return Err(fault),
            Ok(next) => match next {
                Some(group) => groups.push(group)?,
                None => {}
            },
        }
    }
    Ok(Listed::new(groups))
}
