//! A group's parties and arcs, and its own digraph.

ghost use Rattle.std.specs.Prelude.{◌≡◌, ◌==◌, ◌&&◌, ◌<◌, ◌≤◌, ℕ, length, map, position, IfOk};
ghost use Rattle.swap_base.specs.Lists.{IsElement};
ghost use Rattle.swap_digraph.specs.Graph.{HasEnds, ends, is_listed};
ghost use Rattle.leader_check.specs.Cycles.{has_bit};
ghost use Rattle.swap_clear.specs.Groups.{strong_component, inner_arcs, index_in_set, find_party, own_ends, own_graph};
ghost use Rattle.swap_clear.specs.Rows.{TellsReach};

use crate::reach::reaches;
use std::alloc::Global;
use swap_base::{Fault, Listed, NoMemory, PartyId};
use swap_digraph::{ArcEnds, Digraph, PathList, Version};

/// Whether v and w reach each other.
fn are_together(rows: &[u32], v: PartyId, w: PartyId) -> bool
    requires v { (v < length rows.now) × (v < 32) }
    requires w { (w < length rows.now) × (w < 32) }
    ensures { result ≡ (has_bit rows.now w v && has_bit rows.now v w) }
{
    reaches(rows, v, w) && reaches(rows, w, v)
}

/// The parties that v reaches and that reach v, ascending.
pub fn strong_component(
    alloc: Global,
    graph: &Digraph,
    rows: &[u32],
    v: PartyId,
) -> Result<PathList, NoMemory>
    requires parties { graph.now.n ≤ 32 }
    requires rows { TellsReach graph.now rows.now }
    requires v { v < graph.now.n }
    ensures { IfOk result (λ l. l ≡ strong_component graph.now v) }
{
    let mut parties = Vec::new(alloc);
    for w in 0..graph.n() {
        if are_together(rows, v, w) {
            parties.push(w)?;
        }
    }
    Ok(Listed::new(parties))
}

/// Whether both ends are in the set.
fn set_contains_ends(set: &[PartyId], ends: ArcEnds) -> bool
    ensures { result ≡ (is_listed ends.from set.now && is_listed ends.to set.now) }
{
    set.contains(&ends.from) && set.contains(&ends.to)
}

/// The arcs with both ends in the set, ascending.
pub fn inner_arcs(alloc: Global, graph: &Digraph, set: &[PartyId]) -> Result<Listed<u32>, NoMemory>
    requires few { length graph.now.arcs ≤ 128 }
    ensures { IfOk result (λ l. l ≡ inner_arcs graph.now set.now) }
{
    let mut numbers = Vec::new(alloc);
    for (number, arc) in graph.arcs().iter().enumerate() {
        if set_contains_ends(set, *arc) {
            numbers.push(number as u32)?;
        }
    }
    Ok(Listed::new(numbers))
}

/// The first place of v in the set.
fn find_place(set: &[PartyId], v: PartyId) -> Option<usize>
    ensures { result ≡ position (λ w. w == v) set.now }
{
    set.iter().position(|w| *w == v)
}

/// Where v stands in the set.
fn index_in_set(set: &[PartyId], v: PartyId) -> u8
    requires { length set.now ≤ 32 }
    ensures { result ≡ index_in_set set.now v }
{
    match find_place(set, v) {
        Some(k) => k as u8,
        None => 0,
    }
}

fn own_ends(set: &[PartyId], ends: ArcEnds) -> ArcEnds
    requires { length set.now ≤ 32 }
    ensures { result ≡ own_ends set.now ends }
{
    ArcEnds {
        from: index_in_set(set, ends.from),
        to: index_in_set(set, ends.to),
    }
}

/// The ends of those arcs, by their places.
fn all_own_ends(
    alloc: Global,
    graph: &Digraph,
    set: &[PartyId],
    numbers: &[u32],
) -> Result<Vec<ArcEnds>, NoMemory>
    requires few { length set.now ≤ 32 }
    requires numbers { (a : ℕ) → IsElement a numbers.now → a < length graph.now.arcs }
    ensures { IfOk result (λ l. l.items ≡ map (λ a. own_ends set.now (ends graph.now a)) numbers.now) }
{
    let mut list = Vec::new(alloc);
    for number in numbers {
        list.push(own_ends(set, graph.arcs()[*number as usize]))?;
    }
    Ok(list)
}

/// The set's own digraph: its parties by their places, and those arcs in order.
pub fn own_graph(
    alloc: Global,
    graph: &Digraph,
    set: &[PartyId],
    numbers: &[u32],
) -> Result<Digraph, NoMemory>
    requires few { length set.now ≤ 32 }
    requires few_arcs { length numbers.now ≤ 128 }
    requires numbers { (a : ℕ) → IsElement a numbers.now → a < length graph.now.arcs }
    requires ends { HasEnds (own_graph graph.now set.now numbers.now) }
    ensures { IfOk result (λ own. own ≡ own_graph graph.now set.now numbers.now) }
{
    let ends = all_own_ends(alloc, graph, set, numbers)?;
    match Digraph::new(alloc, set.len() as u8, ends, Version::Two) {
        Ok(own) => Ok(own),
        Err(Fault::NoMemory) => Err(NoMemory),
        Err(Fault::Refused(_)) => unreachable!(),
    }
}

/// The parties at those places of the set.
pub fn named(alloc: Global, set: &[PartyId], places: &[u8]) -> Result<PathList, NoMemory>
    requires { (k : ℕ) → IsElement k places.now → k < length set.now }
    ensures { IfOk result (λ l. l ≡ map (find_party set.now) places.now) }
{
    let mut parties = Vec::new(alloc);
    for k in places {
        parties.push(set[*k as usize])?;
    }
    Ok(Listed::new(parties))
}
