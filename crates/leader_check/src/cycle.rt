//! The search for a cycle of followers.

ghost use Rattle.std.specs.Prelude.{◌≡◌, ◌==◌, ◌≤◌, ◌<◌, ◌+◌, ◌&&◌, ℕ, List, [], length, slice_index_or, IfOk, IfSome, IfNone};
ghost use Rattle.std.specs.Int.{bit_at};
ghost use Rattle.std.specs.List.{range_with_len};
ghost use Rattle.swap_base.specs.Lists.{first_given_answer};
ghost use Rattle.swap_digraph.specs.Graph.{parties, has_arc, HasEnds};
ghost use Rattle.leader_check.specs.Followers.{is_marked_place};
ghost use Rattle.leader_check.specs.Cycles.{has_bit, has_row_bit, enters_led, first_step, least_walk, distance_cycle, traced_cycle, follower_cycle};
ghost use Rattle.leader_check.specs.Cycles.{TellAllWalks, IsShortestFollowerCycle};

use crate::rounds::followers;
use std::alloc::Global;
use swap_base::{Listed, NoMemory, PartyId};
use swap_digraph::{Digraph, PathList};

/// Whether v is among the parties that the bits stand for.
fn holds(bits: u32, v: PartyId) -> bool
    requires { v < 32 }
    ensures { result ≡ (bit_at bits v == 1) }
{
    bits >> v & 1 == 1
}

/// The bit of v, where it follows.
fn party_bit(follows: bool, v: PartyId) -> u32
    requires { v < 32 }
    ensures { (w : ℕ) → (bit_at result w == 1) ≡ (follows && (v == w)) }
{
    if follows { 1 << v } else { 0 }
}

/// The bits, where the party follows.
fn bits_if(follows: bool, bits: u32) -> u32
    ensures { (w : ℕ) → (bit_at result w == 1) ≡ (follows && (bit_at bits w == 1)) }
{
    if follows { bits } else { 0 }
}

/// The vertices to which u has an arc.
fn heads(graph: &Digraph, u: PartyId) -> u32
    requires parties { graph.now.n ≤ 32 }
    requires ends { HasEnds graph.now }
    ensures { (w : ℕ) → (bit_at result w == 1) ≡ has_arc graph.now u w }
{
    let mut bits = 0u32;
    for arc in graph.arcs() {
        if arc.from == u {
            bits |= 1 << arc.to;
        }
    }
    bits
}

/// The least vertex to which u has an arc and whose bits in the row hold v.
fn first_step(graph: &Digraph, row: &[u32], v: PartyId, u: PartyId) -> PartyId
    requires parties { graph.now.n ≤ 32 }
    requires ends { HasEnds graph.now }
    requires row { length row.now ≡ graph.now.n }
    requires v { v < graph.now.n }
    ensures { result ≡ first_step graph.now (has_bit row.now v) u }
{
    let heads = heads(graph, u);
    for w in 0..graph.n() {
        if holds(heads, w) && holds(row[w as usize], v) {
            return w;
        }
    }
    0
}

/// For each party what the bits in the row of the vertices to which it has arcs hold.
pub fn leads_each(alloc: Global, graph: &Digraph, row: &[u32]) -> Result<Vec<u32>, NoMemory>
    requires ends { HasEnds graph.now }
    requires row { length row.now ≡ graph.now.n }
    ensures parties { IfOk result (λ l. length l.items ≡ graph.now.n) }
    ensures leads { IfOk result (λ l. (v u : ℕ) → u < graph.now.n
        → has_bit l.items v u ≡ enters_led graph.now (has_bit row.now v) u) }
{
    let mut leads = vec![in alloc; 0u32; graph.n() as usize]?;
    for arc in graph.arcs() {
        let from = arc.from as usize;
        leads[from] |= row[arc.to as usize];
    }
    Ok(leads)
}

/// By party, where the walks lead that have one more arc than those of the row.
fn next_row(
    alloc: Global,
    graph: &Digraph,
    follows: &[bool],
    row: &[u32],
) -> Result<Listed<u32>, NoMemory>
    requires ends { HasEnds graph.now }
    requires follows { length follows.now ≡ graph.now.n }
    requires row { length row.now ≡ graph.now.n }
    ensures parties { IfOk result (λ l. length l ≡ graph.now.n) }
    ensures leads { IfOk result (λ l. (v u : ℕ) → u < graph.now.n
        → has_bit l v u ≡ (is_marked_place follows.now u && enters_led graph.now (has_bit row.now v) u)) }
{
    let leads = leads_each(alloc, graph, row)?;
    let mut next = Vec::new(alloc);
    for u in 0..graph.n() {
        next.push(bits_if(follows[u as usize], leads[u as usize]))?;
    }
    Ok(Listed::new(next))
}

/// By party, where the walks without arcs lead: from a follower to itself.
fn first_row(alloc: Global, follows: &[bool]) -> Result<Listed<u32>, NoMemory>
    requires { length follows.now ≤ 32 }
    ensures parties { IfOk result (λ l. length l ≡ length follows.now) }
    ensures stays { IfOk result (λ l. (v u : ℕ) → u < length follows.now
        → has_bit l v u ≡ (is_marked_place follows.now u && (u == v))) }
{
    let mut row = Vec::new(alloc);
    for u in 0..follows.len() {
        row.push(party_bit(follows[u], u as u8))?;
    }
    Ok(Listed::new(row))
}

/// By number of arcs, up to the number of parties, and by party, where the walks of followers lead.
fn walk_rows(
    alloc: Global,
    graph: &Digraph,
    leaders: &[PartyId],
) -> Result<Vec<Listed<u32>>, NoMemory>
    requires parties { graph.now.n ≤ 32 }
    requires ends { HasEnds graph.now }
    ensures { IfOk result (λ l. TellAllWalks graph.now leaders.now l.items) }
{
    let follows = followers(alloc, graph, leaders)?;
    let mut rows = Vec::new(alloc);
    rows.push(first_row(alloc, &follows)?)?;
    for k in 0..graph.n() {
        let row = next_row(alloc, graph, &follows, rows[k as usize].as_slice())?;
        rows.push(row)?;
    }
    Ok(rows)
}

/// The cycle of k vertices that begins with v.
fn least_walk(
    alloc: Global,
    graph: &Digraph,
    rows: &[Listed<u32>],
    v: PartyId,
    k: u8,
) -> Result<PathList, NoMemory>
    requires parties { graph.now.n ≤ 32 }
    requires ends { HasEnds graph.now }
    requires v { v < graph.now.n }
    requires k { k ≤ length rows.now }
    requires rows { (j : ℕ) → j < length rows.now → length (slice_index_or rows.now j []) ≡ graph.now.n }
    ensures { IfOk result (λ l. l ≡ least_walk graph.now (has_row_bit rows.now v) k v) }
{
    let mut list = Vec::new(alloc);
    let mut u = v;
    for left in (0..k).rev() {
        list.push(u)?;
        u = first_step(graph, rows[left as usize].as_slice(), v, u);
    }
    Ok(Listed::new(list))
}

/// A shortest cycle of followers that begins with v.
fn traced_cycle(
    alloc: Global,
    graph: &Digraph,
    rows: &[Listed<u32>],
    v: PartyId,
) -> Result<Option<PathList>, NoMemory>
    requires parties { graph.now.n ≤ 32 }
    requires ends { HasEnds graph.now }
    requires size { length rows.now ≡ graph.now.n + 1 }
    requires rows { (j : ℕ) → j < length rows.now → length (slice_index_or rows.now j []) ≡ graph.now.n }
    requires v { v < graph.now.n }
    ensures { IfOk result (λ o. o ≡ first_given_answer (distance_cycle graph.now (has_row_bit rows.now v) v) (range_with_len 1 graph.now.n)) }
{
    for k in 1..graph.n() + 1 {
        if holds(rows[k as usize].as_slice()[v as usize], v) {
            return Ok(Some(least_walk(alloc, graph, rows, v, k)?));
        }
    }
    Ok(None)
}

/// A shortest cycle of followers through the least follower that lies on any.
pub fn follower_cycle(
    alloc: Global,
    graph: &Digraph,
    leaders: &[PartyId],
) -> Result<Option<PathList>, NoMemory>
    requires parties { graph.now.n ≤ 32 }
    requires ends { HasEnds graph.now }
    ensures { IfOk result (λ o. o ≡ follower_cycle graph.now leaders.now) }
{
    let rows = walk_rows(alloc, graph, leaders)?;
    for v in 0..graph.n() {
        let found = traced_cycle(alloc, graph, &rows, v)?;
        if found.is_some() {
            return Ok(found);
        }
    }
    Ok(None)
}

/// A shortest cycle of followers that begins with v.
pub fn find_cycle(
    alloc: Global,
    graph: &Digraph,
    leaders: &[PartyId],
    v: PartyId,
) -> Result<Option<PathList>, NoMemory>
    requires parties { graph.now.n ≤ 32 }
    requires ends { HasEnds graph.now }
    requires v { v < graph.now.n }
    ensures exact { IfOk result (λ o. o ≡ traced_cycle graph.now leaders.now v) }
    ensures cycle { IfOk result (λ o. IfSome o (λ list. IsShortestFollowerCycle graph.now leaders.now v list)) }
    ensures none { IfOk result (λ o. IfNone o ((list : List ℕ) → IsShortestFollowerCycle graph.now leaders.now v list → ⊥)) }
{
    let rows = walk_rows(alloc, graph, leaders)?;
    traced_cycle(alloc, graph, &rows, v)
}
