//! The levels of the parties, by rounds over the arcs.

ghost use Rattle.std.specs.Prelude.{◌≡◌, ◌≤◌, ◌<◌, ◌+◌, ℕ, not, length, is_some, map, slice_index, IfOk, if◌then◌else◌};
ghost use Rattle.swap_base.specs.Lists.{greatest};
ghost use Rattle.swap_digraph.specs.Graph.{parties, is_listed, HasEnds};
ghost use Rattle.leader_check.specs.Followers.{is_follower, is_marked_place};
ghost use Rattle.leader_check.specs.Levels.{greatest_prior_value, party_level};
ghost use Rattle.leader_check.specs.Cycles.{follower_cycle};

use crate::leader_answer::Levels;
use std::alloc::Global;
use swap_base::{Listed, NoMemory, PartyId};
use swap_digraph::Digraph;

fn follows(leaders: &[PartyId], v: PartyId) -> bool
    ensures { result ≡ not (is_listed v leaders.now) }
{
    !leaders.contains(&v)
}

/// For each party, whether it follows.
pub fn followers(alloc: Global, graph: &Digraph, leaders: &[PartyId]) -> Result<Vec<bool>, NoMemory>
    ensures { IfOk result (λ l. l.items ≡ map (is_follower graph.now leaders.now) (parties graph.now)) }
{
    let mut row = Vec::new(alloc);
    for v in 0..graph.n() {
        row.push(follows(leaders, v))?;
    }
    Ok(row)
}

/// For each party the greatest level in the row of a vertex with an arc to it.
fn most_before_each(alloc: Global, graph: &Digraph, row: &[u8]) -> Result<Vec<u8>, NoMemory>
    requires ends { HasEnds graph.now }
    requires row { length row.now ≡ graph.now.n }
    ensures parties { IfOk result (λ l. length l.items ≡ graph.now.n) }
    ensures most { IfOk result (λ l. (v : ℕ) → v < graph.now.n
        → slice_index l.items v ≡ greatest_prior_value graph.now (slice_index row.now) v) }
{
    let mut most = vec![in alloc; 0; graph.n() as usize]?;
    for arc in graph.arcs() {
        let to = arc.to as usize;
        most[to] = most[to].max(row[arc.from as usize]);
    }
    Ok(most)
}

/// The level of a party, by the greatest of the vertices before it.
fn raised_level(follows: bool, most: u8) -> u8
    requires { most ≤ 32 }
    ensures { result ≡ (if follows then most + 1 else 0) }
{
    if follows { most + 1 } else { 0 }
}

/// The levels of a further round.
fn next_levels(
    alloc: Global,
    graph: &Digraph,
    follows: &[bool],
    row: &[u8],
) -> Result<Vec<u8>, NoMemory>
    requires ends { HasEnds graph.now }
    requires follows { length follows.now ≡ graph.now.n }
    requires row { length row.now ≡ graph.now.n }
    requires low { (v : ℕ) → slice_index row.now v ≤ 32 }
    ensures { IfOk result (λ l. l.items ≡ map (λ v. if is_marked_place follows.now v then greatest_prior_value graph.now (slice_index row.now) v + 1 else 0) (parties graph.now)) }
{
    let most = most_before_each(alloc, graph, row)?;
    let mut next = Vec::new(alloc);
    for v in 0..graph.n() {
        next.push(raised_level(follows[v as usize], most[v as usize]))?;
    }
    Ok(next)
}

/// The level of each party.
pub fn level_row(alloc: Global, graph: &Digraph, leaders: &[PartyId]) -> Result<Vec<u8>, NoMemory>
    requires parties { graph.now.n ≤ 32 }
    requires ends { HasEnds graph.now }
    ensures { IfOk result (λ l. l.items ≡ map (party_level graph.now leaders.now) (parties graph.now)) }
{
    let n = graph.n();
    let follows = followers(alloc, graph, leaders)?;
    let mut row = vec![in alloc; 0; n as usize]?;
    for _round in 0..n {
        row = next_levels(alloc, graph, &follows, &row)?;
    }
    Ok(row)
}

fn row_maximum(row: &[u8]) -> u8
    ensures { result ≡ greatest (λ x. x) row.now }
{
    let mut most = 0;
    for level in row {
        most = most.max(*level);
    }
    most
}

/// The levels of a row, with the greatest.
pub fn with_greatest(row: Vec<u8>) -> Levels
    ensures level { result.level ≡ row.items }
    ensures height { result.h ≡ greatest (λ x. x) row.items }
{
    let h = row_maximum(&row);
    Levels {
        level: Listed::new(row),
        h,
    }
}

/// Whether the levels still rise after one round for each party. They do exactly where followers
/// form a cycle.
pub fn levels_rise(
    alloc: Global,
    graph: &Digraph,
    leaders: &[PartyId],
    row: &[u8],
) -> Result<bool, NoMemory>
    requires parties { graph.now.n ≤ 32 }
    requires ends { HasEnds graph.now }
    requires row { row.now ≡ map (party_level graph.now leaders.now) (parties graph.now) }
    ensures { IfOk result (λ b. b ≡ is_some (follower_cycle graph.now leaders.now)) }
{
    let follows = followers(alloc, graph, leaders)?;
    let next = next_levels(alloc, graph, &follows, row)?;
    Ok(row_maximum(&next) > graph.n())
}
