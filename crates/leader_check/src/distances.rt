//! The distances of the parties from the leader, by rounds over the arcs.

ghost use Rattle.std.specs.Prelude.{◌≡◌, ◌≤◌, ◌<◌, ◌+◌, ◌∷◌, [], ℕ, length, map, slice_index, IfOk, if◌then◌else◌};
ghost use Rattle.swap_digraph.specs.Graph.{parties, HasEnds, IsDist, IsFeedback, IsHeight, IsStronglyConnected};
ghost use Rattle.time_bounds.specs.Times.{need};
ghost use Rattle.leader_check.specs.Distance.{greatest_next_value, prior_distance, leader_distance};

use crate::leader_answer::Levels;
use std::alloc::Global;
use swap_base::{Listed, NoMemory, PartyId};
use swap_digraph::Digraph;

/// For each party the greatest distance in the row of a vertex to which it has an arc.
fn most_after_each(alloc: Global, graph: &Digraph, row: &[u32]) -> Result<Vec<u32>, NoMemory>
    requires ends { HasEnds graph.now }
    requires row { length row.now ≡ graph.now.n }
    ensures parties { IfOk result (λ l. length l.items ≡ graph.now.n) }
    ensures most { IfOk result (λ l. (v : ℕ) → v < graph.now.n
        → slice_index l.items v ≡ greatest_next_value graph.now (slice_index row.now) v) }
{
    let mut most = vec![in alloc; 0; graph.n() as usize]?;
    for arc in graph.arcs() {
        let from = arc.from as usize;
        most[from] = most[from].max(row[arc.to as usize]);
    }
    Ok(most)
}

/// The distance of a party, by the greatest of the vertices after it.
fn extended_distance(leads: bool, most: u32) -> u32
    requires { most ≤ 255 }
    ensures { result ≡ (if leads then 0 else most + 1) }
{
    if leads { 0 } else { most + 1 }
}

/// The distances of a further round.
fn next_dists(
    alloc: Global,
    graph: &Digraph,
    leader: PartyId,
    row: &[u32],
) -> Result<Vec<u32>, NoMemory>
    requires ends { HasEnds graph.now }
    requires row { length row.now ≡ graph.now.n }
    requires low { (v : ℕ) → slice_index row.now v ≤ 255 }
    ensures { IfOk result (λ l. l.items ≡ map (prior_distance graph.now leader (slice_index row.now)) (parties graph.now)) }
{
    let most = most_after_each(alloc, graph, row)?;
    let mut next = Vec::new(alloc);
    for v in 0..graph.n() {
        next.push(extended_distance(leader == v, most[v as usize]))?;
    }
    Ok(next)
}

/// For each party the greatest number of arcs on a path from it to the leader.
pub fn dist(
    alloc: Global,
    graph: &Digraph,
    leader: PartyId,
    levels: &Levels,
) -> Result<Listed<u32>, NoMemory>
    requires ends { HasEnds graph.now }
    requires strong { IsStronglyConnected graph.now }
    requires leader { leader < graph.now.n }
    requires feedback { IsFeedback graph.now (leader ∷ []) }
    requires levels { IsHeight graph.now (leader ∷ []) levels.now.h }
    ensures parties { IfOk result (λ l. length l ≡ graph.now.n) }
    ensures dist { IfOk result (λ l. (v : ℕ) → v < graph.now.n
        → slice_index l v ≡ leader_distance graph.now leader v) }
    ensures longest { IfOk result (λ l. (v : ℕ) → v < graph.now.n
        → IsDist graph.now leader v (slice_index l v)) }
    ensures bounded { IfOk result (λ l. (v : ℕ) → v < graph.now.n
        → slice_index l v ≤ need graph.now.n 1 levels.now.h) }
{
    let mut row = vec![in alloc; 0; graph.n() as usize]?;
    for _round in 0..levels.h {
        row = next_dists(alloc, graph, leader, &row)?;
    }
    Ok(Listed::new(row))
}
