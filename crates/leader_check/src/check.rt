//! The check of leaders.

ghost use Rattle.std.specs.Prelude.{◌≡◌, ◌≤◌, ◌<◌, ◌↔◌, ℕ, true, not, length, map, slice_index, is_some, IfOk};
ghost use Rattle.swap_digraph.specs.Graph.{parties, HasEnds, IsFeedback, IsHeight};
ghost use Rattle.leader_check.specs.Levels.{party_level, greatest_level, IsLevel};
ghost use Rattle.leader_check.specs.Cycles.{follower_cycle, IsFollowerCycle};
ghost use Rattle.leader_check.specs.Laws.{HasBoundedLeaderPaths};
ghost use Rattle.time_bounds.specs.Times.{need};
ghost use Rattle.leader_check.specs.Shown.{cycle_shown, IfLevels, IfCycle};

use crate::cycle::follower_cycle;
use crate::leader_answer::LeaderAnswer;
use crate::rounds::{level_row, levels_rise, with_greatest};
use std::alloc::Global;
use swap_base::{NoMemory, PartyId};
use swap_digraph::{Digraph, PathList};

/// The cycle of followers that is shown, if there is one: the levels in the row tell whether to
/// search.
fn cycle_if_any(
    alloc: Global,
    graph: &Digraph,
    leaders: &[PartyId],
    row: &[u8],
) -> Result<Option<PathList>, NoMemory>
    requires parties { graph.now.n ≤ 32 }
    requires ends { HasEnds graph.now }
    requires row { row.now ≡ map (party_level graph.now leaders.now) (parties graph.now) }
    ensures { IfOk result (λ o. o ≡ follower_cycle graph.now leaders.now) }
{
    if levels_rise(alloc, graph, leaders, row)? {
        follower_cycle(alloc, graph, leaders)
    } else {
        Ok(None)
    }
}

/// The levels of the parties where the leaders are a feedback vertex set, and else a cycle of
/// followers: a shortest one through the least follower that lies on any.
pub fn levels(alloc: Global, graph: &Digraph, leaders: &[PartyId]) -> Result<LeaderAnswer, NoMemory>
    requires parties { graph.now.n ≤ 32 }
    requires ends { HasEnds graph.now }
    ensures exact { IfOk result (λ a. cycle_shown a ≡ follower_cycle graph.now leaders.now) }
    ensures feedback { IfOk result (λ a. IfLevels a (λ _. IsFeedback graph.now leaders.now)) }
    ensures not_feedback { IfOk result (λ a. IfCycle a (λ _. IsFeedback graph.now leaders.now → ⊥)) }
    ensures cycle { IfOk result (λ a. IfCycle a (λ list. IsFollowerCycle graph.now leaders.now list)) }
    ensures parties { IfOk result (λ a. IfLevels a (λ l. length l.level ≡ graph.now.n)) }
    ensures level { IfOk result (λ a. IfLevels a (λ l. (v : ℕ) → v < graph.now.n
        → slice_index l.level v ≡ party_level graph.now leaders.now v)) }
    ensures longest { IfOk result (λ a. IfLevels a (λ l. (v : ℕ) → v < graph.now.n
        → IsLevel graph.now leaders.now v (slice_index l.level v))) }
    ensures greatest { IfOk result (λ a. IfLevels a (λ l. l.h ≡ greatest_level graph.now leaders.now)) }
    ensures height { IfOk result (λ a. IfLevels a (λ l. IsHeight graph.now leaders.now l.h)) }
    ensures paths { IfOk result (λ a. IfLevels a (λ l. HasBoundedLeaderPaths graph.now leaders.now (need graph.now.n (length leaders.now) l.h))) }
{
    let row = level_row(alloc, graph, leaders)?;
    match cycle_if_any(alloc, graph, leaders, &row)? {
        Some(cycle) => Ok(LeaderAnswer::Cycle(cycle)),
        None => Ok(LeaderAnswer::Levels(with_greatest(row))),
    }
}

/// Whether the leaders are a feedback vertex set.
pub fn is_feedback(alloc: Global, graph: &Digraph, leaders: &[PartyId]) -> Result<bool, NoMemory>
    requires parties { graph.now.n ≤ 32 }
    requires ends { HasEnds graph.now }
    ensures exact { IfOk result (λ b. b ≡ not (is_some (follower_cycle graph.now leaders.now))) }
    ensures feedback { IfOk result (λ b. (b ≡ true) ↔ IsFeedback graph.now leaders.now) }
{
    let row = level_row(alloc, graph, leaders)?;
    Ok(!levels_rise(alloc, graph, leaders, &row)?)
}

/// The greatest level: where the leaders are a feedback vertex set, the most vertices on a path of
/// followers alone.
pub fn height(alloc: Global, graph: &Digraph, leaders: &[PartyId]) -> Result<u8, NoMemory>
    requires parties { graph.now.n ≤ 32 }
    requires ends { HasEnds graph.now }
    ensures exact { IfOk result (λ h. h ≡ greatest_level graph.now leaders.now) }
    ensures height { IfOk result (λ h. IsFeedback graph.now leaders.now → IsHeight graph.now leaders.now h) }
{
    let row = level_row(alloc, graph, leaders)?;
    Ok(with_greatest(row).h)
}
