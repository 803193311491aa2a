//! The clearing of proposed transfers.

ghost use Rattle.std.specs.Prelude.{◌<◌, ◌≤◌, length, IfOk, IfErr};
ghost use Rattle.swap_base.specs.Fault.{Gives};
ghost use Rattle.swap_base.specs.Lists.{IsElement};
ghost use Rattle.swap_digraph.specs.Graph.{IsStronglyConnected};
ghost use Rattle.swap_clear.specs.Proposals.{proposed_graph};
ghost use Rattle.swap_clear.specs.Clearing.{cleared_groups};
ghost use Rattle.swap_clear.specs.Cyclic.{TellsLeftOut};
ghost use Rattle.swap_clear.specs.Together.{AreGroups};
ghost use Rattle.swap_clear.specs.Led.{own, IsLed, HasCycles, NoFewerLead, IsBound};
ghost use Rattle.swap_clear.specs.Ready.{AreAmounts, MakesADeal};
ghost use Rattle.swap_clear.specs.Refused.{IfRefused, IsFault};

use crate::answer::Clearing;
use crate::fault::ClearFault;
use crate::groups::groups;
use crate::left_out::left_out;
use crate::proposals::proposals_graph;
use crate::proposed::Proposed;
use crate::reach::reach_rows;
use std::alloc::Global;

/// What is left out and the groups, or the first reason against the proposals.
#[tactic(auto, unfolding(crate::specs::Clearing::cleared_groups))]
fn cleared(alloc: Global, n: u8, arcs: &[Proposed]) -> Result<Clearing, ClearFault>
    requires parties { n ≤ 32 }
    requires arcs { length arcs.now ≤ 128 }
    ensures { Gives (λ c. c) result (cleared_groups n arcs.now) }
{
    let graph = proposals_graph(alloc, n, arcs)?;
    let rows = reach_rows(alloc, &graph)?;
    let left_out = left_out(alloc, &graph, &rows)?;
    let groups = groups(alloc, &graph, &rows)?;
    Ok(Clearing { left_out, groups })
}

/// What of the proposals can be swapped. Arcs that lie on no cycle are left out, each with a set
/// that shows it. Parties that reach each other make groups, and each group has leaders, a cycle
/// for each leader, and a bound. The proposals are refused for the fault of the least faulty arc,
/// or else for the least group with more than 8 leaders.
pub fn clear(alloc: Global, n: u8, arcs: &[Proposed]) -> Result<Clearing, ClearFault>
    requires parties { (2 ≤ n) × (n ≤ 32) }
    requires arcs { (1 ≤ length arcs.now) × (length arcs.now ≤ 128) }
    requires amounts { AreAmounts arcs.now }
    ensures exact { Gives (λ c. c) result (cleared_groups n arcs.now) }
    ensures left_out { IfOk result (λ c. TellsLeftOut (proposed_graph n arcs.now) c.left_out) }
    ensures groups { IfOk result (λ c. AreGroups (proposed_graph n arcs.now) c.groups) }
    ensures strong { IfOk result (λ c. (group : _) → IsElement group c.groups → IsStronglyConnected (own (proposed_graph n arcs.now) group)) }
    ensures leaders { IfOk result (λ c. (group : _) → IsElement group c.groups → IsLed (proposed_graph n arcs.now) group) }
    ensures cycles { IfOk result (λ c. (group : _) → IsElement group c.groups → HasCycles (proposed_graph n arcs.now) group) }
    ensures no_fewer { IfOk result (λ c. (group : _) → IsElement group c.groups → NoFewerLead (proposed_graph n arcs.now) group) }
    ensures bound { IfOk result (λ c. (group : _) → IsElement group c.groups → IsBound (proposed_graph n arcs.now) group) }
    ensures ready { IfOk result (λ c. (group : _) → IsElement group c.groups → MakesADeal (proposed_graph n arcs.now) arcs.now group) }
    ensures refused { IfErr result (λ e. IfRefused e (IsFault (proposed_graph n arcs.now))) }
{
    cleared(alloc, n, arcs)
}
