//! What a clearing means.

ghost use Rattle.std.specs.Prelude.{◌≡◌, ◌≤◌, length, Ok, Err};
ghost use Rattle.swap_base.specs.Lists.{IsElement};
ghost use Rattle.swap_digraph.specs.Graph.{IsStronglyConnected};
ghost use Rattle.swap_clear.specs.Proposals.{proposed_graph};
ghost use Rattle.swap_clear.specs.Clearing.{cleared_groups};
ghost use Rattle.swap_clear.specs.Cyclic.{TellsLeftOut};
ghost use Rattle.swap_clear.specs.Together.{AreGroups};
ghost use Rattle.swap_clear.specs.Led.{own, IsLed, HasCycles, NoFewerLead, IsBound};
ghost use Rattle.swap_clear.specs.Refused.{IsFault};
ghost use Rattle.swap_clear.specs.Ready.{AreAmounts, MakesADeal};

use crate::proposed::Proposed;

/// Does nothing. Its contract is the law of clearing: what holds of every clearing that the
/// definition gives.
pub fn clearings_tell(n: u8, arcs: &[Proposed])
    ensures left_out { (c : _) → cleared_groups n arcs.now ≡ Ok c → TellsLeftOut (proposed_graph n arcs.now) c.left_out }
    ensures groups { (c : _) → cleared_groups n arcs.now ≡ Ok c → AreGroups (proposed_graph n arcs.now) c.groups }
    ensures strong { (c : _) → cleared_groups n arcs.now ≡ Ok c → (group : _) → IsElement group c.groups
        → IsStronglyConnected (own (proposed_graph n arcs.now) group) }
    ensures leaders { (c : _) → cleared_groups n arcs.now ≡ Ok c → (group : _) → IsElement group c.groups → IsLed (proposed_graph n arcs.now) group }
    ensures cycles { (c : _) → cleared_groups n arcs.now ≡ Ok c → (group : _) → IsElement group c.groups → HasCycles (proposed_graph n arcs.now) group }
    ensures no_fewer { (c : _) → cleared_groups n arcs.now ≡ Ok c → (group : _) → IsElement group c.groups → NoFewerLead (proposed_graph n arcs.now) group }
    ensures bound { (c : _) → cleared_groups n arcs.now ≡ Ok c → (group : _) → IsElement group c.groups → IsBound (proposed_graph n arcs.now) group }
    ensures ready { n ≤ 32 → length arcs.now ≤ 128 → AreAmounts arcs.now
        → (c : _) → cleared_groups n arcs.now ≡ Ok c → (group : _) → IsElement group c.groups → MakesADeal (proposed_graph n arcs.now) arcs.now group }
    ensures refused { (reason : _) → cleared_groups n arcs.now ≡ Err reason → IsFault (proposed_graph n arcs.now) reason }
{}
