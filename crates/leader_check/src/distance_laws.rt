//! The law of distances.

ghost use Rattle.leader_check.specs.DistanceLaws.{DistancesFollowArcs};

/// The law of distances, for one leader that breaks every cycle of a strongly connected digraph.
/// The leader's distance is 0. A follower's distance is 1 plus the greatest distance of the
/// counterparties of its leaving arcs.
pub fn distances_follow_arcs()
    ensures { DistancesFollowArcs }
{}
