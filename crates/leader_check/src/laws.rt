//! The laws of leaders.

ghost use Rattle.leader_check.specs.Laws.{NoCycleIsFeedback, GreatestLevelIsHeight, PathsToLeadersAreBounded};

/// There is no cycle of followers exactly where the leaders are a feedback vertex set.
pub fn no_cycle_is_feedback()
    ensures { NoCycleIsFeedback }
{}

/// Where the leaders are a feedback vertex set, the greatest level is the most vertices on a path
/// of followers alone.
pub fn greatest_level_is_height()
    ensures { GreatestLevelIsHeight }
{}

/// The numbers of parties and leaders and the longest path of followers bound the arcs of a path
/// that ends in a leader.
pub fn paths_to_leaders_are_bounded()
    ensures { PathsToLeadersAreBounded }
{}
