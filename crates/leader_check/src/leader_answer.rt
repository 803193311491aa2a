//! What the check of leaders answers.

use swap_base::Listed;
use swap_digraph::PathList;

/// The level of each party, and the greatest of them.
#[derive(Debug, Drop)]
pub struct Levels {
    /// By party: 0 for a leader, and for a follower the most vertices on a path of followers that
    /// ends in it.
    pub level: Listed<u8>,
    /// The most vertices on a path of followers alone.
    pub h: u8,
}

/// Levels where the leaders are a feedback vertex set, and else a cycle of followers.
#[derive(Debug, Drop)]
pub enum LeaderAnswer {
    Levels(Levels),
    /// Distinct followers, each with an arc to the next and the last with an arc to the first,
    /// which is the least.
    Cycle(PathList),
}
