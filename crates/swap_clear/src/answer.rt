//! What clearing answers.

use swap_base::Listed;
use swap_digraph::PathList;

/// A proposed transfer that no swap can hold.
#[derive(Debug, Drop)]
pub struct LeftOut {
    /// Its number.
    pub arc: u32,
    /// The parties that its counterparty reaches, ascending: no arc leaves them, and its party
    /// isn't one of them.
    pub closed: PathList,
}

/// Parties that reach each other, with what a swap of theirs asks for.
#[derive(Debug, Drop)]
pub struct Group {
    /// The parties, ascending.
    pub parties: PathList,
    /// The arcs between them by number, ascending.
    pub arcs: Listed<u32>,
    /// The leaders, ascending.
    pub leaders: PathList,
    /// For each leader a shortest cycle that begins with it and holds no other leader.
    pub cycles: Listed<PathList>,
    /// A bound on the arcs of a path that ends in a leader.
    pub bound: u32,
}

/// What of the proposals can be swapped, and what can't.
#[derive(Debug, Drop)]
pub struct Clearing {
    /// The arcs that lie on no cycle, ascending.
    pub left_out: Listed<LeftOut>,
    /// The groups, by their least party.
    pub groups: Listed<Group>,
}
