//! What a check of a digraph answers.

use swap_base::{ArcId, Listed};
use swap_digraph::PathList;

/// Two trees over all parties. Party 0 has no arc in either.
#[derive(Debug, Drop)]
pub struct Trees {
    /// The arc that enters each party on a walk from party 0.
    pub from_zero: Listed<Option<ArcId>>,
    /// The arc that leaves each party on a walk to party 0.
    pub to_zero: Listed<Option<ArcId>>,
}

/// Whether a digraph is strongly connected.
#[derive(Debug, Drop)]
pub enum Strength {
    /// It is: party 0 reaches every party, and every party reaches party 0.
    Strong(Trees),
    /// It isn't: no arc leaves these parties, which are some and not all. They ascend.
    Closed(PathList),
}
