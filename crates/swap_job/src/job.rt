//! A job.

use crate::moves::MoveList;
use swap_base::{ByteText, Digest, Listed, NoMemory, TryCopy};
use swap_digraph::Deal;

/// What an offer is read for.
#[derive(Clone, Copy, Debug, PartialEq, Eq)]
pub enum Purpose {
    Check,
    Run,
    Race,
    Make,
    Audit,
}

/// How a party acts.
#[derive(Debug, Drop)]
pub enum Role {
    Conforming,
    Manual,
    Script(MoveList),
    Strategy(ByteText),
}

impl TryCopy for Role {
    fn copy(&self) -> Result<Role, NoMemory> {
        match self {
            Role::Conforming => Ok(Role::Conforming),
            Role::Manual => Ok(Role::Manual),
            Role::Script(moves) => Ok(Role::Script(moves.copy()?)),
            Role::Strategy(name) => Ok(Role::Strategy(name.copy()?)),
        }
    }
}

/// What is done after the last event.
#[derive(Clone, Copy, Debug, PartialEq, Eq)]
pub enum Finish {
    Stop,
    Fair,
}

/// A deal and what is to be done with it. Each list has one member per party.
#[derive(Debug, Drop)]
pub struct Job {
    pub purpose: Purpose,
    pub deal: Deal,
    pub names: Listed<ByteText>,
    pub roles: Listed<Role>,
    /// True exactly where the party's role is `Conforming`.
    pub conforming: Listed<bool>,
    pub seeds: Listed<Option<Digest>>,
    pub finish: Finish,
}
