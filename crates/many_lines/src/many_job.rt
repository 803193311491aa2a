//! Swaps on shared chains.

use swap_base::{ByteText, Listed};
use swap_job::Job;

/// What is to be done with several swaps on shared chains.
#[derive(Debug, Drop)]
pub struct ManyJob {
    /// For each chain the names of its accounts.
    pub names: Listed<Listed<ByteText>>,
    /// For each chain the units that each account has at first.
    pub units: Listed<Listed<u64>>,
    /// The swaps.
    pub jobs: Listed<Job>,
    /// For each swap the chain of each of its arcs.
    pub chains: Listed<Listed<u8>>,
}
