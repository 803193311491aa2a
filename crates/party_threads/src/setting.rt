//! What a race is played with.

use crate::hooks::Hooks;
use std::alloc::Global;
use swap_job::Job;

/// What stays the same in each round of a race: where memory comes from, the job, what it calls
/// back, and the ticks of a round.
#[derive_where(Clone, Copy)]
pub(crate) struct Setting<'a, A, G> {
    pub alloc: Global,
    pub job: &'a Job,
    pub hooks: Hooks<'a, A, G>,
    pub ticks: u32,
}
