//! A deal with all that its parties' seeds give.

ghost use Rattle.std.specs.Prelude.{◌≡◌, ◌≤◌, ◌<◌, ℕ, IfOk, OnOk, length, map, slice_index};
ghost use Rattle.swap_digraph.specs.Deal.{lock_leader};
ghost use Rattle.swap_digraph.specs.Graph.{arcs};
ghost use Rattle.swap_digraph.specs.declared.deal.Mode.TheVariants.{Timelocks};
ghost use Rattle.leader_check.specs.Distance.{leader_distance};
ghost use Rattle.swap_rules.specs.Accepted.{IsAccepted};
ghost use Rattle.swap_gen.specs.Made.{all_keys, all_timelocks, made, made_deal, arc_timelock};
ghost use Rattle.swap_offer.specs.Proposed.{HaveSeeds, IsProposed};
ghost use Rattle.swap_gen.specs.Owned.{OwnsKeys};

use crate::seeds::{all_keys, seed_hashlocks};
use hashkey_path::deal_digest;
use leader_check::{LeaderAnswer, dist, levels};
use std::alloc::Global;
use swap_base::{Digest, Listed, NoMemory, TryCopy};
use swap_digraph::{Deal, Mode, copy_deal};
use swap_job::{Job, Purpose};
use time_bounds::timelock;

/// How far each party stands from the one leader.
fn deal_distances(alloc: Global, deal: &Deal) -> Result<Listed<u32>, NoMemory>
    requires proposed { IsProposed deal.now }
    requires mode { deal.now.mode ≡ Timelocks }
    ensures parties { IfOk result (λ l. length l ≡ deal.now.graph.n) }
    ensures dist { IfOk result (λ l. (v : ℕ) → v < deal.now.graph.n
        → slice_index l v ≡ leader_distance deal.now.graph (lock_leader deal.now 0) v) }
    ensures low { IfOk result (λ l. (v : ℕ) → v < deal.now.graph.n → slice_index l v ≤ 64) }
{
    let leader = deal.leaders.as_slice()[0];
    match levels(alloc, &deal.graph, &[leader])? {
        LeaderAnswer::Levels(levels) => dist(alloc, &deal.graph, leader, &levels),
        LeaderAnswer::Cycle(_) => unreachable!(),
    }
}

/// The timelock of each arc, by how far its counterparty stands from the one leader.
fn derive_timelocks(alloc: Global, deal: &Deal, dists: &[u32]) -> Result<Listed<u32>, NoMemory>
    requires proposed { IsProposed deal.now }
    requires parties { length dists.now ≡ deal.now.graph.n }
    requires dist { (v : ℕ) → v < deal.now.graph.n → slice_index dists.now v ≡ leader_distance deal.now.graph (lock_leader deal.now 0) v }
    requires low { (v : ℕ) → v < deal.now.graph.n → slice_index dists.now v ≤ 64 }
    ensures { IfOk result (λ l. l ≡ map (arc_timelock deal.now) (arcs deal.now.graph)) }
{
    let mut timelocks = Vec::new(alloc);
    for arc in deal.graph.arcs() {
        let far = dists[arc.to as usize];
        timelocks.push(timelock(deal.start, deal.delta, deal.bound, far) as u32)?;
    }
    Ok(Listed::new(timelocks))
}

/// The timelock of each arc; 0 with hashkeys.
pub fn all_timelocks(alloc: Global, deal: &Deal) -> Result<Listed<u32>, NoMemory>
    requires { IsProposed deal.now }
    ensures { IfOk result (λ l. l ≡ all_timelocks deal.now.mode deal.now) }
{
    match deal.mode {
        Mode::Timelocks => {
            let dists = deal_distances(alloc, deal)?;
            derive_timelocks(alloc, deal, dists.as_slice())
        }
        Mode::Hashkeys => Ok(Listed::new(vec![in alloc; 0; deal.graph.arcs().len()]?)),
    }
}

/// Fills in what the seeds give, where their public keys are at hand. Want of memory may leave a
/// part of it filled in.
#[tactic(auto, unfolding(crate::specs::Made::made_deal))]
pub(crate) fn fill(
    alloc: Global,
    deal: &mut Deal,
    seeds: &[Option<Digest>],
    keys: Listed<Listed<Digest>>,
) -> Result<(), NoMemory>
    requires proposed { IsProposed deal.old }
    requires keys { keys ≡ all_keys deal.old.mode seeds.now deal.old }
    ensures { OnOk result (deal.new ≡ made_deal seeds.now deal.old) }
{
    deal.hashlocks = seed_hashlocks(alloc, seeds, deal.leaders.as_slice())?;
    deal.keys = keys;
    deal.timelocks = all_timelocks(alloc, deal)?;
    deal.id = deal_digest(deal);
    Ok(())
}

/// The job's deal with what its parties' seeds give.
fn made_deal(alloc: Global, job: &Job) -> Result<Deal, NoMemory>
    requires { IsProposed job.now.deal }
    ensures { IfOk result (λ d. d ≡ made_deal job.now.seeds job.now.deal) }
{
    let keys = all_keys(alloc, job.seeds.as_slice(), &job.deal)?;
    let mut deal = copy_deal(&job.deal)?;
    fill(alloc, &mut deal, job.seeds.as_slice(), keys)?;
    Ok(deal)
}

/// The job with what its parties' seeds give: each leader's hashlock, with hashkeys each party's
/// public keys, with timelocks each arc's timelock, and the deal's digest. What stood in their
/// places is left out.
pub fn make(alloc: Global, job: &Job) -> Result<Job, NoMemory>
    requires proposed { IsProposed job.now.deal }
    requires seeds { HaveSeeds job.now }
    ensures exact { IfOk result (λ j. j ≡ made job.now) }
    ensures accepted { IfOk result (λ j. IsAccepted j.deal) }
    // Each party's seed gives it what the deal states of it.
    ensures owned { IfOk result (λ j. (p : ℕ) → p < j.deal.graph.n → OwnsKeys j p) }
{
    Ok(Job {
        purpose: Purpose::Make,
        names: job.names.copy()?,
        roles: job.roles.copy()?,
        conforming: Listed::new(Vec::from_slice(alloc, job.conforming.as_slice())?),
        seeds: job.seeds.copy()?,
        deal: made_deal(alloc, job)?,
        finish: job.finish,
    })
}
