//! A job and its events, from a number.

ghost use Rattle.std.specs.Prelude.{◌≡◌, ◌≤◌, ◌<◌, ◌==◌, ◌||◌, ℕ, IfOk, All, length, map};
ghost use Rattle.std.specs.List.{range_with_len};
ghost use Rattle.swap_digraph.specs.Graph.{arcs};
ghost use Rattle.swap_job.specs.Step.{IsJobEvent};
ghost use Rattle.swap_rules.specs.Accepted.{IsAccepted};
ghost use Rattle.swap_gen.specs.Drawn.{drawn_graph, generated};
ghost use Rattle.swap_gen.specs.Events.{drawn_event, first_place, generated_events, picked, touching};
ghost use Rattle.swap_gen.specs.Word.{next, word};
ghost use Rattle.swap_gen.specs.Owned.{inside_wallets, OwnsKeys};

use crate::draws::Draws;
use crate::wallets::{MadeJob, made_job};
use party_wallet::Wallet;
use std::alloc::Global;
use std::marker::Model;
use swap_base::{ArcId, Listed, NoMemory, PartyId};
use swap_digraph::{ArcEnds, Digraph};
use swap_job::{Event, Job};

/// A job that a number gives, with its events, which are drawn one at a time and have no end.
#[derive(Drop)]
pub struct Generator {
    draws: Draws,
    job: Job,
    /// The arcs that touch each party.
    touching: Listed<Listed<ArcId>>,
}

impl Model for Generator {
    ghost use Rattle.swap_gen.specs.Events.{GeneratorState};

    ghost Value = { GeneratorState };

    ghost use Rattle.swap_gen.specs.Inside.{generator_state, GeneratorHolds};

    ghost view = { generator_state };

    ghost invariant = { GeneratorHolds };
}

fn touches(arc: ArcEnds, p: PartyId) -> bool
    ensures { result ≡ ((p == arc.from) || (p == arc.to)) }
{
    p == arc.from || p == arc.to
}

fn touching(alloc: Global, graph: &Digraph, p: PartyId) -> Result<Listed<ArcId>, NoMemory>
    requires { length graph.now.arcs ≤ 128 }
    ensures { IfOk result (λ l. l ≡ touching graph.now p) }
{
    let mut numbers = Vec::new(alloc);
    for (number, arc) in graph.arcs().iter().enumerate() {
        if touches(*arc, p) {
            numbers.push(number as u8)?;
        }
    }
    Ok(Listed::new(numbers))
}

fn all_touching(alloc: Global, graph: &Digraph) -> Result<Listed<Listed<ArcId>>, NoMemory>
    requires { length graph.now.arcs ≤ 128 }
    ensures { IfOk result (λ l. l ≡ map (touching graph.now) (range_with_len 0 graph.now.n)) }
{
    let mut lists = Vec::new(alloc);
    for p in 0..graph.n() {
        lists.push(touching(alloc, graph, p)?)?;
    }
    Ok(Listed::new(lists))
}

/// The one of some arcs that the next word picks.
fn pick(draws: &mut Draws, arcs: &[ArcId]) -> ArcId
    requires some { 0 < length arcs.now }
    requires few { length arcs.now ≤ 255 }
    ensures arc { result ≡ picked arcs.now (word draws.old.seed draws.old.place) }
    ensures draws { draws.new ≡ record draws.old { place = next draws.old.place } }
{
    arcs[draws.draw_bounded(arcs.len() as u8) as usize]
}

impl Generator {
    /// The job of a number with this number of parties, before its first event.
    pub fn new(alloc: Global, seed: u32, parties: u8) -> Result<Generator, NoMemory>
        requires low { 2 ≤ parties }
        requires high { parties ≤ 24 }
        ensures { IfOk result (λ g. g ≡ record { seed = seed; parties = parties; place = first_place seed parties }) }
    {
        let (generator, _) = Generator::with_wallets(alloc, seed, parties)?;
        Ok(generator)
    }

    /// The job of a number before its first event, with the wallets of its parties, which hold the
    /// keys that its deal states.
    pub fn with_wallets(
        alloc: Global,
        seed: u32,
        parties: u8,
    ) -> Result<(Generator, Vec<Option<Wallet>>), NoMemory>
        requires low { 2 ≤ parties }
        requires high { parties ≤ 24 }
        ensures generator { IfOk result (λ r. r.0 ≡ record { seed = seed; parties = parties; place = first_place seed parties }) }
        ensures wallets { IfOk result (λ r. r.1.items ≡ inside_wallets (generated seed parties)) }
    {
        let mut draws = Draws::new(seed);
        let MadeJob { job, wallets } = made_job(alloc, &mut draws, seed, parties)?;
        let touching = all_touching(alloc, &job.deal.graph)?;
        let generator = Generator {
            draws,
            job,
            touching,
        };
        Ok((generator, wallets))
    }

    /// The job.
    pub fn job(&self) -> &Job
        ensures exact { result.now ≡ generated self.now.seed self.now.parties }
        ensures accepted { IsAccepted result.now.deal }
        ensures owned { (p : ℕ) → p < result.now.deal.graph.n → OwnsKeys result.now p }
    {
        &self.job
    }

    /// The job, without taking memory.
    pub fn into_job(self) -> Job
        ensures exact { result ≡ generated self.seed self.parties }
        ensures accepted { IsAccepted result.deal }
        ensures owned { (p : ℕ) → p < result.deal.graph.n → OwnsKeys result p }
    {
        self.job
    }

    /// The next event. It takes no memory.
    // Always inlined, so that an event is made where it is taken: it has the size of its largest
    // kind.
    #[inline(always)]
    #[tactic(auto, unfolding(crate::specs::Events::drawn_event))]
    pub fn next_event(&mut self) -> Event
        ensures event { result ≡ (drawn_event self.old.seed (drawn_graph self.old.seed self.old.parties) self.old.place).0 }
        ensures drawn { self.new ≡ record self.old { place = (drawn_event self.old.seed (drawn_graph self.old.seed self.old.parties) self.old.place).1 } }
        ensures fits { IsJobEvent (generated self.old.seed self.old.parties) result }
    {
        let kind = self.draws.draw() % 8;
        let graph = &self.job.deal.graph;
        if kind == 0 {
            Event::Tick(self.draws.draw_bounded(graph.arcs().len() as u8), 1)
        } else if kind <= 4 {
            let p = self.draws.draw_bounded(graph.n());
            let arcs = self.touching.as_slice()[p as usize].as_slice();
            Event::Look(p, pick(&mut self.draws, arcs))
        } else {
            Event::Act(self.draws.draw_bounded(graph.n()))
        }
    }
}

/// The job of a number and a count of parties, with its first events.
pub fn generate(
    alloc: Global,
    seed: u32,
    parties: u8,
    events: u32,
) -> Result<(Job, Vec<Event>), NoMemory>
    requires low { 2 ≤ parties }
    requires high { parties ≤ 24 }
    requires few { events ≤ 200000 }
    ensures job { IfOk result (λ r. r.0 ≡ generated seed parties) }
    ensures events { IfOk result (λ r. r.1.items ≡ generated_events seed parties events) }
    ensures accepted { IfOk result (λ r. IsAccepted r.0.deal) }
    ensures owned { IfOk result (λ r. (p : ℕ) → p < r.0.deal.graph.n → OwnsKeys r.0 p) }
    ensures fit { IfOk result (λ r. All (IsJobEvent r.0) r.1.items) }
{
    let mut generator = Generator::new(alloc, seed, parties)?;
    let mut list = Vec::new(alloc);
    for _e in 0..events {
        list.push(generator.next_event())?;
    }
    Ok((generator.into_job(), list))
}
