//! The job that a number gives, before it is made.

ghost use Rattle.std.specs.Prelude.{◌≡◌, ◌≤◌, ◌<◌, IfOk, OnOk, Some, true, None, length, map, replicate};
ghost use Rattle.std.specs.List.{range_with_len};
ghost use Rattle.swap_digraph.specs.Arcs.{first_fault};
ghost use Rattle.swap_job.specs.declared.job.Role.TheVariants.{Conforming};
ghost use Rattle.swap_gen.specs.Drawn.{drawn_arcs, drawn_party_label, plain_deal, plain_job, drawn_seed};
ghost use Rattle.swap_gen.specs.Events.{first_place};

use crate::arcs::{drawn_amounts, drawn_arcs, leader_count};
use crate::draws::Draws;
use sha2::{Digest as Hasher, Sha256};
use std::alloc::Global;
use swap_base::{ByteText, Digest, Listed, NoMemory, PartyId, Piece, put};
use swap_digraph::{ArcEnds, Deal, Digraph, Mode, Version};
use swap_job::{Finish, Job, Purpose, Role};

fn drawn_party_label(alloc: Global, p: PartyId) -> Result<ByteText, NoMemory>
    ensures { IfOk result (λ t. t ≡ drawn_party_label p) }
{
    let mut name = Vec::new(alloc);
    put(&mut name, &[Piece::Text("p"), Piece::Number(p as u64)])?;
    Ok(ByteText::new(name))
}

fn names(alloc: Global, parties: u8) -> Result<Listed<ByteText>, NoMemory>
    ensures { IfOk result (λ l. l ≡ map drawn_party_label (range_with_len 0 parties)) }
{
    let mut names = Vec::new(alloc);
    for p in 0..parties {
        names.push(drawn_party_label(alloc, p)?)?;
    }
    Ok(Listed::new(names))
}

fn make_seed(seed: u32, p: PartyId) -> Digest
    ensures { result ≡ drawn_seed seed p }
{
    let mut hasher = Sha256::new();
    hasher.update([8u8]);
    hasher.update((seed as u64).to_be_bytes());
    hasher.update([p]);
    hasher.finalize()
}

fn seeds(alloc: Global, seed: u32, parties: u8) -> Result<Listed<Option<Digest>>, NoMemory>
    ensures { IfOk result (λ l. l ≡ map (λ i. Some (drawn_seed seed i)) (range_with_len 0 parties)) }
{
    let mut seeds = Vec::new(alloc);
    for p in 0..parties {
        seeds.push(Some(make_seed(seed, p)))?;
    }
    Ok(Listed::new(seeds))
}

fn roles(alloc: Global, parties: u8) -> Result<Listed<Role>, NoMemory>
    ensures { IfOk result (λ l. l ≡ replicate parties Conforming) }
{
    let mut roles = Vec::new(alloc);
    for _p in 0..parties {
        roles.push(Role::Conforming)?;
    }
    Ok(Listed::new(roles))
}

/// The parties with the lowest numbers.
fn lowest(alloc: Global, count: u8) -> Result<Listed<PartyId>, NoMemory>
    ensures { IfOk result (λ l. l ≡ range_with_len 0 count) }
{
    Ok(Listed::new((0..count).collect(alloc)?))
}

/// The digraph of arcs that are no fault.
fn build_graph(alloc: Global, parties: u8, arcs: Vec<ArcEnds>) -> Result<Digraph, NoMemory>
    requires few { length arcs.items ≤ 128 }
    requires sound { first_fault parties Version.One arcs.items ≡ None }
    ensures { IfOk result (λ g. g ≡ record { n = parties; arcs = arcs.items }) }
{
    match Digraph::new(alloc, parties, arcs, Version::One) {
        Ok(graph) => Ok(graph),
        Err(_) => Err(NoMemory),
    }
}

fn plain_deal(alloc: Global, draws: &mut Draws, parties: u8) -> Result<Deal, NoMemory>
    requires low { 2 ≤ parties }
    requires high { parties ≤ 24 }
    requires place { draws.old.place ≡ 0 }
    ensures deal { IfOk result (λ d. d ≡ plain_deal draws.old.seed parties) }
    ensures draws { OnOk result (draws.new ≡ record draws.old { place = first_place draws.old.seed parties }) }
{
    let leaders = leader_count(draws, parties);
    let arcs = drawn_arcs(alloc, draws, parties, leaders)?;
    let amounts = drawn_amounts(alloc, draws, parties, arcs.len())?;
    Ok(Deal {
        version: Version::One,
        graph: build_graph(alloc, parties, arcs)?,
        leaders: lowest(alloc, leaders)?,
        start: 20,
        delta: 20,
        bound: parties as u32 - 1,
        mode: Mode::Hashkeys,
        amounts,
        hashlocks: Listed::empty(alloc),
        keys: Listed::empty(alloc),
        timelocks: Listed::empty(alloc),
        id: [0; 32],
    })
}

/// The job before it is made. The draws then stand at the first event.
#[tactic(auto, unfolding(crate::specs::Drawn::plain_job))]
pub(crate) fn plain_job(
    alloc: Global,
    draws: &mut Draws,
    seed: u32,
    parties: u8,
) -> Result<Job, NoMemory>
    requires low { 2 ≤ parties }
    requires high { parties ≤ 24 }
    requires seed { draws.old.seed ≡ seed }
    requires place { draws.old.place ≡ 0 }
    ensures job { IfOk result (λ j. j ≡ plain_job seed parties) }
    ensures draws { OnOk result (draws.new ≡ record draws.old { place = first_place seed parties }) }
{
    Ok(Job {
        purpose: Purpose::Make,
        names: names(alloc, parties)?,
        roles: roles(alloc, parties)?,
        conforming: Listed::new(vec![in alloc; true; parties as usize]?),
        seeds: seeds(alloc, seed, parties)?,
        deal: plain_deal(alloc, draws, parties)?,
        finish: Finish::Fair,
    })
}
