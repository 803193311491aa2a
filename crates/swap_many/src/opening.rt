//! The opening of chains: what is set aside for each slot, and what is free then.

ghost use Rattle.std.specs.Prelude.{◌≡◌, ◌<◌, ◌≤◌, ◌^◌, ℕ, IfOk, [], length, map, sum_by};
ghost use Rattle.std.specs.List.{range_with_len};
ghost use Rattle.swap_base.specs.Fault.{Gives};
ghost use Rattle.swap_digraph.specs.Deal.{IsWellSized};
ghost use Rattle.swap_digraph.specs.Graph.{arcs};
ghost use Rattle.swap_run.specs.Laws.{IsReadyCast};
ghost use Rattle.swap_world.specs.Value.{world_cast};
ghost use Rattle.swap_many.specs.Chains.{set_aside};
ghost use Rattle.swap_many.specs.Inside.{standing, stands};
ghost use Rattle.swap_many.specs.Opened.{chain_lack, overdrawn};
ghost use Rattle.swap_many.specs.Opening.{AreOpenable, AreWorldPlaces, new_chain, none_swept, opened_or, place_funding, arc_funding, setup_of_worlds};
ghost use Rattle.swap_many.specs.Ticking.{nth};

use crate::chain_accounts::Chain;
use crate::flags::Flags;
use crate::overdrawn::{ManyFault, Overdrawn};
use crate::place::Place;
use std::alloc::Global;
use swap_base::{ArcId, Fault, GhostList, Listed, NoMemory};
use swap_digraph::Deal;
use swap_world::World;

/// What an account of a chain pays for an arc.
fn paid_units(deal: &Deal, place: Place, arc: ArcId, chain: u8, account: u8) -> u64
    requires sized { IsWellSized deal.now }
    requires arc { arc < length deal.now.graph.arcs }
    ensures value { result ≡ place_funding deal.now place chain account arc }
    ensures few { result ≤ 10 ^ 12 }
{
    if place.chain == chain && account == place.from {
        return deal.amounts.as_slice()[arc as usize];
    }
    0
}

/// What an account of a chain pays for the arcs of a swap.
fn units_aside(world: &World, places: &[Place], chain: u8, account: u8) -> u64
    requires { length places.now ≡ length world.now.deal.graph.arcs }
    ensures value { result ≡ sum_by (arc_funding world.now.deal places.now chain account) (arcs world.now.deal.graph) }
    ensures few { result ≤ 10 ^ 15 }
{
    let deal = world.deal();
    let mut sum = 0;
    'arcs: for arc in 0..places.len() {
        sum += paid_units(deal, places[arc], arc as ArcId, chain, account);
    }
    sum
}

/// What is set aside from an account of a chain.
fn aside(worlds: &[World], places: &[Listed<Place>], chain: u8, account: u8) -> u64
    requires { AreWorldPlaces worlds.now places.now }
    ensures { result ≡ set_aside (setup_of_worlds worlds.now places.now []) chain account }
{
    let mut sum = 0;
    'swaps: for s in 0..worlds.len() {
        sum += units_aside(&worlds[s], places[s].as_slice(), chain, account);
    }
    sum
}

/// A chain before any tick, or its first account that lacks units.
fn open_chain(
    alloc: Global,
    worlds: &[World],
    places: &[Listed<Place>],
    chains: &[Listed<u64>],
    chain: u8,
) -> Result<Chain, ManyFault>
    requires all { AreOpenable chains.now worlds.now places.now }
    requires chain { chain < length chains.now }
    ensures { Gives (λ c. c) result (opened_or (chain_lack (setup_of_worlds worlds.now places.now chains.now) chain)
        (new_chain (setup_of_worlds worlds.now places.now chains.now) chain)) }
{
    let opening = chains[chain as usize].as_slice();
    let mut free = Vec::new(alloc);
    'accounts: for account in 0..opening.len() {
        let have = opening[account];
        let account = account as u8;
        let wanted = aside(worlds, places, chain, account);
        if have < wanted {
            return Err(Fault::Refused(Overdrawn {
                chain,
                account,
                have,
                wanted,
            }));
        }
        free.push(have - wanted)?;
    }
    Ok(Chain::new(free))
}

/// The chains before any tick, or the first account that lacks units.
pub(crate) fn open_chains(
    alloc: Global,
    worlds: &[World],
    places: &[Listed<Place>],
    chains: &[Listed<u64>],
) -> Result<Vec<Chain>, ManyFault>
    requires { AreOpenable chains.now worlds.now places.now }
    ensures { Gives (λ v. v.items) result (opened_or (overdrawn (setup_of_worlds worlds.now places.now chains.now))
        (map (new_chain (setup_of_worlds worlds.now places.now chains.now)) (range_with_len 0 (length chains.now)))) }
{
    let mut opened = Vec::new(alloc);
    'chains: for chain in 0..chains.len() {
        match open_chain(alloc, worlds, places, chains, chain as u8) {
            Ok(chain) => opened.push(chain)?,
            Err(fault) => return Err(fault),
        }
    }
    Ok(opened)
}

/// The swept slots of each swap, none.
pub(crate) fn none_swept(alloc: Global, worlds: &[World]) -> Result<Vec<Flags>, NoMemory>
    ensures value { IfOk result (λ v. v.items ≡ map none_swept worlds.now) }
    ensures ready { IfOk result (λ v. (s : ℕ) → s < length worlds.now → IsReadyCast (world_cast (nth worlds.now s))) }
{
    let mut all = Vec::new(alloc);
    'swaps: for world in worlds {
        all.push(Flags::none(alloc, world.deal().graph.arcs().len())?)?;
    }
    Ok(all)
}

/// Those of a deal's arcs that stand on a chain.
fn stands(
    alloc: Global,
    deal: &Deal,
    places: &[Place],
    chain: u8,
) -> Result<Listed<ArcId>, NoMemory>
    requires sized { IsWellSized deal.now }
    requires one_each { length places.now ≡ length deal.now.graph.arcs }
    ensures { IfOk result (λ l. l ≡ stands chain places.now) }
{
    let mut on = Vec::new(alloc);
    'arcs: for arc in 0..deal.graph.arcs().len() as ArcId {
        if places[arc as usize].chain == chain {
            on.push(arc)?;
        }
    }
    Ok(Listed::new(on))
}

/// Those of each swap's arcs that stand on a chain.
fn stand(
    alloc: Global,
    worlds: &[World],
    places: &[Listed<Place>],
    chain: u8,
) -> Result<Listed<Listed<ArcId>>, NoMemory>
    requires { AreWorldPlaces worlds.now places.now }
    ensures { IfOk result (λ l. l ≡ map (stands chain) places.now) }
{
    let mut on = Vec::new(alloc);
    'swaps: for s in 0..worlds.len() {
        on.push(stands(alloc, worlds[s].deal(), places[s].as_slice(), chain)?)?;
    }
    Ok(Listed::new(on))
}

/// The arcs that stand on each chain, by chain and swap.
pub(crate) fn standing(
    alloc: Global,
    worlds: &[World],
    places: &[Listed<Place>],
    chains: u8,
) -> Result<Listed<Listed<Listed<ArcId>>>, NoMemory>
    requires { AreWorldPlaces worlds.now places.now }
    ensures { IfOk result (λ l. l ≡ standing chains places.now) }
{
    let mut on = Vec::new(alloc);
    'chains: for chain in 0..chains {
        on.push(stand(alloc, worlds, places, chain)?)?;
    }
    Ok(Listed::new(on))
}

/// The opening units, for clauses alone.
pub(crate) fn build_told(chains: &[Listed<u64>]) -> GhostList<Listed<u64>>
    ensures { result.items ≡ chains.now }
{
    let mut told = GhostList::new();
    'chains: for chain in chains {
        let more = told.and(chain);
        told = more;
    }
    told
}
