//! Where the arcs of the swaps stand.

ghost use Rattle.std.specs.Prelude.{◌≡◌, ◌<◌, ◌≤◌, [], ℕ, length, slice_index_or, IfOk, IfSome};
ghost use Rattle.swap_base.specs.Fault.{Gives};
ghost use Rattle.swap_digraph.specs.Graph.{ends};
ghost use Rattle.command_input.specs.Words.{party_name};
ghost use Rattle.swap_offer.specs.Job.{IsWholeJob};
ghost use Rattle.many_lines.specs.Places.{find_account, arc_places, make_place, find_place, arc_place, find_places};
ghost use Rattle.many_lines.specs.Whole.{AreBoundedChains, ArePlaced, AreSwaps};

use crate::many_job::ManyJob;
use command_input::{HeaderFault, Reason, Refusal, party_name};
use std::alloc::Global;
use swap_base::{ArcId, ByteText, Fault, Listed};
use swap_job::Job;
use swap_many::Place;

/// The place of an account among those of a chain.
fn find_account(accounts: &[ByteText], name: &[u8]) -> Option<usize>
    ensures { result ≡ find_account accounts.now name.now }
{
    accounts.iter().position(|known| name == known.as_slice())
}

fn make_place(chain: u8, from: Option<usize>, to: Option<usize>) -> Option<Place>
    requires from { IfSome from (λ x. x < 256) }
    requires to { IfSome to (λ x. x < 256) }
    ensures { result ≡ make_place chain from to }
{
    match (from, to) {
        (Some(from), Some(to)) => Some(Place {
            chain,
            from: from as u8,
            to: to as u8,
        }),
        _ => None,
    }
}

/// The name of an arc's party.
fn name_of_party(job: &Job, arc: ArcId) -> &[u8]
    requires { arc < length job.now.deal.graph.arcs }
    ensures { result.now ≡ party_name job.now.names (ends job.now.deal.graph arc).from }
{
    party_name(
        job.names.as_slice(),
        job.deal.graph.arcs()[arc as usize].from,
    )
}

/// The name of an arc's counterparty.
fn name_of_counterparty(job: &Job, arc: ArcId) -> &[u8]
    requires { arc < length job.now.deal.graph.arcs }
    ensures { result.now ≡ party_name job.now.names (ends job.now.deal.graph arc).to }
{
    party_name(job.names.as_slice(), job.deal.graph.arcs()[arc as usize].to)
}

/// The place of an arc on a chain with these accounts, where both its parties have one.
fn arc_place(accounts: &[ByteText], job: &Job, chain: u8, arc: ArcId) -> Option<Place>
    requires few { length accounts.now ≤ 256 }
    requires arc { arc < length job.now.deal.graph.arcs }
    ensures { result ≡ arc_place accounts.now job.now chain arc }
{
    let from = find_account(accounts, name_of_party(job, arc));
    let to = find_account(accounts, name_of_counterparty(job, arc));
    make_place(chain, from, to)
}

/// Where an arc of a swap stands, by its chain.
fn find_place(
    alloc: Global,
    names: &[Listed<ByteText>],
    swap: u8,
    job: &Job,
    chain: u8,
    arc: ArcId,
) -> Result<Place, HeaderFault>
    requires whole { IsWholeJob job.now }
    requires arc { arc < length job.now.deal.graph.arcs }
    requires chain { chain < length names.now }
    requires accounts { (i : ℕ) → i < length names.now → length (slice_index_or names.now i []) ≤ 256 }
    ensures { Gives (λ p. p) result (find_place names.now swap job.now chain arc) }
{
    match arc_place(names[chain as usize].as_slice(), job, chain, arc) {
        Some(place) => Ok(place),
        None => Err(Fault::Refused(Refusal {
            reason: Reason::NoAccount(swap, arc),
            names: Listed::empty(alloc),
        })),
    }
}

/// Where the arcs of a swap stand.
fn arc_places(
    alloc: Global,
    names: &[Listed<ByteText>],
    swap: u8,
    job: &Job,
    chains: &[u8],
) -> Result<Listed<Place>, HeaderFault>
    requires whole { IsWholeJob job.now }
    requires arcs { length chains.now ≡ length job.now.deal.graph.arcs }
    requires chains { (a : ℕ) → a < length chains.now → slice_index_or chains.now a 0 < length names.now }
    requires accounts { (i : ℕ) → i < length names.now → length (slice_index_or names.now i []) ≤ 256 }
    ensures { Gives (λ l. l) result (arc_places names.now swap job.now 0 chains.now) }
{
    let mut list = Vec::new(alloc);
    'arcs: for arc in 0..chains.len() as ArcId {
        let place = find_place(alloc, names, swap, job, chains[arc as usize], arc as ArcId)?;
        list.push(place)?;
    }
    Ok(Listed::new(list))
}

/// Where the arcs of all swaps stand, or the least arc one of whose parties has no account there.
pub fn find_places(alloc: Global, many: &ManyJob) -> Result<Listed<Listed<Place>>, HeaderFault>
    requires chains { AreBoundedChains many.now }
    requires swaps { AreSwaps many.now }
    ensures exact { Gives (λ l. l) result (find_places many.now) }
    ensures placed { IfOk result (λ l. ArePlaced many.now l) }
{
    let jobs = many.jobs.as_slice();
    let chains = many.chains.as_slice();
    let mut list = Vec::new(alloc);
    'swaps: for swap in 0..chains.len() as u8 {
        let places = arc_places(
            alloc,
            many.names.as_slice(),
            swap,
            &jobs[swap as usize],
            chains[swap as usize].as_slice(),
        )?;
        list.push(places)?;
    }
    Ok(Listed::new(list))
}
