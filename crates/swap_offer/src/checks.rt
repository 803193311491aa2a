//! The checks that make a header's deal an accepted one.

ghost use Rattle.std.specs.Prelude.{◌≡◌, ◌≤◌, ◌<◌, ℕ, length, slice_index, IfOk, OnOk};
ghost use Rattle.swap_base.specs.Lists.{first_given_answer};
ghost use Rattle.swap_base.specs.Fault.{Gives};
ghost use Rattle.swap_digraph.specs.Graph.{HasEnds, IsStronglyConnected, IsFeedback, IsHeight, arcs};
ghost use Rattle.leader_check.specs.Levels.{greatest_level};
ghost use Rattle.leader_check.specs.Distance.{leader_distance};
ghost use Rattle.offer_header.specs.Header.{IsHeaderInLimits};
ghost use Rattle.offer_header.specs.Raw.{is_plain};
ghost use Rattle.swap_offer.specs.Checks.{arc_reason, build_graph, connected, one_leader, led, least_bound, bounded, start_after_delta, wrong_timelock, arcs_timed};
ghost use Rattle.swap_offer.specs.Checks.{timed_unless, checked_digraph, IsHeaderGraph, IsLedGraph};

use command_input::{OfferFault, Reason};
use digraph_check::{Strength, strong};
use leader_check::{LeaderAnswer, Levels, dist, levels};
use offer_header::{Header, is_plain};
use std::alloc::Global;
use swap_base::{ArcId, Fault, PartyId, TryCopy};
use swap_digraph::{ArcFault, Digraph, Mode};
use time_bounds::{need, timelock};

fn arc_reason(fault: ArcFault) -> Reason
    ensures { result ≡ arc_reason fault }
{
    match fault {
        ArcFault::OutOfRange(k) => Reason::SelfArc(k),
        ArcFault::SelfArc(k) => Reason::SelfArc(k),
        ArcFault::Parallel(j, k) => Reason::Parallel(j, k),
    }
}

/// The digraph of the header's arcs, or the first fault of the least arc that has one.
#[tactic(auto, using(crate::proofs::Few::few_names, crate::proofs::Few::few_arcs), unfolding(crate::specs::Checks::build_graph))]
pub(crate) fn header_graph(alloc: Global, header: &Header) -> Result<Digraph, OfferFault>
    requires { IsHeaderInLimits header.now }
    ensures exact { Gives (λ g. g) result (build_graph header.now) }
    ensures of_header { IfOk result (λ g. IsHeaderGraph header.now g) }
{
    let arcs = header.arcs.copy()?.into_vec();
    match Digraph::new(alloc, header.names.len() as u8, arcs, header.version) {
        Ok(graph) => Ok(graph),
        Err(Fault::Refused(fault)) => Err(Fault::Refused(arc_reason(fault))),
        Err(Fault::NoMemory) => Err(Fault::NoMemory),
    }
}

#[tactic(auto, unfolding(crate::specs::Checks::connected))]
fn check_connected(alloc: Global, graph: &Digraph) -> Result<(), OfferFault>
    requires parties { (2 ≤ graph.now.n) × (graph.now.n ≤ 32) }
    requires few { length graph.now.arcs ≤ 128 }
    requires ends { HasEnds graph.now }
    ensures exact { Gives (λ u. u) result (connected graph.now) }
    ensures strong { OnOk result (IsStronglyConnected graph.now) }
{
    match strong(alloc, graph)? {
        Strength::Strong(_) => Ok(()),
        Strength::Closed(set) => Err(Fault::Refused(Reason::NotStrong(set))),
    }
}

#[tactic(auto, unfolding(crate::specs::Checks::one_leader))]
fn check_one_leader(mode: Mode, leaders: &[PartyId]) -> Result<(), OfferFault>
    requires { length leaders.now ≤ 8 }
    ensures { Gives (λ u. u) result (one_leader mode leaders.now) }
{
    match mode {
        Mode::Timelocks => {
            if leaders.len() > 1 {
                Err(Fault::Refused(Reason::ManyLeaders(leaders.len() as u32)))
            } else {
                Ok(())
            }
        }
        Mode::Hashkeys => Ok(()),
    }
}

/// The levels of the followers, or a cycle of theirs as the reason.
#[tactic(auto, unfolding(crate::specs::Checks::led))]
fn check_leaders(alloc: Global, graph: &Digraph, leaders: &[PartyId]) -> Result<Levels, OfferFault>
    requires parties { graph.now.n ≤ 32 }
    requires ends { HasEnds graph.now }
    ensures exact { Gives (λ _. tt) result (led graph.now leaders.now) }
    ensures feedback { OnOk result (IsFeedback graph.now leaders.now) }
    ensures height { IfOk result (λ l. IsHeight graph.now leaders.now l.h) }
    ensures greatest { IfOk result (λ l. l.h ≡ greatest_level graph.now leaders.now) }
{
    match levels(alloc, graph, leaders)? {
        LeaderAnswer::Levels(levels) => Ok(levels),
        LeaderAnswer::Cycle(cycle) => Err(Fault::Refused(Reason::NotFeedback(cycle))),
    }
}

#[tactic(auto, unfolding(crate::specs::Checks::bounded))]
fn check_bound(bound: u32, needed: u32) -> Result<(), OfferFault>
    ensures { Gives (λ u. u) result (bounded bound needed) }
{
    if bound < needed {
        Err(Fault::Refused(Reason::BoundTooSmall(bound as u64, needed as u64)))
    } else {
        Ok(())
    }
}

#[tactic(auto, unfolding(crate::specs::Checks::start_after_delta))]
fn check_start(start: u32, delta: u32) -> Result<(), OfferFault>
    ensures { Gives (λ u. u) result (start_after_delta start delta) }
{
    if start < delta {
        Err(Fault::Refused(Reason::StartTooSoon(start as u64, delta as u64)))
    } else {
        Ok(())
    }
}

fn wrong_timelock(
    header: &Header,
    graph: &Digraph,
    leader: PartyId,
    dists: &[u32],
    arc: ArcId,
) -> Option<Reason>
    requires of_header { IsHeaderGraph header.now graph.now }
    requires arc { arc < length graph.now.arcs }
    requires parties { length dists.now ≡ graph.now.n }
    requires low { (v : ℕ) → v < graph.now.n → slice_index dists.now v ≤ 1000000 }
    requires dists { (v : ℕ) → v < graph.now.n → slice_index dists.now v ≡ leader_distance graph.now leader v }
    ensures { result ≡ wrong_timelock header.now graph.now leader arc }
{
    let given = header.timelocks.as_slice()[arc as usize] as u64;
    let counterparty = graph.arcs()[arc as usize].to;
    let dist = dists[counterparty as usize];
    let wanted = timelock(header.start, header.delta, header.bound, dist);
    if given == wanted {
        None
    } else {
        Some(Reason::WrongTimelock(arc, given, wanted))
    }
}

#[tactic(auto, using(crate::proofs::Few::few_arcs))]
fn first_wrong_timelock(
    header: &Header,
    graph: &Digraph,
    leader: PartyId,
    dists: &[u32],
) -> Option<Reason>
    requires of_header { IsHeaderGraph header.now graph.now }
    requires parties { length dists.now ≡ graph.now.n }
    requires low { (v : ℕ) → v < graph.now.n → slice_index dists.now v ≤ 1000000 }
    requires dists { (v : ℕ) → v < graph.now.n → slice_index dists.now v ≡ leader_distance graph.now leader v }
    ensures { result ≡ first_given_answer (wrong_timelock header.now graph.now leader) (arcs graph.now) }
{
    for arc in 0..graph.arcs().len() as ArcId {
        let reason = wrong_timelock(header, graph, leader, dists, arc);
        if reason.is_some() {
            return reason;
        }
    }
    None
}

#[tactic(auto, unfolding(crate::specs::Checks::arcs_timed))]
fn check_timelocks(
    alloc: Global,
    header: &Header,
    graph: &Digraph,
    levels: &Levels,
) -> Result<(), OfferFault>
    requires led { IsLedGraph header.now graph.now levels.now.h }
    ensures { Gives (λ u. u) result (arcs_timed header.now graph.now header.now.mode header.now.leaders) }
{
    match (header.mode, header.leaders.as_slice()) {
        (Mode::Timelocks, [leader]) => {
            let dists = dist(alloc, graph, *leader, levels)?;
            match first_wrong_timelock(header, graph, *leader, dists.as_slice()) {
                None => Ok(()),
                Some(reason) => Err(Fault::Refused(reason)),
            }
        }
        _ => Ok(()),
    }
}

/// With timelocks each arc of a header that isn't plain has its timelock.
fn check_times(
    alloc: Global,
    header: &Header,
    graph: &Digraph,
    levels: &Levels,
) -> Result<(), OfferFault>
    requires led { IsLedGraph header.now graph.now levels.now.h }
    ensures { Gives (λ u. u) result (timed_unless (is_plain header.now.purpose) header.now graph.now) }
{
    if is_plain(header.purpose) {
        Ok(())
    } else {
        check_timelocks(alloc, header, graph, levels)
    }
}

/// The least bound of a header. Its digraph, leaders and times pass their checks, in this order.
#[tactic(auto, using(crate::proofs::Few::few_names, crate::proofs::Few::few_arcs), unfolding(crate::specs::Checks::checked_digraph))]
pub(crate) fn check_header(
    alloc: Global,
    header: &Header,
    graph: &Digraph,
) -> Result<u32, OfferFault>
    requires of_header { IsHeaderGraph header.now graph.now }
    ensures exact { Gives (λ _. tt) result (checked_digraph header.now graph.now) }
    ensures need { IfOk result (λ n. n ≡ least_bound graph.now header.now.leaders) }
{
    let leaders = header.leaders.as_slice();
    check_connected(alloc, graph)?;
    check_one_leader(header.mode, leaders)?;
    let levels = check_leaders(alloc, graph, leaders)?;
    let needed = need(graph.n(), leaders.len() as u8, levels.h);
    check_bound(header.bound, needed)?;
    check_start(header.start, header.delta)?;
    check_times(alloc, header, graph, &levels)?;
    Ok(needed)
}
