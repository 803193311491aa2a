//! The event of a line.

ghost use Rattle.std.specs.Prelude.{◌≡◌, ◌<◌, true, false, nat_lt, length, slice_index_or, IsTrue, IfOk};
ghost use Rattle.std.specs.List.{list_all};
ghost use Rattle.swap_base.specs.Fault.{Gives};
ghost use Rattle.swap_digraph.specs.Deal.{IsWellSized};
ghost use Rattle.swap_job.specs.Resolved.{move_arc};
ghost use Rattle.swap_job.specs.Step.{IsJobEvent};
ghost use Rattle.offer_moves.specs.Kept.{AreBoundedCrafters};
ghost use Rattle.offer_events.specs.Event.{event_of_tick, event_of_look, event_of_act, permitted, event_of_call, event_of_crash, checked_event};
ghost use Rattle.offer_events.specs.Event.{outside_race, conforming_crash, asked_event, parse_event, each_seeded, needs_seeds, crafted_with_seeds};

use crate::plain::plain_event;
use crate::raw::RawEvent;
use crate::reading::read_raw_event;
use command_input::{OfferFault, Reason};
use offer_moves::{
    RawMove, check_adjacent, check_deviator, check_place, deal_sizes, parse_arc, parse_move,
    parse_object, party_of_name, ranged_number,
};
use std::alloc::Global;
use swap_base::{Digest, Fault, PartyId, Shared};
use swap_digraph::Deal;
use swap_job::{Event, Job, Move, Purpose};

#[tactic(auto, unfolding(crate::specs::Event::event_of_tick))]
fn event_of_tick(
    alloc: Global,
    deal: &Deal,
    line: u32,
    number: u64,
    by: Option<u64>,
) -> Result<Event, OfferFault>
    requires sized { IsWellSized deal.now }
    ensures { Gives (λ e. e) result (event_of_tick deal.now line number by) }
{
    let arc = parse_arc(alloc, deal_sizes(deal), line, "tick", number)?;
    let heights = ranged_number(alloc, line, "by", 1, 1_000_000, by.unwrap_or(1))?;
    Ok(Event::Tick(arc, heights))
}

#[tactic(auto, unfolding(crate::specs::Event::event_of_look))]
fn event_of_look(
    alloc: Global,
    job: &Job,
    line: u32,
    name: &[u8],
    number: u64,
) -> Result<Event, OfferFault>
    requires sized { IsWellSized job.now.deal }
    requires names { length job.now.names ≡ job.now.deal.graph.n }
    ensures { Gives (λ e. e) result (event_of_look job.now line name.now number) }
{
    let p = party_of_name(alloc, line, job.names.as_slice(), name)?;
    let arc = parse_arc(alloc, deal_sizes(&job.deal), line, "arc", number)?;
    check_adjacent(job.deal.graph.arcs(), line, p, arc)?;
    Ok(Event::Look(p, arc))
}

#[tactic(auto, unfolding(crate::specs::Event::event_of_act))]
fn event_of_act(alloc: Global, job: &Job, line: u32, name: &[u8]) -> Result<Event, OfferFault>
    requires sized { IsWellSized job.now.deal }
    requires names { length job.now.names ≡ job.now.deal.graph.n }
    ensures { Gives (λ e. e) result (event_of_act job.now line name.now) }
{
    let p = party_of_name(alloc, line, job.names.as_slice(), name)?;
    Ok(Event::Act(p))
}

/// Each of the parties has a seed.
#[tactic(auto, using(crate::proofs::Crafters::seeded_on, crate::proofs::Crafters::seeded_stops, crate::proofs::Crafters::seeded_done))]
fn check_seeded(seeds: &[Option<Digest>], via: &[PartyId]) -> Result<(), OfferFault>
    requires via { IsTrue (list_all (λ v. nat_lt v (length seeds.now)) via.now) }
    ensures { Gives (λ u. u) result (each_seeded seeds.now via.now) }
{
    for v in via {
        if seeds[*v as usize].is_none() {
            return Err(Fault::Refused(Reason::NoSeed(*v)));
        }
    }
    Ok(())
}

/// A check needs no seeds.
fn needs_seeds(purpose: Purpose) -> bool
    ensures { result ≡ needs_seeds purpose }
{
    match purpose {
        Purpose::Check => false,
        _ => true,
    }
}

/// Each party that crafts a hashkey has a seed.
fn check_seeds(job: &Job, mv: &Move) -> Result<(), OfferFault>
    requires via { AreBoundedCrafters (length job.now.seeds) mv.now }
    ensures { Gives (λ u. u) result (crafted_with_seeds job.now mv.now) }
{
    match mv {
        Move::Craft { via, .. } => {
            if needs_seeds(job.purpose) {
                return check_seeded(job.seeds.as_slice(), via.as_slice());
            }
            Ok(())
        }
        _ => Ok(()),
    }
}

/// A party may make a move where it stands, and who crafts has seeds.
#[tactic(auto, unfolding(crate::specs::Event::permitted))]
fn check_move(job: &Job, line: u32, p: PartyId, mv: &Move) -> Result<(), OfferFault>
    requires arc { move_arc mv.now < length job.now.deal.graph.arcs }
    requires conforming { AreBoundedCrafters (length job.now.conforming) mv.now }
    requires seeds { AreBoundedCrafters (length job.now.seeds) mv.now }
    ensures { Gives (λ u. u) result (permitted job.now line p mv.now) }
{
    check_place(
        job.deal.graph.arcs(),
        job.conforming.as_slice(),
        line,
        p,
        mv,
    )?;
    check_seeds(job, mv)
}

#[tactic(auto, unfolding(crate::specs::Event::event_of_call))]
fn event_of_call(
    alloc: Global,
    job: &Job,
    line: u32,
    name: &[u8],
    raw: &RawMove<'_>,
) -> Result<Event, OfferFault>
    requires sized { IsWellSized job.now.deal }
    requires names { length job.now.names ≡ job.now.deal.graph.n }
    requires conforming { length job.now.conforming ≡ job.now.deal.graph.n }
    requires seeds { length job.now.seeds ≡ job.now.deal.graph.n }
    ensures { Gives (λ e. e) result (event_of_call job.now line name.now raw.now) }
{
    let names = job.names.as_slice();
    let p = party_of_name(alloc, line, names, name)?;
    let mv = parse_move(alloc, deal_sizes(&job.deal), names, line, raw)?;
    check_deviator(line, job.conforming.as_slice()[p as usize])?;
    check_move(job, line, p, &mv)?;
    Ok(Event::Call(p, Shared::new(alloc, mv)?))
}

#[tactic(auto, unfolding(crate::specs::Event::event_of_crash))]
fn event_of_crash(
    alloc: Global,
    job: &Job,
    line: u32,
    name: &[u8],
    after: u64,
    image: u64,
) -> Result<Event, OfferFault>
    requires sized { IsWellSized job.now.deal }
    requires names { length job.now.names ≡ job.now.deal.graph.n }
    ensures exact { Gives (λ e. e) result (event_of_crash job.now line name.now after image) }
{
    let p = party_of_name(alloc, line, job.names.as_slice(), name)?;
    let k = ranged_number(alloc, line, "after", 0, 3, after)?;
    let j = ranged_number(alloc, line, "image", 0, 255, image)?;
    Ok(Event::Crash(p, k as u8, j as u8))
}

fn check_event(alloc: Global, job: &Job, line: u32, raw: &RawEvent<'_>) -> Result<Event, OfferFault>
    requires sized { IsWellSized job.now.deal }
    requires names { length job.now.names ≡ job.now.deal.graph.n }
    requires conforming { length job.now.conforming ≡ job.now.deal.graph.n }
    requires seeds { length job.now.seeds ≡ job.now.deal.graph.n }
    ensures { Gives (λ e. e) result (checked_event job.now line raw.now) }
{
    match raw {
        RawEvent::Tick { arc, by } => event_of_tick(alloc, &job.deal, line, *arc, *by),
        RawEvent::Look { name, arc } => event_of_look(alloc, job, line, name.as_slice(), *arc),
        RawEvent::Act { name } => event_of_act(alloc, job, line, name.as_slice()),
        RawEvent::Call { name, mv } => event_of_call(alloc, job, line, name.as_slice(), mv),
        RawEvent::Crash { name, after, image } => {
            event_of_crash(alloc, job, line, name.as_slice(), *after, *image)
        }
    }
}

fn check_no_race(line: u32, purpose: Purpose) -> Result<(), OfferFault>
    ensures { Gives (λ u. u) result (outside_race line purpose) }
{
    match purpose {
        Purpose::Race => Err(Fault::Refused(Reason::EventInRace(line))),
        _ => Ok(()),
    }
}

fn is_conforming(conforming: &[bool], p: PartyId) -> bool
    ensures { result ≡ slice_index_or conforming.now p false }
{
    match conforming.get(p as usize) {
        Some(conforms) => *conforms,
        None => false,
    }
}

/// Only a party that conforms crashes.
fn check_crash(conforming: &[bool], line: u32, event: &Event) -> Result<(), OfferFault>
    ensures { Gives (λ u. u) result (conforming_crash conforming.now line event.now) }
{
    match event {
        Event::Crash(p, _, _) => {
            if is_conforming(conforming, *p) {
                return Ok(());
            }
            Err(Fault::Refused(Reason::NotConforming(line)))
        }
        _ => Ok(()),
    }
}

/// The event that a line asks for by what it says.
#[tactic(auto, unfolding(crate::specs::Event::asked_event))]
fn asked_event(alloc: Global, job: &Job, line: u32, raw: &RawEvent<'_>) -> Result<Event, OfferFault>
    requires sized { IsWellSized job.now.deal }
    requires names { length job.now.names ≡ job.now.deal.graph.n }
    requires conforming { length job.now.conforming ≡ job.now.deal.graph.n }
    requires seeds { length job.now.seeds ≡ job.now.deal.graph.n }
    ensures exact { Gives (λ e. e) result (asked_event job.now line raw.now) }
    ensures fits { IfOk result (λ e. needs_seeds job.now.purpose ≡ true → IsJobEvent job.now e) }
{
    let event = check_event(alloc, job, line, raw)?;
    check_no_race(line, job.purpose)?;
    check_crash(job.conforming.as_slice(), line, &event)?;
    Ok(event)
}

/// The event of a line of any form.
#[tactic(auto, unfolding(crate::specs::Event::parse_event))]
fn read_object(alloc: Global, job: &Job, line: u32, text: &[u8]) -> Result<Event, OfferFault>
    requires sized { IsWellSized job.now.deal }
    requires names { length job.now.names ≡ job.now.deal.graph.n }
    requires conforming { length job.now.conforming ≡ job.now.deal.graph.n }
    requires seeds { length job.now.seeds ≡ job.now.deal.graph.n }
    ensures exact { Gives (λ e. e) result (parse_event job.now line text.now) }
    ensures fits { IfOk result (λ e. needs_seeds job.now.purpose ≡ true → IsJobEvent job.now e) }
{
    let object = parse_object(alloc, line, text)?;
    let raw = read_raw_event(alloc, line, &object)?;
    asked_event(alloc, job, line, &raw)
}

/// The event of a line of a job's offer, or the first reason against the line. Lines are counted
/// from 1.
pub fn read_event(alloc: Global, job: &Job, line: u32, text: &[u8]) -> Result<Event, OfferFault>
    requires sized { IsWellSized job.now.deal }
    requires names { length job.now.names ≡ job.now.deal.graph.n }
    requires conforming { length job.now.conforming ≡ job.now.deal.graph.n }
    requires seeds { length job.now.seeds ≡ job.now.deal.graph.n }
    ensures exact { Gives (λ e. e) result (parse_event job.now line text.now) }
    ensures fits { IfOk result (λ e. needs_seeds job.now.purpose ≡ true → IsJobEvent job.now e) }
{
    match plain_event(text) {
        Some(raw) => asked_event(alloc, job, line, &raw),
        None => read_object(alloc, job, line, text),
    }
}
