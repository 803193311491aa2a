//! The job and the events of an offer.

ghost use Rattle.std.specs.Prelude.{true, ◌≡◌, ◌<◌, ◌≤◌, ◌^◌, ◌∷◌, length, map, All, IfOk};
ghost use Rattle.swap_base.specs.Fault.{Gives, steps};
ghost use Rattle.swap_job.specs.Step.{IsJobEvent};
ghost use Rattle.offer_events.specs.Event.{needs_seeds};
ghost use Rattle.command_input.specs.Refusal.{named_result};
ghost use Rattle.offer_header.specs.Limits.{HoldsEach};
ghost use Rattle.offer_header.specs.Names.{AreNames, has_strategy};
ghost use Rattle.offer_header.specs.Raw.{is_plain};
ghost use Rattle.swap_offer.specs.Checks.{IsAcceptedOrProposed};
ghost use Rattle.swap_offer.specs.Job.{limited_event, counted, parse_events, parse_job_events, job_of_lines, parse_job, header_names, offer_line_names, names_of_offer, IsReadJob, IsWholeJob};
ghost use Rattle.swap_offer.specs.Wallets.{AreSimpleRoles, HaveRequiredScripts, HaveRequiredSeeds, HaveRequiredWallets, IsUntoldJob};

use crate::header::read_header;
use crate::prepared::Prepared;
use command_input::{
    HeaderFault, OfferFault, Reason, filled_lines, nameless, over_limit, with_names,
};
use offer_events::read_event;
use offer_header::is_plain;
use std::alloc::Global;
use swap_base::{ByteText, Fault};
use swap_job::{Event, Job, Purpose};

/// The most events of an offer.
const MOST_EVENTS: u32 = 200_000;

/// The event of a line, given the number of events before it.
#[tactic(auto, unfolding(crate::specs::Job::limited_event))]
pub fn next_event(
    alloc: Global,
    job: &Job,
    count: u32,
    line: u32,
    text: &[u8],
) -> Result<Event, OfferFault>
    requires { IsWholeJob job.now }
    ensures exact { Gives (λ e. e) result (limited_event job.now count line text.now) }
    ensures fits { IfOk result (λ e. needs_seeds job.now.purpose ≡ true → IsJobEvent job.now e) }
{
    if count == MOST_EVENTS {
        return Err(over_limit(alloc, line, b"events", MOST_EVENTS as u64 + 1));
    }
    read_event(alloc, job, line, text)
}

/// The events of the lines.
fn read_events(alloc: Global, job: &Job, lines: &[(u32, &[u8])]) -> Result<Vec<Event>, OfferFault>
    requires whole { IsWholeJob job.now }
    requires few { length lines.now < 2 ^ 31 }
    ensures exact { Gives (λ v. v.items) result (parse_events job.now 0 (map (λ l. (l.0, l.1.now)) lines.now)) }
    ensures fit { IfOk result (λ v. needs_seeds job.now.purpose ≡ true → All (IsJobEvent job.now) v.items) }
{
    let mut events = Vec::new(alloc);
    'lines: for (count, line) in lines.iter().enumerate() {
        let event = next_event(alloc, job, count as u32, line.0, line.1)?;
        events.push(event)?;
    }
    Ok(events)
}

/// How many event lines there are with one more, which isn't examined.
#[tactic(auto, unfolding(crate::specs::Job::counted))]
pub fn count_event(alloc: Global, count: u32, line: u32, text: &[u8]) -> Result<u32, OfferFault>
    requires { count ≤ 200000 }
    ensures exact { Gives (λ n. n) result (counted count (line, text.now)) }
    ensures few { IfOk result (λ n. n ≤ 200000) }
{
    if count == MOST_EVENTS {
        return Err(over_limit(alloc, line, b"events", MOST_EVENTS as u64 + 1));
    }
    Ok(count + 1)
}

/// Counts event lines, which aren't examined.
fn count_events(alloc: Global, lines: &[(u32, &[u8])]) -> Result<u32, OfferFault>
    ensures { Gives (λ n. n) result (steps counted 0 (map (λ l. (l.0, l.1.now)) lines.now)) }
{
    let mut count: u32 = 0;
    for line in lines {
        count = count_event(alloc, count, line.0, line.1)?;
    }
    Ok(count)
}

/// The events of the further lines of a job; those of a plain job are counted, and no event is
/// read.
fn read_further(
    alloc: Global,
    purpose: Purpose,
    job: &Job,
    lines: &[(u32, &[u8])],
) -> Result<Vec<Event>, OfferFault>
    requires whole { IsWholeJob job.now }
    requires few { length lines.now < 2 ^ 31 }
    ensures exact { Gives (λ v. v.items) result (parse_job_events purpose job.now (map (λ l. (l.0, l.1.now)) lines.now)) }
    ensures fit { IfOk result (λ v. needs_seeds job.now.purpose ≡ true → All (IsJobEvent job.now) v.items) }
{
    if is_plain(purpose) {
        count_events(alloc, lines)?;
        Ok(Vec::new(alloc))
    } else {
        read_events(alloc, job, lines)
    }
}

/// A job with all its events.
#[derive(Drop)]
struct Offer {
    job: Job,
    events: Vec<Event>,
}

/// The job of a header line and the events of the further lines.
#[tactic(auto, using(command_input::proofs::Named::fails))]
fn read_source(
    alloc: Global,
    purpose: Purpose,
    strategies: &[ByteText],
    line: u32,
    text: &[u8],
    further: &[(u32, &[u8])],
) -> Result<Offer, HeaderFault>
    requires few { length further.now < 2 ^ 31 }
    ensures exact { Gives (λ o. (o.job, o.events.items)) result (named_result (header_names (has_strategy strategies.now) purpose line text.now)
        (job_of_lines (has_strategy strategies.now) purpose ((line, text.now) ∷ map (λ l. (l.0, l.1.now)) further.now))) }
    ensures read { IfOk result (λ o. IsReadJob (has_strategy strategies.now) purpose o.job o.events.items) }
{
    let Prepared { job, .. } = read_header(alloc, line, text, purpose, strategies)?;
    match read_further(alloc, purpose, &job, further) {
        Ok(events) => Ok(Offer { job, events }),
        Err(fault) => Err(with_names(fault, job.names)),
    }
}

fn read_lines(
    alloc: Global,
    purpose: Purpose,
    strategies: &[ByteText],
    lines: &[(u32, &[u8])],
) -> Result<Offer, HeaderFault>
    requires few { length lines.now < 2 ^ 31 }
    ensures exact { Gives (λ o. (o.job, o.events.items)) result (named_result
        (offer_line_names (has_strategy strategies.now) purpose (map (λ l. (l.0, l.1.now)) lines.now))
        (job_of_lines (has_strategy strategies.now) purpose (map (λ l. (l.0, l.1.now)) lines.now))) }
    ensures read { IfOk result (λ o. IsReadJob (has_strategy strategies.now) purpose o.job o.events.items) }
{
    if lines.is_empty() {
        return Err(Fault::Refused(nameless(alloc, Reason::NotJson(1))));
    }
    let (line, text) = lines[0];
    read_source(alloc, purpose, strategies, line, text, &lines[1..])
}

/// The job and the events of an offer, or the first reason against it with the names in its header.
/// For programs of others: this repository's programs read line by line.
#[tactic(auto, unfolding(crate::specs::Job::parse_job))]
pub fn read_job(
    alloc: Global,
    bytes: &[u8],
    purpose: Purpose,
    strategies: &[ByteText],
) -> Result<(Job, Vec<Event>), HeaderFault>
    requires few { length bytes.now < 2 ^ 31 }
    ensures exact { Gives (λ j. (j.0, j.1.items)) result (named_result (names_of_offer (has_strategy strategies.now) purpose bytes.now)
        (parse_job (has_strategy strategies.now) purpose bytes.now)) }
    ensures whole { IfOk result (λ j. IsWholeJob j.0) }
    ensures accepted { IfOk result (λ j. IsAcceptedOrProposed purpose j.0.deal) }
    ensures known { IfOk result (λ j. AreNames j.0.names) }
    ensures purpose { IfOk result (λ j. j.0.purpose ≡ purpose) }
    ensures wallets { IfOk result (λ j. HaveRequiredWallets purpose j.0) }
    ensures seeds { IfOk result (λ j. HaveRequiredSeeds purpose j.0) }
    ensures roles { IfOk result (λ j. AreSimpleRoles purpose j.0) }
    ensures strategies { IfOk result (λ j. HoldsEach (has_strategy strategies.now) j.0.roles) }
    ensures scripts { IfOk result (λ j. HaveRequiredScripts purpose j.0) }
    ensures untold { IfOk result (λ j. IsUntoldJob purpose j.0) }
    ensures fit { IfOk result (λ j. needs_seeds purpose ≡ true → All (IsJobEvent j.0) j.1.items) }
{
    let lines = filled_lines(alloc, bytes)?;
    let Offer { job, events } = read_lines(alloc, purpose, strategies, &lines)?;
    Ok((job, events))
}
