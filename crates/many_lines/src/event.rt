//! The event of a line.

ghost use Rattle.std.specs.Prelude.{◌≡◌, true, IfOk};
ghost use Rattle.swap_base.specs.Fault.{Gives};
ghost use Rattle.swap_offer.specs.Job.{IsWholeJob};
ghost use Rattle.swap_run.specs.CalledLaws.{is_no_tick};
ghost use Rattle.many_lines.specs.Event.{after_space, before_space, read_raw_event, is_slot, next_told, payment_told, sweep_told, swap_told, tick_told, parse_told};
ghost use Rattle.many_lines.specs.Event.{IsEventRefusal, is_of_crash, own_event};
ghost use Rattle.many_lines.specs.Heading.{IsNamed};
ghost use Rattle.many_lines.specs.Setup.{IsSwapEvent, MayCome};
ghost use Rattle.many_lines.specs.Whole.{AreBoundedChains, AreSwaps};

use crate::fault::{bad, nameless};
use crate::many_job::ManyJob;
use crate::said::{parse_swap, parse_sweep, parse_tick, read_chain_payment};
use command_input::{HeaderFault, OfferFault, Reason, over_limit, with_names};
use std::alloc::Global;
use swap_base::{ByteText, Fault, Listed, NoMemory, TryCopy};
use swap_job::{Event, Job, Purpose};
use swap_many::ManyEvent;
use swap_offer::read_event;
use transcript_book::Parts;

/// The most events.
const MOST_EVENTS: u32 = 200_000;

/// What stands before a line's first space, and after it.
fn cut_at_space(text: &[u8]) -> (&[u8], &[u8])
    ensures word { result.0.now ≡ before_space text.now }
    ensures rest { result.1.now ≡ after_space text.now }
{
    for (i, b) in text.iter().enumerate() {
        if *b == b' ' {
            return (&text[..i], &text[i + 1..]);
        }
    }
    (text, &[])
}

#[tactic(auto, using(crate::proofs::Coming::tick_comes), unfolding(crate::specs::Event::tick_told))]
fn told_tick(
    alloc: Global,
    many: &ManyJob,
    line: u32,
    rest: &[u8],
) -> Result<ManyEvent, HeaderFault>
    requires chains { AreBoundedChains many.now }
    ensures exact { Gives (λ e. e) result (tick_told many.now line rest.now) }
    ensures can { IfOk result (λ e. MayCome many.now e) }
{
    let (chain, by) = parse_tick(alloc, line, many.names.len(), &mut Parts::new(b' ', rest))?;
    Ok(ManyEvent::Tick(chain, by))
}

#[tactic(auto, using(crate::proofs::Coming::payment_comes), unfolding(crate::specs::Event::payment_told))]
fn told_payment(
    alloc: Global,
    many: &ManyJob,
    line: u32,
    rest: &[u8],
) -> Result<ManyEvent, HeaderFault>
    requires chains { AreBoundedChains many.now }
    ensures exact { Gives (λ e. e) result (payment_told many.now line rest.now) }
    ensures can { IfOk result (λ e. MayCome many.now e) }
{
    let paid = read_chain_payment(
        alloc,
        line,
        many.names.as_slice(),
        &mut Parts::new(b' ', rest),
    )?;
    Ok(ManyEvent::Pay(paid.chain, paid.from, paid.to, paid.units))
}

/// Whether there is a swap of that number with an arc of that number.
fn is_slot(jobs: &[Job], swap: u8, arc: u8) -> bool
    ensures { result ≡ is_slot jobs.now swap arc }
{
    if (swap as usize) < jobs.len() {
        (arc as usize) < jobs[swap as usize].deal.graph.arcs().len()
    } else {
        false
    }
}

#[tactic(auto, using(crate::proofs::Coming::sweep_comes), unfolding(crate::specs::Event::sweep_told))]
fn told_sweep(
    alloc: Global,
    many: &ManyJob,
    line: u32,
    rest: &[u8],
) -> Result<ManyEvent, HeaderFault>
    ensures exact { Gives (λ e. e) result (sweep_told many.now line rest.now) }
    ensures can { IfOk result (λ e. MayCome many.now e) }
{
    let (swap, arc) = parse_sweep(alloc, line, &mut Parts::new(b' ', rest))?;
    if !is_slot(many.jobs.as_slice(), swap, arc) {
        return Err(bad(alloc, line));
    }
    Ok(ManyEvent::Sweep(swap, arc))
}

/// An event of a swap is no tick, since chains tick, and no crash.
fn own_event(alloc: Global, line: u32, swap: u8, event: Event) -> Result<ManyEvent, HeaderFault>
    ensures exact { Gives (λ e. e) result (own_event line swap event) }
    ensures same { IfOk result (λ e. e ≡ ManyEvent.In swap event) }
    ensures no_tick { IfOk result (λ _. is_no_tick event ≡ true) }
{
    match event {
        Event::Tick(_, _) => Err(bad(alloc, line)),
        Event::Look(p, arc) => Ok(ManyEvent::In(swap, Event::Look(p, arc))),
        Event::Act(p) => Ok(ManyEvent::In(swap, Event::Act(p))),
        Event::Call(p, mv) => Ok(ManyEvent::In(swap, Event::Call(p, mv))),
        Event::Crash(_, _, _) => Err(bad(alloc, line)),
    }
}

/// The fault with a copy of the names of the parties.
fn with_copy(fault: OfferFault, names: &Listed<ByteText>) -> HeaderFault
    ensures { IsNamed fault names.now result }
{
    match names.copy() {
        Ok(names) => with_names(fault, names),
        Err(NoMemory) => Fault::NoMemory,
    }
}

fn is_of_crash(fault: &OfferFault) -> bool
    ensures { result ≡ is_of_crash fault.now }
{
    match fault {
        Fault::Refused(Reason::NotConforming(_)) => true,
        _ => false,
    }
}

/// The fault of a swap's event line: a crash has no form that may stand there.
#[tactic(auto, using(crate::proofs::Failing::crash_is_bad, crate::proofs::Failing::named_stands))]
fn against_event(
    alloc: Global,
    line: u32,
    fault: OfferFault,
    names: &Listed<ByteText>,
) -> HeaderFault
    ensures { IsEventRefusal line names.now fault result }
{
    if is_of_crash(&fault) {
        return bad(alloc, line);
    }
    with_copy(fault, names)
}

/// The event of a swap's event line.
#[tactic(auto, using(crate::proofs::Failing::against_line), unfolding(crate::specs::Event::read_raw_event))]
fn read_raw_event(
    alloc: Global,
    line: u32,
    swap: u8,
    job: &Job,
    text: &[u8],
) -> Result<ManyEvent, HeaderFault>
    requires whole { IsWholeJob job.now }
    requires purpose { job.now.purpose ≡ Purpose.Run }
    ensures exact { Gives (λ e. e) result (read_raw_event line swap job.now text.now) }
    ensures can { IfOk result (λ e. IsSwapEvent swap job.now e) }
{
    match read_event(alloc, job, line, text) {
        Ok(event) => own_event(alloc, line, swap, event),
        Err(fault) => Err(against_event(alloc, line, fault, &job.names)),
    }
}

#[tactic(auto, using(crate::proofs::Coming::events_come, crate::proofs::Swaps::is_job_at), unfolding(crate::specs::Event::swap_told))]
fn told_in_swap(
    alloc: Global,
    many: &ManyJob,
    line: u32,
    word: &[u8],
    text: &[u8],
) -> Result<ManyEvent, HeaderFault>
    requires swaps { AreSwaps many.now }
    ensures exact { Gives (λ e. e) result (swap_told many.now line word.now text.now) }
    ensures can { IfOk result (λ e. MayCome many.now e) }
{
    if text.is_empty() {
        return Err(bad(alloc, line));
    }
    let jobs = many.jobs.as_slice();
    let swap = parse_swap(alloc, line, jobs.len(), word)?;
    read_raw_event(alloc, line, swap as u8, &jobs[swap as usize], text)
}

fn parse_told(
    alloc: Global,
    many: &ManyJob,
    line: u32,
    word: &[u8],
    rest: &[u8],
) -> Result<ManyEvent, HeaderFault>
    requires chains { AreBoundedChains many.now }
    requires swaps { AreSwaps many.now }
    ensures exact { Gives (λ e. e) result (parse_told many.now line word.now rest.now) }
    ensures can { IfOk result (λ e. MayCome many.now e) }
{
    if word == b"tick".as_slice() {
        told_tick(alloc, many, line, rest)
    } else if word == b"pay".as_slice() {
        told_payment(alloc, many, line, rest)
    } else if word == b"sweep".as_slice() {
        told_sweep(alloc, many, line, rest)
    } else {
        told_in_swap(alloc, many, line, word, rest)
    }
}

/// The event of a line, given the number of event lines before it.
#[tactic(auto, unfolding(crate::specs::Event::next_told))]
pub fn next_many(
    alloc: Global,
    many: &ManyJob,
    count: u32,
    line: u32,
    text: &[u8],
) -> Result<ManyEvent, HeaderFault>
    requires chains { AreBoundedChains many.now }
    requires swaps { AreSwaps many.now }
    ensures exact { Gives (λ e. e) result (next_told many.now count line text.now) }
    ensures can { IfOk result (λ e. MayCome many.now e) }
{
    if count == MOST_EVENTS {
        let fault = over_limit(alloc, line, b"events", MOST_EVENTS as u64 + 1);
        return Err(nameless(alloc, fault));
    }
    let (word, rest) = cut_at_space(text);
    parse_told(alloc, many, line, word, rest)
}
