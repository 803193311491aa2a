//! A race: rounds until each ledger is above the horizon.

ghost use Rattle.std.specs.Prelude.{◌≡◌, ◌<◌, ◌≤◌, IfOk, IfErr, OnOk, map, Some};
ghost use Rattle.swap_digraph.specs.Deal.{IsWellSized};
ghost use Rattle.swap_rules.specs.Accepted.{IsAccepted};
ghost use Rattle.party_wallet.specs.Wallets.{new_wallets};
ghost use Rattle.swap_run.specs.Run.{start};
ghost use Rattle.swap_world.specs.Cast.{job_cast};
ghost use Rattle.swap_world.specs.Inside.{new_ledgers};
ghost use Rattle.swap_world.specs.Actors.{AllFit, AreHeld, ConformingHaveSeeds, HaveRoles, IsFirstWrongFault};
ghost use Rattle.party_threads.specs.Race.{needed_rounds, IsRaced, IsRaceBook};
ghost use Rattle.party_threads.specs.Standing.{StandsHome, race_book, home_history, race_state};

use crate::first_turns::new_turns;
use crate::gate::Gate;
use crate::home::Home;
use crate::hooks::Hooks;
use crate::round::round;
use crate::setting::Setting;
use crate::turn::Turn;
use ledger_core::{Book, EntryList, Ledger, share_deal};
use party_wallet::Wallet;
use std::alloc::Global;
use std::sync::Wait;
use std::thread::Threads;
use swap_base::{ArcId, Fault, Listed, NoMemory};
use swap_digraph::Deal;
use swap_job::Job;
use swap_run::Strategies;
use swap_world::{WorldFault, wrong_wallet};
use time_bounds::horizon;
use typed_books::visit_book;

/// After a round with this number of calls or more, each actor has a thread of its own.
const MANY_CALLS: usize = 8;

/// No fewer than there ever are actors, with the clock.
const MOST_ACTORS: usize = 256;

/// A ledger for each arc, each at its place.
fn make_ledgers(alloc: Global, deal: &Deal) -> Result<Vec<Option<Home>>, NoMemory>
    requires { IsWellSized deal.now }
    ensures { IfOk result (λ v. v.items ≡ map (λ l. Some l) (new_ledgers deal.now)) }
{
    let held = share_deal(alloc, deal)?;
    let mut ledgers = Vec::new(alloc);
    'arcs: for arc in 0..deal.graph.arcs().len() as ArcId {
        let ledger = Ledger::new(alloc, &held, arc)?;
        ledgers.push(Some(Home::new(alloc, ledger)?))?;
    }
    Ok(ledgers)
}

fn home_history(ledger: Option<Home>, alloc: Global) -> EntryList
    ensures { result ≡ home_history ledger }
{
    match ledger {
        Some(ledger) => ledger.into_history(),
        None => EntryList::empty(alloc),
    }
}

/// The book of the ledgers.
fn collected_book(alloc: Global, ledgers: Vec<Option<Home>>) -> Result<Book, NoMemory>
    ensures { IfOk result (λ b. b.histories ≡ race_book ledgers.items) }
{
    let mut histories = Vec::new(alloc);
    'ledgers: for ledger in ledgers {
        histories.push(home_history(ledger, alloc))?;
    }
    Ok(Book {
        histories: Listed::new(histories),
    })
}

/// The fewest rounds of `ticks` ticks that pass the horizon.
fn needed_rounds(deal: &Deal, ticks: u32) -> u32
    requires sized { IsWellSized deal.now }
    requires some { 1 ≤ ticks }
    ensures { result ≡ needed_rounds deal.now ticks }
{
    (horizon(deal.start, deal.delta, deal.bound) / ticks as u64 + 1) as u32
}

/// How many entries the ledgers have.
fn all_entries(ledgers: &[Option<Home>]) -> usize {
    let mut all = 0usize;
    for ledger in ledgers {
        if let Some(ledger) = ledger {
            all = all.saturating_add(ledger.len() as usize);
        }
    }
    all
}

/// The number of threads for a round, by the number of calls in the round before. After no call,
/// one thread plays the round: most actors only look, and to start a thread takes far longer than
/// to look. After a few calls there is one thread more than calls. After many calls each actor has
/// a thread of its own, so that long turns share the cores.
fn thread_count(calls: usize) -> usize
    ensures { 0 < result }
{
    if calls < MANY_CALLS {
        calls + 1
    } else {
        MOST_ACTORS
    }
}

/// Rounds until each ledger is above the horizon.
fn run_rounds<R: Threads + Wait + Sync, A: Strategies + Sync, G: Gate>(
    rt: &R,
    setting: &Setting<'_, A, G>,
    ledgers: &mut [Option<Home>],
    turns: &mut [Turn],
) -> Result<(), NoMemory>
    requires some { 1 ≤ setting.now.ticks }
    requires below { setting.now.ticks ≤ 1000 }
    requires stands { StandsHome setting.now.job.now ledgers.old turns.old }
    requires held { AreHeld (A.holds setting.now.hooks.strategies.now) setting.now.job.now.roles }
    requires first { race_state setting.now.job.now ledgers.old turns.old ≡ start (job_cast setting.now.job.now) }
    ensures raced { OnOk result (IsRaced (A.gives setting.now.hooks.strategies.now) (job_cast setting.now.job.now) setting.now.ticks
        (needed_rounds setting.now.job.now.deal setting.now.ticks) (race_state setting.now.job.now ledgers.new turns.new)) }
{
    // In the first round everybody may have something to do.
    let mut calls = usize::MAX;
    'rounds: for number in 0..needed_rounds(&setting.job.deal, setting.ticks) {
        let threads = thread_count(calls);
        let before = all_entries(ledgers).saturating_add(ledgers.len());
        round(rt, setting, number, threads, ledgers, turns)?;
        calls = all_entries(ledgers).saturating_sub(before);
    }
    Ok(())
}

/// Races a job whose wallets are right. In each round every party and the clock have a turn. Each
/// turn has a thread of its own, or shares one after a round with few calls. The race waits for
/// locks and at the gate.
pub fn race_fitting<R: Threads + Wait + Sync, A: Strategies + Sync, G: Gate>(
    rt: &R,
    alloc: Global,
    job: &Job,
    wallets: Vec<Option<Wallet>>,
    ticks: u32,
    hooks: &Hooks<'_, A, G>,
) -> Result<Book, NoMemory>
    requires accepted { IsAccepted job.now.deal }
    requires seeds { ConformingHaveSeeds job.now }
    requires roles { HaveRoles job.now }
    requires held { AreHeld (A.holds hooks.now.strategies.now) job.now.roles }
    requires wallets { wallets.items ≡ new_wallets job.now.deal job.now.conforming job.now.seeds }
    requires fit { AllFit job.now }
    requires some { 1 ≤ ticks }
    requires below { ticks ≤ 1000 }
    ensures { IfOk result (λ b. IsRaceBook (A.gives hooks.now.strategies.now) (job_cast job.now) ticks b.histories) }
{
    let mut turns = new_turns(alloc, job, wallets)?;
    let mut ledgers = make_ledgers(alloc, &job.deal)?;
    let setting = Setting {
        alloc,
        job,
        hooks: *hooks,
        ticks,
    };
    run_rounds(rt, &setting, ledgers.as_mut_slice(), turns.as_mut_slice())?;
    let book = collected_book(alloc, ledgers)?;
    visit_book(&book);
    Ok(book)
}

/// Races a job with these wallets, or answers the first conforming party whose seed isn't the
/// deal's. For programs of others.
pub fn race<R: Threads + Wait + Sync, A: Strategies + Sync, G: Gate>(
    rt: &R,
    alloc: Global,
    job: &Job,
    wallets: Vec<Option<Wallet>>,
    ticks: u32,
    hooks: &Hooks<'_, A, G>,
) -> Result<Book, WorldFault>
    requires accepted { IsAccepted job.now.deal }
    requires seeds { ConformingHaveSeeds job.now }
    requires roles { HaveRoles job.now }
    requires held { AreHeld (A.holds hooks.now.strategies.now) job.now.roles }
    requires wallets { wallets.items ≡ new_wallets job.now.deal job.now.conforming job.now.seeds }
    requires some { 1 ≤ ticks }
    requires below { ticks ≤ 1000 }
    ensures book { IfOk result (λ b. IsRaceBook (A.gives hooks.now.strategies.now) (job_cast job.now) ticks b.histories) }
    ensures fit { OnOk result (AllFit job.now) }
    ensures wrong { IfErr result (IsFirstWrongFault job.now) }
{
    match wrong_wallet(job, &wallets) {
        Some(wrong) => Err(Fault::Refused(wrong)),
        None => Ok(race_fitting(rt, alloc, job, wallets, ticks, hooks)?),
    }
}
