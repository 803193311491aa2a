//! Calls of libraries that may answer that memory is wanting, and that the program never makes.

ghost use Rattle.std.specs.Prelude.{◌≡◌, true, IfOk, All, length};
ghost use Rattle.swap_job.specs.Step.{IsJobEvent};
ghost use Rattle.ledger_core.specs.Book.{IsLegalBook};
ghost use Rattle.offer_events.specs.Event.{needs_seeds};
ghost use Rattle.offer_header.specs.Limits.{HoldsEach};
ghost use Rattle.party_wallet.specs.Wallets.{new_wallets};
ghost use Rattle.swap_digraph.specs.Deal.{IsWellSized};
ghost use Rattle.swap_offer.specs.Job.{IsWholeJob};
ghost use Rattle.swap_offer.specs.Wallets.{HaveScripts, HaveWallets};
ghost use Rattle.swap_rules.specs.Accepted.{IsAccepted};

use crate::tests::jobs;
use ledger_core::Book;
use outcome_rules::{build_report, findings, unfinished};
use party_wallet::Wallet;
use run_texts::report_text;
use std::alloc::Global;
use std::process::Abort;
use std::test::Fail;
use swap_digraph::Deal;
use swap_gen::generate;
use swap_job::{Event, Job, Purpose};
use swap_offer::{Prepared, next_event, read_header};
use swap_run::{Kit, Strategies};
use swap_world::World;

fn count_unfinished(alloc: Global, deal: &Deal, book: &Book) -> Result<usize, Fail>
    requires sized { IsWellSized deal.now }
    requires legal { IsLegalBook deal.now book.now.histories }
{
    let list = unfinished(alloc, deal, book)?;
    Ok(list.len())
}

fn count_findings(alloc: Global, job: &Job, book: &Book) -> Result<usize, Fail>
    requires sized { IsWellSized job.now.deal }
    requires legal { IsLegalBook job.now.deal book.now.histories }
    requires conforming { length job.now.conforming ≡ job.now.deal.graph.n }
{
    let list = findings(alloc, &job.deal, &job.conforming, book)?;
    Ok(list.len())
}

/// Whether the report's text ends so.
fn has_end(rt: &impl Abort, alloc: Global, job: &Job, book: &Book, end: &[u8]) -> Result<bool, Fail>
    requires sized { IsWellSized job.now.deal }
    requires legal { IsLegalBook job.now.deal book.now.histories }
    requires conforming { length job.now.conforming ≡ job.now.deal.graph.n }
{
    let report = build_report(alloc, &job.deal, &job.conforming, book)?;
    assert!(rt; report.outcomes.len() <= 256);
    Ok(
        report_text(alloc, job, book, &report)?
            .as_slice()
            .ends_with(end),
    )
}

/// The first ledger has ticked: no ledger has ended, and nothing else is found.
fn tells_of_little(rt: &impl Abort, alloc: Global, job: &Job, book: &Book) -> Result<(), Fail>
    requires sized { IsWellSized job.now.deal }
    requires legal { IsLegalBook job.now.deal book.now.histories }
{
    assert!(rt; job.conforming.len() == job.deal.graph.n() as usize);
    assert!(rt; count_unfinished(alloc, &job.deal, book)? == 3);
    assert!(rt; count_findings(alloc, job, book)? == 3);
    assert!(rt;
        has_end(
            rt,
            alloc,
            job,
            book,
            b"\nunfinished 0 height 2\nunfinished 1 height 0\nunfinished 2 height 0\nfindings 3\n"
        )?
    );
    Ok(())
}

/// The book of these events.
fn played<A: Strategies>(
    alloc: Global,
    job: &Job,
    strategies: &A,
    wallets: Vec<Option<Wallet>>,
    events: &[Event],
) -> Result<Book, Fail>
    requires whole { IsWholeJob job.now }
    requires seeds { needs_seeds job.now.purpose ≡ true }
    requires accepted { IsAccepted job.now.deal }
    requires wallets { HaveWallets job.now }
    requires scripts { HaveScripts job.now }
    requires strategies { HoldsEach (A.holds strategies.now) job.now.roles }
    requires made { wallets.items ≡ new_wallets job.now.deal job.now.conforming job.now.seeds }
    requires events { All (IsJobEvent job.now) events.now }
    ensures { IfOk result (λ b. IsLegalBook job.now.deal b.histories) }
{
    let mut world = World::new(alloc, job, wallets)?;
    world.run(strategies, events)?;
    Ok(world.into_book(alloc)?)
}

/// Tells of the book after a tick.
fn tells<A: Strategies>(
    rt: &impl Abort,
    alloc: Global,
    job: &Job,
    strategies: &A,
    wallets: Vec<Option<Wallet>>,
) -> Result<(), Fail>
    requires whole { IsWholeJob job.now }
    requires seeds { needs_seeds job.now.purpose ≡ true }
    requires accepted { IsAccepted job.now.deal }
    requires wallets { HaveWallets job.now }
    requires scripts { HaveScripts job.now }
    requires strategies { HoldsEach (A.holds strategies.now) job.now.roles }
    requires made { wallets.items ≡ new_wallets job.now.deal job.now.conforming job.now.seeds }
{
    let events = [next_event(alloc, job, 0, 2, b"{\"tick\":0,\"by\":2}")?];
    let book = played(alloc, job, strategies, wallets, &events)?;
    tells_of_little(rt, alloc, job, &book)
}

/// Tells of the book of three parties, with whoever answers for strategies.
fn check_told<A: Strategies>(rt: &impl Abort, alloc: Global, strategies: &A) -> Result<(), Fail> {
    let strategy_names = strategies.names()?;
    let Prepared { job, wallets, .. } = read_header(
        alloc,
        1,
        jobs::THREE.as_bytes(),
        Purpose::Run,
        strategy_names.as_slice(),
    )?;
    tells(rt, alloc, &job, strategies, wallets)
}

#[test]
fn a_book_is_told_without_the_program(rt: HostRuntime) -> Result<(), Fail> {
    check_told(&rt, rt.alloc(), &Kit::new(rt.alloc()))
}

/// How many parties the job of number 7 has, and how many events.
fn counts_of_seven(alloc: Global) -> (u8, usize) {
    match generate(alloc, 7, 6, 500) {
        Ok((job, events)) => (job.deal.graph.n(), events.len()),
        Err(_) => (0, 0),
    }
}

#[test]
fn a_number_gives_a_job_and_its_events(rt: HostRuntime) -> Result<(), Fail> {
    assert!(rt; counts_of_seven(rt.alloc()) == (6, 500));
    Ok(())
}
