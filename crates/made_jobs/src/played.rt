//! The run of the job that a number gives.

ghost use Rattle.std.specs.Prelude.{◌≡◌, ◌<◌, ℕ, IfOk, OnOk, false, length};
ghost use Rattle.std.specs.List.{list_any};
ghost use Rattle.swap_rules.specs.Accepted.{IsAccepted};
ghost use Rattle.swap_rules.specs.Outcome.{IsEnded};
ghost use Rattle.swap_run.specs.Asked.{is_strategy};
ghost use Rattle.swap_run.specs.Run.{continued_run, start};
ghost use Rattle.swap_run.specs.Fair.{finish};
ghost use Rattle.swap_run.specs.Laws.{IsKept};
ghost use Rattle.swap_world.specs.Cast.{job_cast};
ghost use Rattle.swap_world.specs.Actors.{HaveRoles};
ghost use Rattle.swap_world.specs.Value.{world_cast, new_world};
ghost use Rattle.swap_gen.specs.Drawn.{generated};
ghost use Rattle.swap_gen.specs.Events.{generated_events};
ghost use Rattle.swap_gen.specs.Owned.{inside_wallets, OwnsKeys};
ghost use Rattle.made_jobs.specs.Generating.{generated_book, IsJobWorld, HasDrawnEvents};

use ledger_core::Book;
use party_wallet::Wallet;
use std::alloc::Global;
use swap_base::NoMemory;
use swap_gen::Generator;
use swap_job::Job;
use swap_run::Kit;
use swap_world::World;

/// The world of a job whose parties own its keys, before any event.
#[tactic(auto, using(crate::proofs::Playing::is_sized))]
fn new_world(alloc: Global, job: &Job, wallets: Vec<Option<Wallet>>) -> Result<World, NoMemory>
    requires accepted { IsAccepted job.now.deal }
    requires owned { (p : ℕ) → p < job.now.deal.graph.n → OwnsKeys job.now p }
    requires conforming { length job.now.conforming ≡ job.now.deal.graph.n }
    requires seeds { length job.now.seeds ≡ job.now.deal.graph.n }
    requires roles { HaveRoles job.now }
    requires wallets { wallets.items ≡ inside_wallets job.now }
    ensures { IfOk result (λ w. w ≡ new_world job.now) }
{
    World::fitting(alloc, job, wallets)
}

/// The world of a generator's job with the wallets of its parties, before any event.
fn first_world(
    alloc: Global,
    generator: &Generator,
    wallets: Vec<Option<Wallet>>,
) -> Result<World, NoMemory>
    requires { wallets.items ≡ inside_wallets (generated generator.now.seed generator.now.parties) }
    ensures of { IfOk result (λ w. IsJobWorld (generated generator.now.seed generator.now.parties) w) }
    ensures state { IfOk result (λ w. w.state ≡ start (job_cast (generated generator.now.seed generator.now.parties))) }
    ensures goes_on { IfOk result (λ w. w.stopped ≡ false) }
{
    let world = new_world(alloc, generator.job(), wallets)?;
    Ok(world)
}

/// Draws events and lets the world take each. Nobody follows a strategy, so that nobody is ever
/// asked.
fn take_events(
    generator: &mut Generator,
    world: &mut World,
    kit: &Kit,
    events: u32,
) -> Result<(), NoMemory>
    requires first { HasDrawnEvents generator.old.seed generator.old.parties events 0 generator.old }
    requires of { IsJobWorld (generated generator.old.seed generator.old.parties) world.old }
    requires goes_on { world.old.stopped ≡ false }
    ensures seed { OnOk result (generator.new.seed ≡ generator.old.seed) }
    ensures parties { OnOk result (generator.new.parties ≡ generator.old.parties) }
    ensures of { OnOk result (IsJobWorld (generated generator.old.seed generator.old.parties) world.new) }
    ensures state { OnOk result (world.new.state ≡ continued_run (job_cast (generated generator.old.seed generator.old.parties)) world.old.state
        (generated_events generator.old.seed generator.old.parties events)) }
{
    'events: for _e in 0..events {
        let event = generator.next_event();
        world.step(kit, &event)?;
    }
    Ok(())
}

/// The book of a world after the fair finish.
fn finished_book(alloc: Global, mut world: World, kit: &Kit) -> Result<Book, NoMemory>
    requires { list_any is_strategy world.roles ≡ false }
    ensures book { IfOk result (λ b. b.histories ≡ (finish (world_cast world) world.state).book) }
    ensures kept { OnOk result (IsKept (world_cast world) (finish (world_cast world) world.state).book) }
    ensures ended { OnOk result (IsEnded world.deal (finish (world_cast world) world.state).book) }
{
    world.finish_fair(kit)?;
    let book = world.into_book(alloc)?;
    Ok(book)
}

/// The book of a generator's job after a number of events and the fair finish. Its parties sign
/// with these wallets.
pub(crate) fn played(
    alloc: Global,
    generator: &mut Generator,
    wallets: Vec<Option<Wallet>>,
    events: u32,
) -> Result<Book, NoMemory>
    requires first { HasDrawnEvents generator.old.seed generator.old.parties events 0 generator.old }
    requires wallets { wallets.items ≡ inside_wallets (generated generator.old.seed generator.old.parties) }
    ensures book { IfOk result (λ b. b.histories ≡ generated_book generator.old.seed generator.old.parties events) }
    ensures kept { OnOk result (IsKept (job_cast (generated generator.old.seed generator.old.parties))
        (generated_book generator.old.seed generator.old.parties events)) }
    ensures ended { OnOk result (IsEnded (generated generator.old.seed generator.old.parties).deal
        (generated_book generator.old.seed generator.old.parties events)) }
    // The generator goes on in the same job.
    ensures seed { OnOk result (generator.new.seed ≡ generator.old.seed) }
    ensures parties { OnOk result (generator.new.parties ≡ generator.old.parties) }
{
    let mut world = first_world(alloc, generator, wallets)?;
    let kit = Kit::new(alloc);
    take_events(generator, &mut world, &kit, events)?;
    let book = finished_book(alloc, world, &kit)?;
    Ok(book)
}
