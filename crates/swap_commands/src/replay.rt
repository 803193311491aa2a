//! The events of an input's lines, one after another.

ghost use Rattle.std.specs.Prelude.{◌≡◌, true, false, Ok, Err, IfOk, IfErr, OnOk};
ghost use Rattle.swap_rules.specs.Accepted.{IsAccepted};
ghost use Rattle.swap_run.specs.Run.{start, step};
ghost use Rattle.party_wallet.specs.Wallets.{new_wallets};
ghost use Rattle.offer_events.specs.Event.{needs_seeds};
ghost use Rattle.swap_offer.specs.Job.{IsWholeJob, limited_event};
ghost use Rattle.swap_offer.specs.Wallets.{HaveScripts, HaveWallets};
ghost use Rattle.swap_run.specs.Asked.{Answers};
ghost use Rattle.swap_world.specs.Cast.{job_cast};
ghost use Rattle.swap_world.specs.Gone.{HasAsked, HasGone};
ghost use Rattle.swap_world.specs.Actors.{AreHeld};
ghost use Rattle.swap_world.specs.Value.{Continues, new_world};
ghost use Rattle.command_input.specs.Input.{Ends, Fits, Stops, ahead, desk};
ghost use Rattle.made_jobs.specs.Generating.{IsJobWorld};
ghost use Rattle.swap_commands.specs.Output.{command_cast};
ghost use Rattle.swap_commands.specs.Replay.{CanReplay, folded_events, skipped_event};
ghost use Rattle.swap_commands.specs.Walk.{ReadsOrStops};

use crate::walk::{Skip, Walker, walk};
use command_input::{Input, InputFault, OfferFault, Reason};
use party_wallet::Wallet;
use std::alloc::Global;
use swap_base::NoMemory;
use swap_io::Source;
use swap_job::{Event, Job};
use swap_offer::next_event;
use swap_run::Strategies;
use swap_world::World;

/// A world steps by the events of its job's lines, where `strategies` answers for each party that
/// follows a strategy.
impl<'v, A: Strategies> Walker<(&'v Job, &'v A), Reason> for World {
    type Event = Event;

    ghost can_take = { λ c w. CanReplay (A.holds c.1.now) c.0.now w };

    ghost told = { λ c. limited_event c.0.now };

    ghost leads = { λ c w e v. HasGone (A.gives c.1.now) (λ k s. step k s e) w v };

    fn take(
        &mut self,
        alloc: Global,
        context: (&'v Job, &'v A),
        count: u32,
        line: u32,
        text: &[u8],
    ) -> Result<(), OfferFault> {
        let (job, strategies) = context;
        let event = next_event(alloc, job, count, line, text)?;
        self.step(strategies, &event)?;
        Ok(())
    }
}

/// The events of a job's lines are read and passed over.
impl<'v> Walker<&'v Job, Reason> for Skip {
    type Event = Event;

    ghost can_take = { λ job u. IsWholeJob job.now };

    ghost told = { λ job. limited_event job.now };

    ghost leads = { λ job u e v. Unit };

    fn take(
        &mut self,
        alloc: Global,
        job: &'v Job,
        count: u32,
        line: u32,
        text: &[u8],
    ) -> Result<(), OfferFault> {
        next_event(alloc, job, count, line, text)?;
        Ok(())
    }
}

/// The world of a job whose conforming parties have their wallets.
pub(crate) fn new_world(
    alloc: Global,
    job: &Job,
    wallets: Vec<Option<Wallet>>,
) -> Result<World, NoMemory>
    requires whole { IsWholeJob job.now }
    requires accepted { IsAccepted job.now.deal }
    requires wallets { HaveWallets job.now }
    requires scripts { HaveScripts job.now }
    requires made { wallets.items ≡ new_wallets job.now.deal job.now.conforming job.now.seeds }
    ensures new { IfOk result (λ w. w ≡ new_world job.now) }
{
    World::fitting(alloc, job, wallets)
}

/// The world after the events of the lines ahead.
pub(crate) fn replay<S: Source, A: Strategies>(
    alloc: Global,
    job: &Job,
    wallets: Vec<Option<Wallet>>,
    strategies: &A,
    input: &mut Input,
    source: &mut S,
) -> Result<World, InputFault<Reason>>
    requires whole { IsWholeJob job.now }
    requires seeds { needs_seeds job.now.purpose ≡ true }
    requires accepted { IsAccepted job.now.deal }
    requires wallets { HaveWallets job.now }
    requires scripts { HaveScripts job.now }
    requires made { wallets.items ≡ new_wallets job.now.deal job.now.conforming job.now.seeds }
    requires held { AreHeld (A.holds strategies.now) job.now.roles }
    requires fits { Fits (S.left source.old) input.old }
    ensures asked { IfOk result (λ w. HasAsked (A.gives strategies.now) (new_world job.now) w) }
    ensures of { IfOk result (λ w. IsJobWorld job.now w) }
    ensures goes_on { IfOk result (λ w. w.stopped ≡ false) }
    // It holds whatever strategies may answer after the last event.
    ensures reads { ReadsOrStops (λ w s t. (a : Answers) → Continues w a
        → Ends (λ bytes. folded_events (step (command_cast a job.now)) job.now 0 (start (job_cast job.now)) (ahead input.old bytes) ≡ Ok w.state) s t)
        (λ bytes reason. folded_events skipped_event job.now 0 tt (ahead input.old bytes) ≡ Err reason)
        (desk (S.left source.old) (S.faults source.old) input.old) (desk (S.left source.new) (S.faults source.new) input.new) result }
{
    let mut world = new_world(alloc, job, wallets)?;
    walk(alloc, (job, strategies), &mut world, input, source)?;
    Ok(world)
}

/// Reads the events of the lines ahead.
pub(crate) fn skip_events<S: Source>(
    alloc: Global,
    job: &Job,
    input: &mut Input,
    source: &mut S,
) -> Result<(), InputFault<Reason>>
    requires whole { IsWholeJob job.now }
    requires fits { Fits (S.left source.old) input.old }
    ensures exact { OnOk result (Ends (λ bytes. folded_events skipped_event job.now 0 tt (ahead input.old bytes) ≡ Ok tt)
        (desk (S.left source.old) (S.faults source.old) input.old)
        (desk (S.left source.new) (S.faults source.new) input.new)) }
    ensures stops { IfErr result (λ e. Stops (λ bytes reason. folded_events skipped_event job.now 0 tt (ahead input.old bytes) ≡ Err reason)
        (desk (S.left source.old) (S.faults source.old) input.old)
        (desk (S.left source.new) (S.faults source.new) input.new) e) }
{
    walk(alloc, job, &mut Skip, input, source)?;
    Ok(())
}
