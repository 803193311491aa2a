//! What is done after a job's last event.

ghost use Rattle.std.specs.Prelude.{◌≡◌, false, OnOk};
ghost use Rattle.swap_rules.specs.Outcome.{IsEnded};
ghost use Rattle.swap_rules.specs.Laws.{IsDealt};
ghost use Rattle.swap_run.specs.Run.{start};
ghost use Rattle.swap_world.specs.Cast.{job_cast};
ghost use Rattle.swap_world.specs.Gone.{HasGone};
ghost use Rattle.swap_world.specs.Actors.{AreHeld};
ghost use Rattle.outcome_rules.specs.Report.{is_conforming_party};
ghost use Rattle.outcome_rules.specs.Promises.{AllAreConforming};
ghost use Rattle.made_jobs.specs.Generating.{IsJobWorld};
ghost use Rattle.swap_commands.specs.Output.{finished_state};

use swap_base::NoMemory;
use swap_job::{Finish, Job};
use swap_run::Strategies;
use swap_world::World;

/// Finishes the world as its job asks.
pub(crate) fn finish<A: Strategies>(
    world: &mut World,
    strategies: &A,
    job: &Job,
) -> Result<(), NoMemory>
    requires held { AreHeld (A.holds strategies.now) job.now.roles }
    requires of { IsJobWorld job.now world.old }
    requires goes_on { world.old.stopped ≡ false }
    ensures gone { OnOk result (HasGone (A.gives strategies.now) (finished_state job.now.finish) world.old world.new) }
    ensures ended { OnOk result (job.now.finish ≡ Finish.Fair → IsEnded job.now.deal world.new.state.book) }
    ensures dealt { OnOk result (job.now.finish ≡ Finish.Fair → world.old.state ≡ start (job_cast job.now) → AllAreConforming job.now.deal job.now.conforming
        → IsDealt job.now.deal (is_conforming_party job.now.conforming) world.new.state.book) }
{
    match job.finish {
        Finish::Stop => Ok(()),
        Finish::Fair => world.finish_fair(strategies),
    }
}
