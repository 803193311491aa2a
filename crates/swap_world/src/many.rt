//! Many events, one after another.

ghost use Rattle.std.specs.Prelude.{OnOk, OnErr, All};
ghost use Rattle.swap_job.specs.Step.{CanStep};
ghost use Rattle.swap_run.specs.Run.{continued_run};
ghost use Rattle.swap_world.specs.Gone.{HasGone};
ghost use Rattle.swap_world.specs.Actors.{AreHeld};
ghost use Rattle.swap_world.specs.Stopped.{IsAfterSome, IsStopped};

use crate::world::World;
use swap_base::NoMemory;
use swap_job::Event;
use swap_run::Strategies;

/// Takes events in their order.
pub(crate) fn run<A: Strategies>(
    world: &mut World,
    strategies: &A,
    events: &[Event],
) -> Result<(), NoMemory>
    requires events { All (CanStep world.old.deal world.old.conforming world.old.seeds) events.now }
    requires held { AreHeld (A.holds strategies.now) world.old.roles }
    ensures ok { OnOk result (HasGone (A.gives strategies.now) (λ c s. continued_run c s events.now) world.old world.new) }
    ensures err { OnErr result (IsStopped (A.gives strategies.now) (λ c s. events.now) world.old world.new) }
    ensures prefix { OnErr result (IsAfterSome events.now world.old world.new) }
{
    'events: for event in events {
        world.step(strategies, event)?;
    }
    Ok(())
}
