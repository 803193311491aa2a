//! The turns of a job's parties and of the clock.

ghost use Rattle.std.specs.Prelude.{◌≡◌, None, length, replicate, IfOk, OnOk};
ghost use Rattle.swap_digraph.specs.Deal.{IsWellSized};
ghost use Rattle.party_wallet.specs.Wallets.{new_wallets};
ghost use Rattle.swap_world.specs.Actors.{AllFit};
ghost use Rattle.party_threads.specs.FirstTurns.{IsNewTurn, HasNewTurn, AreNew};

use crate::turn::{Actor, Turn};
use party_wallet::Wallet;
use std::alloc::Global;
use swap_base::NoMemory;
use swap_digraph::Deal;
use swap_job::Job;
use swap_world::new_players;

/// A place for each arc, with nothing in it.
fn no_places<P: Drop>(alloc: Global, deal: &Deal) -> Result<Vec<Option<P>>, NoMemory>
    ensures { IfOk result (λ v. v.items ≡ replicate (length deal.now.graph.arcs) None) }
{
    let mut places = Vec::new(alloc);
    'arcs: for _arc in 0..deal.graph.arcs().len() {
        places.push(None)?;
    }
    Ok(places)
}

/// The turn of an actor that has no pass yet.
fn new_turn(alloc: Global, deal: &Deal, actor: Actor) -> Result<Turn, NoMemory>
    ensures { IfOk result (λ t. IsNewTurn deal.now actor t) }
{
    Ok(Turn {
        actor,
        passes: no_places(alloc, deal)?,
        clocks: no_places(alloc, deal)?,
        failed: false,
    })
}

/// Adds the turn of an actor.
fn add_turn(alloc: Global, deal: &Deal, turns: &mut Vec<Turn>, actor: Actor) -> Result<(), NoMemory>
    ensures { OnOk result (HasNewTurn deal.now actor turns.old.items turns.new.items) }
{
    turns.push(new_turn(alloc, deal, actor)?)?;
    Ok(())
}

/// The turns of the parties and of the clock, where every wallet is right.
pub(crate) fn new_turns(
    alloc: Global,
    job: &Job,
    wallets: Vec<Option<Wallet>>,
) -> Result<Vec<Turn>, NoMemory>
    requires sized { IsWellSized job.now.deal }
    requires roles { length job.now.roles ≡ job.now.deal.graph.n }
    requires wallets { wallets.items ≡ new_wallets job.now.deal job.now.conforming job.now.seeds }
    requires fit { AllFit job.now }
    ensures { IfOk result (λ v. AreNew job.now v.items) }
{
    let players = new_players(alloc, job, wallets)?;
    let mut turns = Vec::new(alloc);
    'players: for player in players {
        add_turn(alloc, &job.deal, &mut turns, Actor::Party(player))?;
    }
    add_turn(alloc, &job.deal, &mut turns, Actor::Clock)?;
    Ok(turns)
}
