//! The turn of each actor: a party looks at each of its ledgers and then makes its calls, and the
//! clock ticks.

ghost use Rattle.std.specs.Prelude.{◌≡◌, ◌≢◌, ◌+◌, ◌<◌, ◌≤◌, ◌++◌, None, true, false, All, OnOk, OnErr, IfOk, length};
ghost use Rattle.ledger_core.specs.Book.{history};
ghost use Rattle.ledger_core.specs.History.{IsLegal};
ghost use Rattle.swap_job.specs.Fitting.{IsPartyMove};
ghost use Rattle.swap_job.specs.Roles.{IsHeld, job_role};
ghost use Rattle.swap_run.specs.View.{IsView, MayAnswer};
ghost use Rattle.party_machine.specs.Machine.{learnt, next_due};
ghost use Rattle.swap_run.proofs.Slots.{left};
ghost use Rattle.swap_run.specs.Shown.{IsShown};
ghost use Rattle.swap_world.specs.Acting.{IsSameOwner};
ghost use Rattle.party_threads.specs.Able.{watcher, machine_rest};
ghost use Rattle.party_threads.specs.Later.{HaveAdvanced};
ghost use Rattle.party_threads.specs.Ticks.{HaveClocksAdvanced};
ghost use Rattle.party_threads.specs.Tracks.{IsWatching, HaveSeenAll, IsSameElsewhere};
ghost use Rattle.party_threads.specs.Played.{party_planner, plan_rest, IsPlanAnswer, HasDone};
ghost use Rattle.party_threads.specs.Took.{IsMachineSeated, HasActed, IsPlannerSeated, HasPlanned, IsSeated, IsSameActor, DidInTurn};

use crate::clock::take_clock_turn;
use crate::side::Side;
use crate::turn::{Actor, Turn};
use crate::watching::{Learner, look_round, submit};
use history_index::Steps;
use ledger_core::{Call, EntryList};
use ledger_shared::Pass;
use party_machine::Machine;
use std::marker::Brand;
use std::sync::Wait;
use std::sync::ledger::{Blank, Ledger as Counted};
use swap_base::{ArcId, NoMemory, PartyId};
use swap_job::{Job, Role};
use swap_run::{Planner, Strategies};
use swap_world::{Player, most_acts};

fn learn_entries_counted<L: Counted>(
    machine: &mut Machine,
    arc: ArcId,
    entries: EntryList,
    blank: Blank,
) -> Result<(), NoMemory>
    requires name { blank.name ≡ L.name }
    requires parts { blank.parts ≡ L.parts }
    requires one { blank.parts ≡ 1 }
    requires arc { arc < length machine.old.deal.graph.arcs }
    requires legal { IsLegal machine.old.deal arc (history machine.old.known arc ++ entries) }
    ensures ok { OnOk result (machine.new ≡ learnt machine.old arc entries) }
    ensures err { OnErr result (machine.new ≡ machine.old) }
{
    let mut steps = Steps::<L>::new(blank);
    machine.learn(arc, entries, &mut steps)
}

impl Learner for Machine {
    ghost watcher = { λ s m. watcher m };

    ghost rest = { machine_rest };

    fn learn(&mut self, arc: ArcId, entries: EntryList) -> Result<(), NoMemory> {
        learn_entries_counted::<Brand>(self, arc, entries, Blank::new(1))
    }
}

/// Makes the first call that is due, and answers whether there was one. The call's signatures are
/// known to be valid, so the ledger verifies none of them.
fn act<R: Wait>(
    rt: &R,
    side: &Side<'_>,
    machine: &mut Machine,
    passes: &mut [Option<Pass>],
) -> Result<bool, NoMemory>
    requires seated { IsMachineSeated side.now.ledgers.now machine.old passes.old }
    ensures gone_on { HaveAdvanced passes.old passes.new }
    ensures seated { OnOk result (IsMachineSeated side.now.ledgers.now machine.new passes.new) }
    ensures seen { OnOk result (HaveSeenAll passes.old → HaveSeenAll passes.new) }
    ensures idle { IfOk result (λ made. made ≡ false → next_due machine.new ≡ None) }
    ensures due { IfOk result (λ made. made ≡ true → next_due machine.old ≢ None) }
    // it may make one call less
    ensures fewer { IfOk result (λ made. made ≡ true → left machine.old.deal machine.old.me machine.new.known + 1
        ≤ left machine.old.deal machine.old.me machine.old.known) }
    ensures owner { IsSameOwner machine.old machine.new }
    ensures elsewhere { IsSameElsewhere passes.old machine.old.known machine.new.known }
{
    match machine.next()? {
        None => Ok(false),
        Some(due) => {
            submit(rt, side, machine, passes, due, usize::MAX)?;
            Ok(true)
        }
    }
}

/// Acts until nothing is due; one act for each call that the party may make is enough.
fn act_to_rest<R: Wait>(
    rt: &R,
    side: &Side<'_>,
    machine: &mut Machine,
    passes: &mut [Option<Pass>],
) -> Result<(), NoMemory>
    requires seated { IsMachineSeated side.now.ledgers.now machine.old passes.old }
    ensures gone_on { HaveAdvanced passes.old passes.new }
    ensures seated { OnOk result (IsMachineSeated side.now.ledgers.now machine.new passes.new) }
    ensures seen { OnOk result (HaveSeenAll passes.old → HaveSeenAll passes.new) }
    ensures rests { OnOk result (next_due machine.new ≡ None) }
    ensures owner { IsSameOwner machine.old machine.new }
    ensures elsewhere { IsSameElsewhere passes.old machine.old.known machine.new.known }
{
    'acts: for _ in 0..most_acts(machine.deal()) {
        if !act(rt, side, machine, passes)? {
            return Ok(());
        }
    }
    Ok(())
}

/// The turn of a conforming party.
fn take_machine_turn<R: Wait>(
    rt: &R,
    side: &Side<'_>,
    machine: &mut Machine,
    passes: &mut [Option<Pass>],
) -> Result<(), NoMemory>
    requires seated { IsMachineSeated side.now.ledgers.now machine.old passes.old }
    ensures gone_on { HaveAdvanced passes.old passes.new }
    ensures owner { IsSameOwner machine.old machine.new }
    ensures acted { OnOk result (HasActed machine.old passes.old machine.new passes.new) }
{
    look_round(rt, side, machine, passes)?;
    act_to_rest(rt, side, machine, passes)
}

impl Learner for Planner {
    ghost watcher = { λ s n. party_planner s.job.now.deal s.me n };

    ghost rest = { plan_rest };

    fn learn(&mut self, arc: ArcId, entries: EntryList) -> Result<(), NoMemory> {
        Planner::learn(self, arc, entries)
    }
}

/// The call that answers what the party knows, if any. The turn is counted.
fn answer<A: Strategies>(
    strategies: &A,
    job: &Job,
    me: PartyId,
    planner: &mut Planner,
) -> Result<Option<(ArcId, Call)>, NoMemory>
    requires role { me < length job.now.roles }
    requires held { IsHeld (A.holds strategies.now) (job_role job.now me) }
    requires shown { IsShown job.now.deal job.now.seeds me planner.old }
    ensures answered { IfOk result (λ o. IsPlanAnswer (A.gives strategies.now) job.now.deal job.now.seeds me planner.old.known o planner.old planner.new
        (job_role job.now me)) }
    ensures fits { IfOk result (MayAnswer job.now.deal me) }
    ensures moves { OnOk result (All (IsPartyMove job.now.deal job.now.seeds me) planner.new.moves) }
    ensures turns { OnOk result (planner.new.turns ≡ planner.old.turns + 1) }
    ensures known { planner.new.known ≡ planner.old.known }
{
    match &job.roles.as_slice()[me as usize] {
        Role::Strategy(name) => planner.ask(strategies, name, &job.deal, me),
        _ => planner.follow(&job.deal, me, job.seeds.as_slice()),
    }
}

/// Makes the call of an answer, if any.
fn make<R: Wait>(
    rt: &R,
    side: &Side<'_>,
    planner: &mut Planner,
    passes: &mut [Option<Pass>],
    answer: Option<(ArcId, Call)>,
) -> Result<(), NoMemory>
    requires may { MayAnswer side.now.job.now.deal side.now.me answer }
    requires view { IsView side.now.job.now.deal side.now.me planner.old.known }
    requires watching { IsWatching side.now.ledgers.now (party_planner side.now.job.now.deal side.now.me planner.old) passes.old }
    ensures gone_on { HaveAdvanced passes.old passes.new }
    ensures watching { OnOk result (IsWatching side.now.ledgers.now (party_planner side.now.job.now.deal side.now.me planner.new) passes.new) }
    ensures done { OnOk result (HasDone side.now.job.now.deal side.now.me answer planner.old.known planner.new.known) }
    ensures moves { planner.new.moves ≡ planner.old.moves }
    ensures turns { planner.new.turns ≡ planner.old.turns }
{
    match answer {
        None => Ok(()),
        Some(due) => submit(rt, side, planner, passes, due, 0),
    }
}

/// The turn of a party that follows a script or a strategy.
fn take_planner_turn<R: Wait, A: Strategies>(
    rt: &R,
    side: &Side<'_>,
    strategies: &A,
    planner: &mut Planner,
    passes: &mut [Option<Pass>],
) -> Result<(), NoMemory>
    requires seated { IsPlannerSeated (A.holds strategies.now) side.now.job.now side.now.ledgers.now side.now.me planner.old passes.old }
    ensures gone_on { HaveAdvanced passes.old passes.new }
    ensures planned { OnOk result (HasPlanned (A.gives strategies.now) side.now.job.now side.now.me planner.old passes.old planner.new passes.new) }
{
    look_round(rt, side, planner, passes)?;
    let call = answer(strategies, side.job, side.me, planner)?;
    make(rt, side, planner, passes, call)
}

/// What the actor of a side does in its turn.
pub(crate) fn play<R: Wait, A: Strategies>(
    rt: &R,
    side: &Side<'_>,
    strategies: &A,
    ticks: u32,
    turn: &mut Turn,
) -> Result<(), NoMemory>
    requires some { 1 ≤ ticks }
    requires below { ticks ≤ 1000 }
    requires seated { IsSeated (A.holds strategies.now) side.now.job.now side.now.ledgers.now ticks side.now.me turn.old }
    ensures actor { IsSameActor turn.old.actor turn.new.actor }
    ensures passes { HaveAdvanced turn.old.passes.items turn.new.passes.items }
    ensures clocks { HaveClocksAdvanced turn.old.clocks.items turn.new.clocks.items }
    ensures places { length turn.new.passes.items ≡ length turn.old.passes.items }
    ensures clock_places { length turn.new.clocks.items ≡ length turn.old.clocks.items }
    ensures did { OnOk result (DidInTurn (A.gives strategies.now) side.now.job.now ticks side.now.me turn.old turn.new) }
{
    match &mut turn.actor {
        Actor::Party(Player::Conforming(machine, _)) => {
            take_machine_turn(rt, side, machine, turn.passes.as_mut_slice())
        }
        Actor::Party(Player::Planned(planner)) => {
            take_planner_turn(rt, side, strategies, planner, turn.passes.as_mut_slice())
        }
        Actor::Party(Player::Manual) => Ok(()),
        Actor::Clock => take_clock_turn(rt, side.ledgers, turn.clocks.as_mut_slice(), ticks),
    }
}
