//! A world.

ghost use Rattle.std.specs.Prelude.{◌≡◌, ◌<◌, ◌≤◌, ◌⊎◌, ◌&&◌, IsTrue, OnOk, OnErr, IfOk, IfErr, IsErr, false, true, is_some, is_none};
ghost use Rattle.std.specs.Prelude.{ℕ, List, Some, length, map, All};
ghost use Rattle.std.specs.List.Sorted.{IsStrictlyIncreasing};
ghost use Rattle.wallet_journal.specs.Held.{Leaves, visible_bytes};
ghost use Rattle.wallet_journal.specs.Layout.{recorded};
ghost use Rattle.party_wallet.specs.Value.{signed_hashkey};
ghost use Rattle.swap_digraph.specs.Deal.{IsWellSized};
ghost use Rattle.swap_base.specs.Lists.{IsMoment};
ghost use Rattle.hashkey_path.specs.declared.hashkey.Hashkey.{Hashkey};
ghost use Rattle.ledger_core.specs.declared.entry.Entry.{Entry};
ghost use Rattle.ledger_core.specs.declared.entry.Call.TheVariants.{Unlock};
ghost use Rattle.swap_rules.specs.Party.{pick_call};
ghost use Rattle.ledger_core.specs.History.{height, accounts, published, settled};
ghost use Rattle.ledger_core.specs.Book.{IsLegalBook, history};
ghost use Rattle.swap_job.specs.Step.{CanStep, CanTick, CanLook, CanCall, CanCrash};
ghost use Rattle.swap_rules.specs.Accepted.{IsAccepted};
ghost use Rattle.swap_rules.specs.Outcome.{IsEnded};
ghost use Rattle.swap_rules.specs.Laws.{IsDealt};
ghost use Rattle.swap_run.specs.Run.{conforms, is_planned, state_notes, party_role, start, step, continued_run};
ghost use Rattle.swap_run.specs.Called.{apply_step};
ghost use Rattle.swap_run.specs.Asked.{Answers};
ghost use Rattle.swap_run.specs.Fair.{finish, is_above_horizon};
ghost use Rattle.swap_run.specs.Steps.{finish_steps, IsSkipped};
ghost use Rattle.swap_run.specs.Laws.{IsKept, IsReadyCast};
ghost use Rattle.party_wallet.specs.Wallets.{new_wallets};
ghost use Rattle.swap_world.specs.Stopped.{IsAfterSome, IsStopped, AllWorldPartiesConform};
ghost use Rattle.swap_world.specs.Cast.{asks};
ghost use Rattle.swap_world.specs.Value.{world_cast, answering_cast, new_world, Continues};
ghost use Rattle.swap_world.specs.TouchingArcs.{all_adjacent};
ghost use Rattle.swap_world.specs.Quiet.{IsQuietState};
ghost use Rattle.swap_world.specs.Gone.{HasGone, IsCutAt, IsCutInEvent};
ghost use Rattle.swap_world.specs.Recorded.{AreRecorded};
ghost use Rattle.swap_world.specs.On.{is_slot_swept, event_told, tick_arcs, IsCutWithSweeps};
ghost use Rattle.swap_world.specs.Actors.{AllFit, AreHeld, HaveRoles, ConformingHaveSeeds, IsFirstWrongFault};
ghost use Rattle.swap_world.specs.Inside.{AreNewLedgers};

use crate::call_outcome::Told;
use crate::journals::with_journals;
use crate::player::{Actor, Player};
use crate::players::{WorldFault, new_players, wrong_wallet};
use crate::turn::PartyMove;
use crate::{chain_tick, fair, journals, many, quiet, turn};
use ledger_core::{Accounts, Book, Call, EntryList, Ledger, share_deal};
use party_wallet::Wallet;
use std::alloc::Global;
use std::marker::Model;
use swap_base::{ArcId, Digest, Fault, GhostList, Listed, NoMemory, PartyId, TryCopy};
use swap_digraph::{Deal, copy_deal};
use swap_job::{Event, Job, Move, Role};
use swap_run::{Planner, Strategies};
use wallet_journal::MemoryDisk;

/// The ledgers of a job, and what acts for its parties.
#[derive(Drop)]
pub struct World {
    deal: Deal,
    conforming: Listed<bool>,
    seeds: Listed<Option<Digest>>,
    /// How each party acts.
    roles: Listed<Role>,
    ledgers: Vec<Ledger>,
    actors: Vec<Actor>,
    /// Who asked a strategy, one after another.
    askers: GhostList<PartyId>,
    /// What each of them planned when it asked.
    told: GhostList<Planner>,
    /// What was answered to each.
    answers: GhostList<Option<(ArcId, Call)>>,
    stopped: bool,
}

impl Model for World {
    ghost use Rattle.swap_world.specs.Value.{WorldState};

    ghost Value = { WorldState };

    ghost use Rattle.swap_world.specs.Inside.{inside_world, WorldHolds};

    ghost view = { inside_world };

    ghost invariant = { WorldHolds };
}

fn make_ledgers(alloc: Global, deal: &Deal) -> Result<Vec<Ledger>, NoMemory>
    requires { IsWellSized deal.now }
    ensures { IfOk result (λ v. AreNewLedgers deal.now (length deal.now.graph.arcs) v.items) }
{
    let held = share_deal(alloc, deal)?;
    let mut ledgers = Vec::new(alloc);
    for arc in 0..deal.graph.arcs().len() as ArcId {
        let mut ledger = Ledger::new(alloc, &held, arc)?;
        ledger.reserve()?;
        ledgers.push(ledger)?;
    }
    Ok(ledgers)
}

fn ledger_histories(alloc: Global, ledgers: Vec<Ledger>) -> Result<Listed<EntryList>, NoMemory>
    ensures { IfOk result (λ v. v ≡ map (λ l. l.history) ledgers.items) }
{
    let mut histories = Vec::new(alloc);
    for ledger in ledgers {
        histories.push(ledger.into_history())?;
    }
    Ok(Listed::new(histories))
}

fn ledger_copies(alloc: Global, ledgers: &[Ledger]) -> Result<Listed<EntryList>, NoMemory>
    ensures { IfOk result (λ v. v ≡ map (λ l. l.history) ledgers.now) }
{
    let mut histories = Vec::new(alloc);
    'copies: for ledger in ledgers {
        histories.push(ledger.copy_tail(0)?)?;
    }
    Ok(Listed::new(histories))
}

impl World {
    /// A world before any event, where every wallet is right. Each conforming party signs with its
    /// wallet, and each script stands at its first move.
    pub fn fitting(
        alloc: Global,
        job: &Job,
        wallets: Vec<Option<Wallet>>,
    ) -> Result<World, NoMemory>
        requires accepted { IsAccepted job.now.deal }
        requires seeds { ConformingHaveSeeds job.now }
        requires roles { HaveRoles job.now }
        requires wallets { wallets.items ≡ new_wallets job.now.deal job.now.conforming job.now.seeds }
        requires fit { AllFit job.now }
        ensures { IfOk result (λ w. w ≡ new_world job.now) }
    {
        let players = new_players(alloc, job, wallets)?;
        Ok(World {
            conforming: Listed::new(Vec::from_slice(alloc, job.conforming.as_slice())?),
            seeds: job.seeds.copy()?,
            roles: job.roles.copy()?,
            ledgers: make_ledgers(alloc, &job.deal)?,
            actors: with_journals(alloc, &job.deal, players)?,
            deal: copy_deal(&job.deal)?,
            askers: GhostList::new(),
            told: GhostList::new(),
            answers: GhostList::new(),
            stopped: false,
        })
    }

    /// The world of a job with these wallets, or the first conforming party whose seed isn't the
    /// deal's. For programs of others.
    pub fn new(alloc: Global, job: &Job, wallets: Vec<Option<Wallet>>) -> Result<World, WorldFault>
        requires accepted { IsAccepted job.now.deal }
        requires seeds { ConformingHaveSeeds job.now }
        requires roles { HaveRoles job.now }
        requires wallets { wallets.items ≡ new_wallets job.now.deal job.now.conforming job.now.seeds }
        ensures new { IfOk result (λ w. w ≡ new_world job.now) }
        ensures fit { OnOk result (AllFit job.now) }
        ensures wrong { IfErr result (IsFirstWrongFault job.now) }
    {
        match wrong_wallet(job, &wallets) {
            Some(wrong) => Err(Fault::Refused(wrong)),
            None => Ok(World::fitting(alloc, job, wallets)?),
        }
    }

    /// Ticks a ledger by k heights.
    pub(crate) fn tick(&mut self, arc: ArcId, k: u32) -> Result<(), NoMemory>
        requires event { CanTick self.old.deal arc k }
        requires goes_on { self.old.stopped ≡ false }
        ensures ok { OnOk result (self.new ≡ record self.old { state = step (world_cast self.old) self.old.state (Event.Tick arc k) }) }
        ensures cut { OnErr result (IsCutAt (step (world_cast self.old) self.old.state (Event.Tick arc k)) self.old self.new) }
    {
        let ledger = &mut self.ledgers[arc as usize];
        let done = turn::tick(ledger, k);
        self.stopped = done.is_err();
        done
    }

    fn look(&mut self, p: PartyId, arc: ArcId) -> Result<(), NoMemory>
        requires event { CanLook self.old.deal p arc }
        requires goes_on { self.old.stopped ≡ false }
        ensures ok { OnOk result (self.new ≡ record self.old { state = step (world_cast self.old) self.old.state (Event.Look p arc) }) }
        ensures err { OnErr result (self.new ≡ self.old) }
    {
        self.actors[p as usize].learn(&self.ledgers[arc as usize])
    }

    /// Whether a party conforms.
    pub fn conforms(&self, p: PartyId) -> bool
        requires { p < self.now.deal.graph.n }
        ensures { result ≡ conforms (world_cast self.now) p }
    {
        self.conforming.as_slice()[p as usize]
    }

    /// Lets a party act that neither conforms nor follows a strategy: one that follows a script
    /// makes its next call.
    fn follow(&mut self, p: PartyId, swept: &[bool]) -> Result<Told, NoMemory>
        requires party { p < self.old.deal.graph.n }
        requires deviates { conforms (world_cast self.old) p ≡ false }
        requires alone { asks (world_cast self.old) p ≡ false }
        requires goes_on { self.old.stopped ≡ false }
        ensures ok { OnOk result (self.new
            ≡ record self.old { state = apply_step (is_slot_swept swept.now) (world_cast self.old) self.old.state (Event.Act p) }) }
        ensures told { IfOk result (λ r. r ≡ event_told (is_slot_swept swept.now) (world_cast self.old) self.old.state (Event.Act p)) }
        ensures cut { OnErr result (IsCutAt (apply_step (is_slot_swept swept.now) (world_cast self.old) self.old.state (Event.Act p)) self.old self.new) }
    {
        let Player::Planned(planner) = &mut self.actors[p as usize] else {
            return Ok(Told::Nothing);
        };
        let done = turn::follow(
            planner,
            &mut self.ledgers,
            &self.deal,
            self.seeds.as_slice(),
            p,
            swept,
        );
        self.stopped = done.is_err();
        done
    }

    /// Lets a party act that asks no strategy: one that conforms makes the first call that is due.
    fn act_alone(&mut self, p: PartyId, swept: &[bool]) -> Result<Told, NoMemory>
        requires party { p < self.old.deal.graph.n }
        requires alone { asks (world_cast self.old) p ≡ false }
        requires goes_on { self.old.stopped ≡ false }
        ensures ok { OnOk result (self.new
            ≡ record self.old { state = apply_step (is_slot_swept swept.now) (world_cast self.old) self.old.state (Event.Act p) }) }
        ensures told { IfOk result (λ r. r ≡ event_told (is_slot_swept swept.now) (world_cast self.old) self.old.state (Event.Act p)) }
        ensures cut { OnErr result (IsCutAt (apply_step (is_slot_swept swept.now) (world_cast self.old) self.old.state (Event.Act p)) self.old self.new) }
    {
        let Player::Conforming(machine, journal) = &mut self.actors[p as usize] else {
            return self.follow(p, swept);
        };
        let done = turn::act(machine, journal, &mut self.ledgers, swept);
        self.stopped = done.is_err();
        done
    }

    /// Lets a conforming party act on ledgers without swept slots. It answers whether the party may
    /// have more to do; after `false` the act changed nothing.
    pub(crate) fn act_if_due(&mut self, p: PartyId) -> Result<bool, NoMemory>
        requires party { p < self.old.deal.graph.n }
        requires conforms { conforms (world_cast self.old) p ≡ true }
        requires goes_on { self.old.stopped ≡ false }
        ensures ok { OnOk result (self.new ≡ record self.old { state = step (world_cast self.old) self.old.state (Event.Act p) }) }
        ensures idle { IfOk result (λ made. made ≡ false → step (world_cast self.old) self.old.state (Event.Act p) ≡ self.old.state) }
        ensures cut { OnErr result (IsCutAt (step (world_cast self.old) self.old.state (Event.Act p)) self.old self.new) }
    {
        match self.act_alone(p, &[]) {
            Ok(Told::Nothing) => Ok(false),
            Ok(_) => Ok(true),
            Err(NoMemory) => Err(NoMemory),
        }
    }

    /// Lets a party act. One that follows a strategy asks it, and makes the call that is answered.
    fn act<A: Strategies>(
        &mut self,
        strategies: &A,
        p: PartyId,
        swept: &[bool],
    ) -> Result<Told, NoMemory>
        requires party { p < self.old.deal.graph.n }
        requires goes_on { self.old.stopped ≡ false }
        requires held { AreHeld (A.holds strategies.now) self.old.roles }
        ensures ok { OnOk result (HasGone (A.gives strategies.now) (λ c s. apply_step (is_slot_swept swept.now) c s (Event.Act p)) self.old self.new) }
        ensures told { IfOk result (λ r. (g : Answers) → Continues self.new g
            → r ≡ event_told (is_slot_swept swept.now) (answering_cast self.old g) self.old.state (Event.Act p)) }
        ensures cut { OnErr result (IsCutWithSweeps (A.gives strategies.now) (is_slot_swept swept.now) (Event.Act p) self.old self.new) }
    {
        let Role::Strategy(name) = &self.roles.as_slice()[p as usize] else {
            return self.act_alone(p, swept);
        };
        let Player::Planned(planner) = &mut self.actors[p as usize] else {
            return self.act_alone(p, swept);
        };
        let askers = self.askers.and(&p);
        let told = self.told.and(planner);
        let answer = planner.ask(strategies, name, &self.deal, p)?;
        self.askers = askers;
        self.told = told;
        self.answers = self.answers.and(&answer);
        let done = turn::take(planner, &mut self.ledgers, &self.deal, p, answer, swept);
        self.stopped = done.is_err();
        done
    }

    /// Makes the call of a move, whose sender follows neither a script nor a strategy.
    fn make_plain(&mut self, sender: PartyId, mv: &Move, swept: &[bool]) -> Result<Told, NoMemory>
        requires event { CanCall self.old.deal self.old.conforming self.old.seeds sender mv.now }
        requires plain { is_planned (party_role (world_cast self.old) sender) ≡ false }
        requires goes_on { self.old.stopped ≡ false }
        ensures ok { OnOk result (self.new
            ≡ record self.old { state = apply_step (is_slot_swept swept.now) (world_cast self.old) self.old.state (Event.Call sender mv.now) }) }
        ensures told { IfOk result (λ r. r ≡ event_told (is_slot_swept swept.now) (world_cast self.old) self.old.state (Event.Call sender mv.now)) }
        ensures cut { OnErr result (IsCutAt (apply_step (is_slot_swept swept.now) (world_cast self.old) self.old.state (Event.Call sender mv.now)) self.old self.new) }
    {
        let made = PartyMove { sender, mv };
        let done = turn::make(
            &mut self.ledgers,
            &self.deal,
            self.seeds.as_slice(),
            &made,
            swept,
        );
        self.stopped = done.is_err();
        done
    }

    fn make(&mut self, sender: PartyId, mv: &Move, swept: &[bool]) -> Result<Told, NoMemory>
        requires event { CanCall self.old.deal self.old.conforming self.old.seeds sender mv.now }
        requires goes_on { self.old.stopped ≡ false }
        ensures ok { OnOk result (self.new
            ≡ record self.old { state = apply_step (is_slot_swept swept.now) (world_cast self.old) self.old.state (Event.Call sender mv.now) }) }
        ensures told { IfOk result (λ r. r ≡ event_told (is_slot_swept swept.now) (world_cast self.old) self.old.state (Event.Call sender mv.now)) }
        ensures cut { OnErr result (IsCutAt (apply_step (is_slot_swept swept.now) (world_cast self.old) self.old.state (Event.Call sender mv.now)) self.old self.new) }
    {
        let Player::Planned(planner) = &mut self.actors[sender as usize] else {
            return self.make_plain(sender, mv, swept);
        };
        let made = PartyMove { sender, mv };
        let done = turn::make_by_hand(
            planner,
            &mut self.ledgers,
            &self.deal,
            self.seeds.as_slice(),
            &made,
            swept,
        );
        self.stopped = done.is_err();
        done
    }

    /// Lets a conforming party crash within its act and restart.
    fn crash(&mut self, p: PartyId, k: u8, image: u8) -> Result<(), NoMemory>
        requires event { CanCrash self.old.deal self.old.conforming p k }
        requires goes_on { self.old.stopped ≡ false }
        ensures ok { OnOk result (self.new ≡ record self.old { state = step (world_cast self.old) self.old.state (Event.Crash p k image) }) }
        ensures cut { OnErr result (IsCutAt (step (world_cast self.old) self.old.state (Event.Crash p k image)) self.old self.new) }
    {
        let Player::Conforming(machine, journal) = &mut self.actors[p as usize] else {
            return Ok(());
        };
        let done = journals::crash(machine, journal, &self.deal, &self.ledgers, k, image);
        self.stopped = done.is_err();
        done
    }

    /// Takes an event. After want of memory the caller stops the world.
    fn happen<A: Strategies>(
        &mut self,
        strategies: &A,
        event: &Event,
        swept: &[bool],
    ) -> Result<Told, NoMemory>
        requires event { CanStep self.old.deal self.old.conforming self.old.seeds event.now }
        requires goes_on { self.old.stopped ≡ false }
        requires held { AreHeld (A.holds strategies.now) self.old.roles }
        ensures ok { OnOk result (HasGone (A.gives strategies.now) (λ c s. apply_step (is_slot_swept swept.now) c s event.now) self.old self.new) }
        ensures told { IfOk result (λ r. (g : Answers) → Continues self.new g
            → r ≡ event_told (is_slot_swept swept.now) (answering_cast self.old g) self.old.state event.now) }
        ensures cut { OnErr result (IsCutWithSweeps (A.gives strategies.now) (is_slot_swept swept.now) event.now self.old self.new) }
    {
        match event {
            Event::Tick(arc, k) => {
                self.tick(*arc, *k)?;
                Ok(Told::Nothing)
            }
            Event::Look(p, arc) => {
                self.look(*p, *arc)?;
                Ok(Told::Nothing)
            }
            Event::Act(p) => self.act(strategies, *p, swept),
            Event::Call(sender, mv) => self.make(*sender, mv, swept),
            Event::Crash(p, k, image) => {
                self.crash(*p, *k, *image)?;
                Ok(Told::Nothing)
            }
        }
    }

    /// Where this world takes its memory.
    pub(crate) fn allocator(&self) -> Global {
        *self.ledgers.allocator()
    }

    /// At most `most` rounds in which nobody makes a call. Their ticks alone, and one more round,
    /// lead to the same state as the rounds.
    pub(crate) fn quiet_rounds(&self, near: &[Listed<ArcId>], most: u64) -> u64
        requires near { near.now ≡ all_adjacent self.now.deal }
        requires goes_on { self.now.stopped ≡ false }
        requires low { is_above_horizon self.now.deal self.now.state.book ≡ false }
        ensures few { result ≤ most }
        ensures skips { (g : Answers) → IsSkipped (answering_cast self.now g) result self.now.state }
    {
        let low = quiet::horizon_rounds(&self.ledgers, fair::deal_horizon(&self.deal), most);
        self.rest_rounds(near, low)
    }

    /// At most `most` rounds in which nobody makes a call, where only ticks come between them.
    pub fn rest_rounds(&self, near: &[Listed<ArcId>], most: u64) -> u64
        requires near { near.now ≡ all_adjacent self.now.deal }
        requires goes_on { self.now.stopped ≡ false }
        ensures few { result ≤ most }
        ensures still { 0 < result → IsQuietState (world_cast self.now) result self.now.state }
    {
        quiet::rounds(&self.deal, &self.ledgers, &self.actors, near, most)
    }

    /// Memory ran out: every later step wants it too.
    pub(crate) fn stop(&mut self)
        ensures { self.new ≡ record self.old { stopped = true } }
    {
        self.stopped = true;
    }

    /// Takes one event, where some slots may be swept (an empty list: none is), and answers what
    /// its party is told of its call. After want of memory the histories are those before the event
    /// or after it, and every later step wants memory too.
    pub fn apply_step<A: Strategies>(
        &mut self,
        strategies: &A,
        event: &Event,
        swept: &[bool],
    ) -> Result<Told, NoMemory>
        requires event { CanStep self.old.deal self.old.conforming self.old.seeds event.now }
        requires held { AreHeld (A.holds strategies.now) self.old.roles }
        ensures ok { OnOk result (HasGone (A.gives strategies.now) (λ c s. apply_step (is_slot_swept swept.now) c s event.now) self.old self.new) }
        ensures told { IfOk result (λ r. (g : Answers) → Continues self.new g
            → r ≡ event_told (is_slot_swept swept.now) (answering_cast self.old g) self.old.state event.now) }
        ensures err { OnErr result (self.new.stopped ≡ true) }
        ensures cut { OnErr result (IsCutWithSweeps (A.gives strategies.now) (is_slot_swept swept.now) event.now self.old self.new) }
        ensures stopped { IsTrue self.old.stopped → IsErr result × (self.new.state.book ≡ self.old.state.book) }
        // Whatever the others do, and whether memory ran out or not, every conforming party has
        // kept its conduct.
        ensures kept { IsKept (world_cast self.new) self.new.state.book }
    {
        if self.stopped {
            return Err(NoMemory);
        }
        match self.happen(strategies, event, swept) {
            Ok(told) => Ok(told),
            Err(NoMemory) => {
                self.stopped = true;
                Err(NoMemory)
            }
        }
    }

    /// Takes one event, where `strategies` answers for each party that follows a strategy. After
    /// want of memory the histories are those before the event or after it, and every later step
    /// wants memory too.
    pub fn step<A: Strategies>(&mut self, strategies: &A, event: &Event) -> Result<(), NoMemory>
        requires event { CanStep self.old.deal self.old.conforming self.old.seeds event.now }
        requires held { AreHeld (A.holds strategies.now) self.old.roles }
        ensures ok { OnOk result (HasGone (A.gives strategies.now) (λ c s. step c s event.now) self.old self.new) }
        ensures err { OnErr result (self.new.stopped ≡ true) }
        ensures cut { OnErr result (IsCutInEvent (A.gives strategies.now) event.now self.old self.new) }
        ensures stopped { IsTrue self.old.stopped → IsErr result × (self.new.state.book ≡ self.old.state.book) }
        // Whatever the others do, and whether memory ran out or not, every conforming party has
        // kept its conduct.
        ensures kept { IsKept (world_cast self.new) self.new.state.book }
    {
        match self.apply_step(strategies, event, &[]) {
            Ok(_) => Ok(()),
            Err(NoMemory) => Err(NoMemory),
        }
    }

    /// Takes events in their order. After want of memory every later step wants memory too. For
    /// programs of others: this repository's programs take one event at a time.
    pub fn run<A: Strategies>(&mut self, strategies: &A, events: &[Event]) -> Result<(), NoMemory>
        requires events { All (CanStep self.old.deal self.old.conforming self.old.seeds) events.now }
        requires held { AreHeld (A.holds strategies.now) self.old.roles }
        ensures ok { OnOk result (HasGone (A.gives strategies.now) (λ c s. continued_run c s events.now) self.old self.new) }
        ensures err { OnErr result (IsStopped (A.gives strategies.now) (λ c s. events.now) self.old self.new) }
        ensures prefix { OnErr result (IsAfterSome events.now self.old self.new) }
        ensures stopped { IsTrue self.old.stopped → IsErr result × (self.new.state.book ≡ self.old.state.book) }
        ensures kept { IsKept (world_cast self.new) self.new.state.book }
    {
        if self.stopped {
            return Err(NoMemory);
        }
        many::run(self, strategies, events)
    }

    /// The fair finish: rounds until each ledger is above the horizon. In a round the parties have
    /// their turns in order. In its turn a party looks at each arc that touches it. Then it acts: a
    /// conforming party until nothing is due, another one once. At the end of the round each ledger
    /// that isn't above the horizon ticks by one height. After want of memory every later step
    /// wants memory too.
    pub fn finish_fair<A: Strategies>(&mut self, strategies: &A) -> Result<(), NoMemory>
        requires held { AreHeld (A.holds strategies.now) self.old.roles }
        ensures ok { OnOk result (HasGone (A.gives strategies.now) finish self.old self.new) }
        ensures ended { OnOk result (IsEnded self.old.deal self.new.state.book) }
        // Where every party conforms and nothing came before, everything moves.
        ensures dealt { OnOk result (AllWorldPartiesConform self.old → self.old.state ≡ start (world_cast self.old)
            → IsDealt self.old.deal (conforms (world_cast self.old)) self.new.state.book) }
        ensures err { OnErr result (IsStopped (A.gives strategies.now) finish_steps self.old self.new) }
        ensures stopped { IsTrue self.old.stopped → IsErr result × (self.new.state.book ≡ self.old.state.book) }
        ensures kept { IsKept (world_cast self.new) self.new.state.book }
    {
        if self.stopped {
            return Err(NoMemory);
        }
        fair::finish(self, strategies)
    }

    /// The deal.
    pub fn deal(&self) -> &Deal
        ensures value { result.now ≡ self.now.deal }
        ensures sized { IsWellSized result.now }
        ensures ready { IsReadyCast (world_cast self.now) }
    {
        &self.deal
    }

    /// The height of an arc's ledger.
    pub fn height(&self, arc: ArcId) -> u32
        requires { arc < length self.now.deal.graph.arcs }
        ensures { result ≡ height (history self.now.state.book arc) }
    {
        self.ledgers[arc as usize].height()
    }

    /// Ticks the ledgers of these arcs, which stand on one chain, by k heights. It makes all ticks.
    /// The world is stopped if there is no memory for a further entry after them.
    pub fn tick_ledgers(&mut self, on: &[ArcId], k: u32)
        requires some { 1 ≤ k }
        requires below { k ≤ 1000000 }
        requires arcs { All (λ a. a < length self.old.deal.graph.arcs) on.now }
        requires ascending { IsStrictlyIncreasing on.now }
        requires goes_on { self.old.stopped ≡ false }
        ensures ticked { self.new.state ≡ tick_arcs on.now k (world_cast self.old) self.old.state }
        ensures same { self.new ≡ record self.old { state = self.new.state; stopped = self.new.stopped } }
        // Every conforming party has kept its conduct.
        ensures kept { IsKept (world_cast self.new) self.new.state.book }
    {
        let ready = chain_tick::tick_all(&mut self.ledgers, &self.deal, on, k);
        self.stopped = !ready;
    }

    /// Whether memory ran out in an earlier step.
    pub fn is_stopped(&self) -> bool
        ensures { result ≡ self.now.stopped }
    {
        self.stopped
    }

    /// The disk of a conforming party, also after want of memory.
    pub fn disk(&self, p: PartyId) -> &MemoryDisk
        requires party { p < self.now.deal.graph.n }
        requires conforms { conforms (world_cast self.now) p ≡ true }

        // What a read gives is among what a crash may leave.
        ensures read { Leaves result.now.held (visible_bytes result.now.held) }

        // Each crash leaves the hashkey of each unlock call that the party made, on any arc,
        // recorded for its lock.
        ensures calls { (a : ℕ) (past : List Entry) (e : Entry) (key : Hashkey) → IsMoment (history self.now.state.book a) past e
            → pick_call p e ≡ Some (Unlock key) → (c : List ℕ) → Leaves result.now.held c → recorded c key.lock ≡ Some key }

        // It leaves no hashkey recorded that the party didn't sign.
        ensures only { (i : ℕ) (key : Hashkey) → i < length self.now.deal.leaders → (c : List ℕ) → Leaves result.now.held c
            → recorded c i ≡ Some key → signed_hashkey (state_notes self.now.state p).signed i ≡ Some key }

        // Unless memory ran out, it leaves just the hashkeys recorded that the party signed.
        ensures durable { self.now.stopped ≡ false → (i : ℕ) → i < length self.now.deal.leaders → (c : List ℕ) → Leaves result.now.held c
            → recorded c i ≡ signed_hashkey (state_notes self.now.state p).signed i }
    {
        let Player::Conforming(_, journal) = &self.actors[p as usize] else {
            unreachable!();
        };
        journal.memory()
    }

    /// Unless memory ran out, the disk of each conforming party has recorded each hashkey that the
    /// party presented, and just those that it signed. This takes no time.
    pub fn recorded(&self)
        ensures { self.now.stopped ≡ false → AreRecorded (world_cast self.now) self.now.state }
    {
        if self.stopped {
            return;
        }
    }

    /// Both balances and the held amount of an arc, in units.
    pub fn accounts(&self, arc: ArcId) -> Accounts
        requires { arc < length self.now.deal.graph.arcs }
        ensures { result ≡ accounts self.now.deal arc (history self.now.state.book arc) }
    {
        self.ledgers[arc as usize].accounts()
    }

    /// Whether a publish was accepted on an arc.
    pub fn is_published(&self, arc: ArcId) -> bool
        requires { arc < length self.now.deal.graph.arcs }
        ensures { result ≡ is_some (published (history self.now.state.book arc)) }
    {
        self.ledgers[arc as usize].is_published()
    }

    /// Whether what was published on an arc is neither claimed nor refunded.
    pub fn is_unsettled(&self, arc: ArcId) -> bool
        requires { arc < length self.now.deal.graph.arcs }
        ensures { result ≡ (is_some (published (history self.now.state.book arc)) && is_none (settled (history self.now.state.book arc))) }
    {
        self.ledgers[arc as usize].is_unsettled()
    }

    /// The ledgers, without taking memory.
    fn into_ledgers(self) -> Vec<Ledger>
        ensures value { map (λ l. l.history) result.items ≡ self.state.book }
        ensures legal { IsLegalBook self.deal self.state.book }
        ensures kept { IsKept (world_cast self) self.state.book }
    {
        let World { ledgers, .. } = self;
        ledgers
    }

    /// A copy of the book of the histories so far, also after want of memory.
    pub fn copy_book(&self, alloc: Global) -> Result<Book, NoMemory>
        ensures value { IfOk result (λ b. b.histories ≡ self.now.state.book) }
        ensures legal { IsLegalBook self.now.deal self.now.state.book }
        // Whatever the others do, every conforming party keeps its conduct.
        ensures kept { IsKept (world_cast self.now) self.now.state.book }
    {
        Ok(Book {
            histories: ledger_copies(alloc, &self.ledgers)?,
        })
    }

    /// The book of the histories so far, also after want of memory.
    pub fn into_book(self, alloc: Global) -> Result<Book, NoMemory>
        ensures value { IfOk result (λ b. b.histories ≡ self.state.book) }
        ensures legal { IsLegalBook self.deal self.state.book }
        // Whatever the others do, every conforming party keeps its conduct.
        ensures kept { IsKept (world_cast self) self.state.book }
    {
        let ledgers = self.into_ledgers();
        Ok(Book {
            histories: ledger_histories(alloc, ledgers)?,
        })
    }
}
