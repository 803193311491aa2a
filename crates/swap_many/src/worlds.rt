//! The worlds of several swaps, and the chains on which they stand.

ghost use Rattle.std.specs.Prelude.{◌≡◌, ◌<◌, ◌≤◌, ◌&&◌, ℕ, is_none, is_some, IfOk, IsErr, OnOk, OnErr, Ok, length, max, false, true};
ghost use Rattle.swap_run.specs.Asked.{Answers};
ghost use Rattle.ledger_core.specs.Book.{history};
ghost use Rattle.ledger_core.specs.History.{accounts, held, published, settled};
ghost use Rattle.swap_base.specs.Fault.{Gives};
ghost use Rattle.swap_digraph.specs.Deal.{IsWellSized};
ghost use Rattle.swap_run.specs.Fair.{the_horizon};
ghost use Rattle.swap_run.specs.Run.{conforms};
ghost use Rattle.swap_world.specs.Value.{world_cast};
ghost use Rattle.swap_many.specs.Accounts.{account_units};
ghost use Rattle.swap_many.specs.Fair.{SkipsKeptRounds, have_ended};
ghost use Rattle.swap_many.specs.Inside.{AreWhole};
ghost use Rattle.swap_many.specs.Many.{last_horizon};
ghost use Rattle.swap_many.specs.Chains.{arc_chain, place};
ghost use Rattle.swap_many.specs.Kept.{answer_payment, answer_sweep, answer_tick, kept_done, kept_reply};
ghost use Rattle.swap_many.specs.Laws.{CanCome, CanHappen, CanPay, CanSweep, CanTickChain};
ghost use Rattle.swap_many.specs.TouchingArcs.{AreAdjacentArcs};
ghost use Rattle.swap_many.specs.Opening.{AreOpenable, opened_swaps};
ghost use Rattle.swap_many.specs.ChainReplies.{told_result};
ghost use Rattle.swap_many.specs.Value.{AreAllHeld, ContinueAll, HasManyGone, IsManyStopped, nth_chain, many_kept, made_setup, world_setup, nth_world};

use crate::chain_accounts::Chain;
use crate::flags::Flags;
use crate::many_event::ManyEvent;
use crate::many_reply::ManyReply;
use crate::opening::{build_told, none_swept, open_chains, standing};
use crate::overdrawn::ManyFault;
use crate::place::Place;
use crate::quiet::{horizon_rounds, rounds_still};
use crate::ticking::{has_stopped, tick_worlds};
use crate::touching_arcs::arcs_by_swap;
use escrow_core::Reply;
use ledger_core::{Accounts, Book};
use std::alloc::Global;
use std::marker::Model;
use swap_base::{ArcId, GhostList, Listed, NoMemory, PartyId};
use swap_digraph::Deal;
use swap_job::Event;
use swap_run::Strategies;
use swap_world::{Told, World};
use time_bounds::horizon;

/// The worlds of several swaps, and the chains on which they stand.
#[derive(Drop)]
pub(crate) struct Worlds {
    worlds: Vec<World>,
    places: Listed<Listed<Place>>,
    /// The opening units of each account, for clauses alone.
    openings: GhostList<Listed<u64>>,
    chains: Vec<Chain>,
    swept: Vec<Flags>,
    /// The arcs that stand on each chain, by chain and swap.
    on: Listed<Listed<Listed<ArcId>>>,
    stopped: bool,
}

impl Model for Worlds {
    ghost use Rattle.swap_many.specs.Value.{ManyState};

    ghost Value = { ManyState };

    ghost use Rattle.swap_many.specs.Inside.{inside_worlds, WorldsHold};

    ghost view = { inside_worlds };

    ghost invariant = { WorldsHold };
}

/// What a chain replies where a world is told that of a call.
fn make_reply(told: Result<Told, NoMemory>) -> Result<Option<ManyReply>, NoMemory>
    ensures { result ≡ told_result told }
{
    match told {
        Ok(Told::Nothing) => Ok(None),
        Ok(Told::Passed) => Ok(Some(ManyReply::Swept)),
        Ok(Told::Replied(reply)) => Ok(Some(ManyReply::Plain(reply))),
        Err(NoMemory) => Err(NoMemory),
    }
}

/// The reply, unless memory ran out.
fn unless(stopped: bool, reply: ManyReply) -> Result<ManyReply, NoMemory>
    ensures ok { stopped ≡ false → result ≡ Ok reply }
    ensures err { stopped ≡ true → IsErr result }
{
    if stopped {
        return Err(NoMemory);
    }
    Ok(reply)
}

fn greater(a: u64, b: u64) -> u64
    ensures { result ≡ max a b }
{
    if a < b {
        return b;
    }
    a
}

impl Worlds {
    /// The worlds before any event, or the first account that lacks units.
    pub(crate) fn new(
        alloc: Global,
        chains: &[Listed<u64>],
        worlds: Vec<World>,
        places: Listed<Listed<Place>>,
    ) -> Result<Worlds, ManyFault>
        requires { AreOpenable chains.now worlds.items places }
        ensures { Gives (λ w. w) result (opened_swaps chains.now worlds.items places) }
    {
        let opened = match open_chains(alloc, &worlds, places.as_slice(), chains) {
            Ok(opened) => opened,
            Err(fault) => return Err(fault),
        };
        let swept = none_swept(alloc, &worlds)?;
        let on = standing(alloc, &worlds, places.as_slice(), chains.len() as u8)?;
        Ok(Worlds {
            openings: build_told(chains),
            chains: opened,
            swept,
            on,
            worlds,
            places,
            stopped: false,
        })
    }

    /// Takes an event of a swap, which is no tick.
    pub(crate) fn happen<A: Strategies>(
        &mut self,
        strategies: &A,
        swap: u8,
        event: &Event,
    ) -> Result<Option<ManyReply>, NoMemory>
        requires event { CanHappen (world_setup self.old) swap event.now }
        requires held { AreAllHeld (A.holds strategies.now) self.old }
        requires goes_on { self.old.stopped ≡ false }
        ensures ok { OnOk result (HasManyGone (A.gives strategies.now) (λ m z. kept_done false m z (ManyEvent.In swap event.now)) self.old self.new) }
        ensures reply { IfOk result (λ r. (g : ℕ → Answers) → ContinueAll self.new g
            → r ≡ kept_reply false (made_setup self.old g) (many_kept self.old) (ManyEvent.In swap event.now)) }
        ensures err { OnErr result (IsManyStopped (A.gives strategies.now) (λ m z. kept_done false m z (ManyEvent.In swap event.now)) self.old self.new) }
    {
        let place = swap as usize;
        let told = self.worlds[place].apply_step(strategies, event, self.swept[place].as_slice());
        self.stopped = told.is_err();
        make_reply(told)
    }

    /// Pays units from one free account of a chain to another.
    pub(crate) fn pay<A: Strategies>(
        &mut self,
        _strategies: &A,
        chain: u8,
        from: u8,
        to: u8,
        units: u64,
    ) -> ManyReply
        requires event { CanPay (world_setup self.old) chain from to }
        requires goes_on { self.old.stopped ≡ false }
        ensures gone { HasManyGone (A.gives _strategies.now) (λ m z. kept_done false m z (ManyEvent.Pay chain from to units)) self.old self.new }
        ensures reply { result ≡ answer_payment (many_kept self.old) chain from units }
    {
        self.chains[chain as usize].pay(from, to, units)
    }
    /// Ticks a chain by k heights, and with it each ledger that stands on it, unless its clock is
    /// full.
    pub(crate) fn tick<A: Strategies>(
        &mut self,
        _strategies: &A,
        chain: u8,
        k: u32,
    ) -> Result<ManyReply, NoMemory>
        requires event { CanTickChain (world_setup self.old) chain k }
        requires goes_on { self.old.stopped ≡ false }
        ensures ok { OnOk result (HasManyGone (A.gives _strategies.now) (λ m z. kept_done false m z (ManyEvent.Tick chain k)) self.old self.new) }
        ensures reply { IfOk result (λ r. r ≡ answer_tick (many_kept self.old) chain k) }
        ensures err { OnErr result (IsManyStopped (A.gives _strategies.now) (λ m z. kept_done false m z (ManyEvent.Tick chain k)) self.old self.new) }
    {
        let reply = self.chains[chain as usize].tick(k);
        if !reply.is_accepted() {
            return Ok(reply);
        }
        tick_worlds(
            &mut self.worlds,
            self.on.as_slice()[chain as usize].as_slice(),
            k,
        );
        self.stopped = has_stopped(&self.worlds);
        unless(self.stopped, reply)
    }

    /// Where an arc stands.
    fn place(&self, swap: u8, arc: ArcId) -> Place
        requires { CanSweep (world_setup self.now) swap arc }
        ensures { result ≡ place (world_setup self.now) swap arc }
    {
        self.places.as_slice()[swap as usize].as_slice()[arc as usize]
    }

    /// The height above which a swap has ended.
    fn horizon(&self, swap: u8) -> u64
        requires { swap < length self.now.worlds }
        ensures value { result ≡ the_horizon (nth_world self.now swap).deal }
        ensures few { result ≤ 14000 }
    {
        let deal = self.worlds[swap as usize].deal();
        horizon(deal.start, deal.delta, deal.bound)
    }

    /// The height of the chain of an arc.
    fn arc_chain_height(&self, swap: u8, arc: ArcId) -> u32
        requires { CanSweep (world_setup self.now) swap arc }
        ensures { result ≡ ((many_kept self.now).clocks (arc_chain (world_setup self.now) swap arc)).height }
    {
        let place = self.place(swap, arc);
        self.chains[place.chain as usize].height()
    }

    /// Whether the slot of an arc is swept.
    fn is_swept(&self, swap: u8, arc: ArcId) -> bool
        requires { CanSweep (world_setup self.now) swap arc }
        ensures { result ≡ (many_kept self.now).swept swap arc }
    {
        self.swept[swap as usize].as_slice()[arc as usize]
    }

    /// Whether a publish was accepted on an arc that isn't settled.
    fn is_unsettled(&self, swap: u8, arc: ArcId) -> bool
        requires { CanSweep (world_setup self.now) swap arc }
        ensures { result ≡ (is_some (published (history ((many_kept self.now).swaps swap).book arc))
            && is_none (settled (history ((many_kept self.now).swaps swap).book arc))) }
    {
        self.worlds[swap as usize].is_unsettled(arc)
    }

    /// Whether a publish was accepted on an arc.
    fn is_published(&self, swap: u8, arc: ArcId) -> bool
        requires { CanSweep (world_setup self.now) swap arc }
        ensures { result ≡ is_some (published (history ((many_kept self.now).swaps swap).book arc)) }
    {
        self.worlds[swap as usize].is_published(arc)
    }

    /// The units of an arc.
    fn accounts(&self, swap: u8, arc: ArcId) -> Accounts
        requires { CanSweep (world_setup self.now) swap arc }
        ensures value { result ≡ accounts ((world_setup self.now).cast swap).deal arc (history ((many_kept self.now).swaps swap).book arc) }
        ensures held { result.held ≡ held (history ((many_kept self.now).swaps swap).book arc) }
    {
        self.worlds[swap as usize].accounts(arc)
    }

    /// The reply to a sweep of a slot, by the first row that applies.
    fn reply_to_sweep(&self, swap: u8, arc: ArcId, fair: bool) -> ManyReply
        requires { CanSweep (world_setup self.now) swap arc }
        ensures { result ≡ answer_sweep fair (world_setup self.now) (many_kept self.now) swap arc }
    {
        let horizon = self.horizon(swap);
        if self.arc_chain_height(swap, arc) as u64 <= horizon {
            return ManyReply::NotEnded(horizon + 1);
        }
        if self.is_swept(swap, arc) {
            return ManyReply::Swept;
        }
        if self.is_unsettled(swap, arc) {
            return ManyReply::StillHeld(self.accounts(swap, arc).held);
        }
        if !fair && !self.is_published(swap, arc) {
            return ManyReply::Unpublished;
        }
        ManyReply::Plain(Reply::Accepted)
    }

    /// Gives a slot's two balances back to the free accounts of its parties.
    fn put_back<A: Strategies>(&mut self, _strategies: &A, swap: u8, arc: ArcId, fair: bool)
        requires event { CanSweep (world_setup self.old) swap arc }
        requires goes_on { self.old.stopped ≡ false }
        requires accepted { answer_sweep fair (world_setup self.old) (many_kept self.old) swap arc ≡ ManyReply.Plain Reply.Accepted }
        ensures { HasManyGone (A.gives _strategies.now) (λ m z. kept_done fair m z (ManyEvent.Sweep swap arc)) self.old self.new }
    {
        let place = self.place(swap, arc);
        let left = self.accounts(swap, arc);
        let chain = &mut self.chains[place.chain as usize];
        chain.put_back(place.from, left.party);
        chain.put_back(place.to, left.counterparty);
        self.swept[swap as usize].set(arc);
    }

    /// Sweeps a slot, where no row of its table refuses that.
    pub(crate) fn sweep<A: Strategies>(
        &mut self,
        strategies: &A,
        swap: u8,
        arc: ArcId,
        fair: bool,
    ) -> ManyReply
        requires event { CanSweep (world_setup self.old) swap arc }
        requires goes_on { self.old.stopped ≡ false }
        ensures gone { HasManyGone (A.gives strategies.now) (λ m z. kept_done fair m z (ManyEvent.Sweep swap arc)) self.old self.new }
        ensures reply { result ≡ answer_sweep fair (world_setup self.old) (many_kept self.old) swap arc }
    {
        let reply = self.reply_to_sweep(swap, arc, fair);
        if reply.is_accepted() {
            self.put_back(strategies, swap, arc, fair);
        }
        reply
    }
    /// Takes an event, where memory never ran out.
    pub(crate) fn step<A: Strategies>(
        &mut self,
        strategies: &A,
        event: &ManyEvent,
    ) -> Result<Option<ManyReply>, NoMemory>
        requires event { CanCome (world_setup self.old) event.now }
        requires held { AreAllHeld (A.holds strategies.now) self.old }
        requires goes_on { self.old.stopped ≡ false }
        ensures ok { OnOk result (HasManyGone (A.gives strategies.now) (λ m z. kept_done false m z event.now) self.old self.new) }
        ensures reply { IfOk result (λ r. (g : ℕ → Answers) → ContinueAll self.new g
            → r ≡ kept_reply false (made_setup self.old g) (many_kept self.old) event.now) }
        ensures err { OnErr result (IsManyStopped (A.gives strategies.now) (λ m z. kept_done false m z event.now) self.old self.new) }
    {
        match event {
            ManyEvent::Tick(chain, k) => Ok(Some(self.tick(strategies, *chain, *k)?)),
            ManyEvent::In(swap, event) => self.happen(strategies, *swap, event),
            ManyEvent::Pay(chain, from, to, units) => {
                Ok(Some(self.pay(strategies, *chain, *from, *to, *units)))
            }
            ManyEvent::Sweep(swap, arc) => Ok(Some(self.sweep(strategies, *swap, *arc, false))),
        }
    }

    /// What the fields keep, which only clauses read.
    pub(crate) fn keep(&self)
        ensures { AreWhole self.now }
    {
        let _ = &self.worlds;
    }

    /// Whether memory ran out.
    pub(crate) fn is_stopped(&self) -> bool
        ensures { result ≡ self.now.stopped }
    {
        self.stopped
    }

    /// How many swaps there are.
    pub(crate) fn swaps(&self) -> u8
        ensures { result ≡ length self.now.worlds }
    {
        self.worlds.len() as u8
    }

    /// How many chains there are.
    pub(crate) fn chains(&self) -> u8
        ensures value { result ≡ length self.now.chains }
        ensures openings { result ≡ length self.now.openings }
    {
        self.chains.len() as u8
    }

    /// The deal of a swap.
    pub(crate) fn deal(&self, swap: u8) -> &Deal
        requires { swap < length self.now.worlds }
        ensures value { result.now ≡ (nth_world self.now swap).deal }
        ensures sized { IsWellSized result.now }
    {
        self.worlds[swap as usize].deal()
    }

    /// Whether a party of a swap conforms.
    pub(crate) fn conforms(&self, swap: u8, p: PartyId) -> bool
        requires swap { swap < length self.now.worlds }
        requires party { p < (nth_world self.now swap).deal.graph.n }
        ensures { result ≡ conforms (world_cast (nth_world self.now swap)) p }
    {
        self.worlds[swap as usize].conforms(p)
    }

    /// The height of a chain.
    pub(crate) fn height(&self, chain: u8) -> u32
        requires { chain < length self.now.chains }
        ensures { result ≡ (nth_chain self.now chain).clock.height }
    {
        self.chains[chain as usize].height()
    }

    /// The free units of an account of a chain.
    pub(crate) fn free(&self, chain: u8, account: u8) -> u64
        requires chain { chain < length self.now.chains }
        requires account { account < length (nth_chain self.now chain).free }
        ensures { result ≡ account_units (nth_chain self.now chain).free account }
    {
        self.chains[chain as usize].free(account)
    }

    /// The book of a swap.
    pub(crate) fn copy_book(&self, alloc: Global, swap: u8) -> Result<Book, NoMemory>
        requires { swap < length self.now.worlds }
        ensures { IfOk result (λ b. b.histories ≡ (nth_world self.now swap).state.book) }
    {
        self.worlds[swap as usize].copy_book(alloc)
    }

    /// The arcs that touch each party, by swap and party.
    pub(crate) fn adjacent_arcs(&self) -> Result<Vec<Listed<Listed<ArcId>>>, NoMemory>
        ensures { IfOk result (λ v. AreAdjacentArcs v.items self.now.worlds) }
    {
        arcs_by_swap(*self.worlds.allocator(), &self.worlds)
    }

    /// At most `most` rounds in which nobody of any swap makes a call, so that ticks alone lead to
    /// the same state once one more round follows.
    pub(crate) fn quiet_rounds(
        &self,
        near: &[Listed<Listed<ArcId>>],
        horizon: u64,
        most: u64,
    ) -> u64
        requires near { AreAdjacentArcs near.now self.now.worlds }
        requires goes_on { self.now.stopped ≡ false }
        requires horizon { horizon ≡ last_horizon (world_setup self.now) }
        requires low { have_ended (world_setup self.now) (many_kept self.now) ≡ false }
        ensures few { result ≤ most }
        ensures skips { (g : ℕ → Answers) → SkipsKeptRounds (made_setup self.now g) result (many_kept self.now) }
    {
        let low = horizon_rounds(&self.chains, horizon, most);
        rounds_still(&self.worlds, near, low)
    }

    /// Memory ran out: every later step wants it too.
    pub(crate) fn stop(&mut self)
        ensures { self.new ≡ record self.old { stopped = true } }
    {
        self.stopped = true;
    }

    /// The greatest horizon of a swap.
    pub(crate) fn last_horizon(&self) -> u64
        ensures value { result ≡ last_horizon (world_setup self.now) }
        ensures few { result ≤ 14000 }
    {
        let mut last = 0;
        'swaps: for swap in 0..self.swaps() {
            last = greater(last, self.horizon(swap));
        }
        last
    }
}
