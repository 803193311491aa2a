//! Many swaps on shared chains.

ghost use Rattle.std.specs.Prelude.{◌≡◌, ◌<◌, ◌∷◌, ◌++◌, [], ℕ, false, IsTrue, IfOk, IsErr, OnOk, OnErr, length, slice_index_or};
ghost use Rattle.swap_base.specs.Fault.{Gives};
ghost use Rattle.swap_digraph.specs.Deal.{IsWellSized};
ghost use Rattle.swap_rules.specs.Outcome.{IsEnded};
ghost use Rattle.swap_run.specs.Asked.{Answers};
ghost use Rattle.swap_run.specs.Laws.{IsKept};
ghost use Rattle.swap_world.specs.Value.{world_cast};
ghost use Rattle.swap_many.specs.Accounts.{account_units};
ghost use Rattle.swap_many.specs.Kept.{kept_done, kept_finish};
ghost use Rattle.swap_many.specs.Laws.{CanCome, Follows};
ghost use Rattle.swap_many.specs.Many.{many_reply};
ghost use Rattle.swap_many.specs.Opening.{AreOpenable, opened_swaps};
ghost use Rattle.swap_many.specs.Stages.{Came, Finished};
ghost use Rattle.swap_many.specs.Along.{IsCutRun};
ghost use Rattle.swap_many.specs.Value.{AreAllHeld, ContinueAll, HasManyGone, IsManyStopped, AreUnitsPlaced, nth_chain, many_kept, world_run, made_setup, world_setup};
ghost use Rattle.swap_many.specs.Value.{nth_world};

use crate::fair;
use crate::many_event::ManyEvent;
use crate::many_reply::ManyReply;
use crate::overdrawn::ManyFault;
use crate::place::Place;
use crate::worlds::Worlds;
use ledger_core::Book;
use std::alloc::Global;
use std::marker::Model;
use swap_base::{GhostList, Listed, NoMemory};
use swap_digraph::Deal;
use swap_run::Strategies;
use swap_world::World;

/// Swaps whose arcs stand on shared chains with shared accounts.
#[derive(Drop)]
pub struct ManyWorld {
    worlds: Worlds,
    /// The events up to each fair finish, and those since the last one, for clauses alone.
    stretches: GhostList<GhostList<ManyEvent>>,
    events: GhostList<ManyEvent>,
}

impl Model for ManyWorld {
    ghost use Rattle.swap_many.specs.Value.{ManyState};

    ghost Value = { ManyState };

    ghost use Rattle.swap_many.specs.Whole.{inside_many_state, ManyWorldHolds};

    ghost view = { inside_many_state };

    ghost invariant = { ManyWorldHolds };
}

impl ManyWorld {
    /// Swaps before any event, or the first account of a chain that has fewer units than the arcs
    /// that it pays for. What each arc moves is set aside from its party's account.
    pub fn new(
        alloc: Global,
        chains: &[Listed<u64>],
        worlds: Vec<World>,
        places: Listed<Listed<Place>>,
    ) -> Result<ManyWorld, ManyFault>
        requires { AreOpenable chains.now worlds.items places }
        ensures { Gives (λ w. w) result (opened_swaps chains.now worlds.items places) }
    {
        match Worlds::new(alloc, chains, worlds, places) {
            Ok(worlds) => {
                worlds.keep();
                Ok(ManyWorld {
                    worlds,
                    stretches: GhostList::new(),
                    events: GhostList::new(),
                })
            }
            Err(fault) => Err(fault),
        }
    }

    /// Takes one event, where `strategies` answers for each party that follows a strategy. It
    /// answers with the reply of its tick, its call, its payment or its sweep, if it makes one.
    /// After want of memory the books are those before the event or after it, and every later step
    /// wants memory too.
    pub fn step<A: Strategies>(
        &mut self,
        strategies: &A,
        event: &ManyEvent,
    ) -> Result<Option<ManyReply>, NoMemory>
        requires event { CanCome (world_setup self.old) event.now }
        requires held { AreAllHeld (A.holds strategies.now) self.old }
        ensures ok { OnOk result (HasManyGone (A.gives strategies.now) (λ m z. kept_done false m z event.now) self.old self.new) }
        ensures stages { OnOk result (self.new.stages ≡ self.old.stages ++ Came event.now ∷ []) }
        // The reply, and all that is kept, are those of the run by the chains' histories.
        ensures reply { IfOk result (λ r. (g : ℕ → Answers) → ContinueAll self.new g
            → r ≡ many_reply (made_setup self.old g) (world_run self.old g) event.now) }
        ensures history { OnOk result ((g : ℕ → Answers) → ContinueAll self.new g
            → Follows (made_setup self.new g) (world_run self.new g) (many_kept self.new)) }
        // On every chain all units are in one place.
        ensures units { OnOk result ((g : ℕ → Answers) → ContinueAll self.new g → AreUnitsPlaced (made_setup self.new g) (world_run self.new g)) }
        // And so they are where memory ran out in this call.
        ensures cut { OnErr result (self.old.stopped ≡ false → (g : ℕ → Answers) → ContinueAll self.new g
            → IsCutRun (made_setup self.old g) (world_run self.old g) self.new) }
        ensures err { OnErr result (IsManyStopped (A.gives strategies.now) (λ m z. kept_done false m z event.now) self.old self.new) }
        ensures stopped { IsTrue self.old.stopped → IsErr result × (self.new ≡ self.old) }
        // Whatever the others do, and whether memory ran out or not, every swap's book is legal and
        // its conforming parties have kept their conduct.
        ensures kept { (s : ℕ) → s < length self.new.worlds → IsKept (world_cast (nth_world self.new s)) (nth_world self.new s).state.book }
    {
        if self.worlds.is_stopped() {
            return Err(NoMemory);
        }
        let events = self.events.and(event);
        self.events = events;
        let done = self.worlds.step(strategies, event);
        self.worlds.keep();
        done
    }
    /// The fair finish: rounds until every chain is above every horizon, and then a sweep of every
    /// slot. In a round the swaps have their turns, in order: each party in its order looks at each
    /// arc that touches it and acts, until nothing is due where it conforms, else once. Then each
    /// chain ticks by one height. After want of memory the books are those after some of its steps,
    /// and every later step wants memory too.
    pub fn finish_fair<A: Strategies>(&mut self, strategies: &A) -> Result<(), NoMemory>
        requires held { AreAllHeld (A.holds strategies.now) self.old }
        ensures ok { OnOk result (HasManyGone (A.gives strategies.now) kept_finish self.old self.new) }
        ensures stages { OnOk result (self.new.stages ≡ self.old.stages ++ Finished ∷ []) }
        ensures history { OnOk result ((g : ℕ → Answers) → ContinueAll self.new g
            → Follows (made_setup self.new g) (world_run self.new g) (many_kept self.new)) }
        ensures units { OnOk result ((g : ℕ → Answers) → ContinueAll self.new g → AreUnitsPlaced (made_setup self.new g) (world_run self.new g)) }
        // And so they are where memory ran out in this call.
        ensures cut { OnErr result (self.old.stopped ≡ false → (g : ℕ → Answers) → ContinueAll self.new g
            → IsCutRun (made_setup self.old g) (world_run self.old g) self.new) }
        ensures ended { OnOk result ((s : ℕ) → s < length self.new.worlds → IsEnded (nth_world self.new s).deal (nth_world self.new s).state.book) }
        ensures err { OnErr result (IsManyStopped (A.gives strategies.now) kept_finish self.old self.new) }
        ensures stopped { IsTrue self.old.stopped → IsErr result × (self.new ≡ self.old) }
        ensures kept { (s : ℕ) → s < length self.new.worlds → IsKept (world_cast (nth_world self.new s)) (nth_world self.new s).state.book }
    {
        if self.worlds.is_stopped() {
            return Err(NoMemory);
        }
        self.worlds.keep();
        let stretches = self.stretches.and(&self.events);
        self.stretches = stretches;
        self.events = GhostList::new();
        let done = fair::finish(&mut self.worlds, strategies);
        self.worlds.keep();
        done
    }

    /// The book of a swap so far, also where memory ran out on the way.
    pub fn copy_book(&self, alloc: Global, swap: u8) -> Result<Book, NoMemory>
        requires { swap < length self.now.worlds }
        ensures value { IfOk result (λ b. b.histories ≡ (nth_world self.now swap).state.book) }
        ensures kept { IsKept (world_cast (nth_world self.now swap)) (nth_world self.now swap).state.book }
    {
        self.worlds.copy_book(alloc, swap)
    }

    /// The free units of an account of a chain.
    pub fn free(&self, chain: u8, account: u8) -> u64
        requires chain { chain < length self.now.openings }
        requires account { account < length (slice_index_or self.now.openings chain []) }
        ensures { result ≡ account_units (nth_chain self.now chain).free account }
    {
        self.worlds.free(chain, account)
    }

    /// The height of a chain.
    pub fn height(&self, chain: u8) -> u32
        requires { chain < length self.now.openings }
        ensures { result ≡ (nth_chain self.now chain).clock.height }
    {
        self.worlds.height(chain)
    }

    /// How many swaps there are.
    pub fn swaps(&self) -> u8
        ensures { result ≡ length self.now.worlds }
    {
        self.worlds.swaps()
    }

    /// How many chains there are.
    pub fn chains(&self) -> u8
        ensures { result ≡ length self.now.openings }
    {
        self.worlds.chains()
    }

    /// The deal of a swap.
    pub fn deal(&self, swap: u8) -> &Deal
        requires { swap < length self.now.worlds }
        ensures value { result.now ≡ (nth_world self.now swap).deal }
        ensures sized { IsWellSized result.now }
    {
        self.worlds.deal(swap)
    }
}
