//! What a party knows and plans that follows a script or a strategy.

ghost use Rattle.std.specs.Prelude.{◌≡◌, ◌<◌, ◌+◌, ◌++◌, true, length, IfOk, OnOk, OnErr};
ghost use Rattle.ledger_core.specs.Book.{history};
ghost use Rattle.swap_run.specs.Script.{next_call, moves_left};
ghost use Rattle.swap_run.specs.View.{IsView, MayAnswer};
ghost use Rattle.swap_run.specs.Run.{no_histories, plan_with_ledger};
ghost use Rattle.swap_run.specs.Shown.{IsShown};

use crate::kit::Strategies;
use crate::script::Script;
use ledger_core::{Book, Call, EntryList};
use std::alloc::Global;
use std::marker::Model;
use std::mem;
use swap_base::{ArcId, ByteText, Digest, Listed, NoMemory, PartyId};
use swap_digraph::Deal;
use swap_job::MoveList;

/// What a party knows of each ledger, the moves that are left of its script, and how often it
/// acted.
#[derive(Drop)]
pub struct Planner {
    known: Book,
    script: Script,
    turns: u32,
}

impl Model for Planner {
    ghost use Rattle.swap_run.specs.Run.{Plan};

    ghost Value = { Plan };

    ghost view = { λ p. record { known = p.known.histories; moves = p.script; turns = p.turns } };
}

/// Empty histories, one per arc.
fn nothing_known(alloc: Global, deal: &Deal) -> Result<Book, NoMemory>
    ensures { IfOk result (λ b. b.histories ≡ no_histories deal.now) }
{
    let mut histories = Vec::new(alloc);
    'arcs: for _arc in 0..deal.graph.arcs().len() {
        histories.push(EntryList::empty(alloc))?;
    }
    Ok(Book {
        histories: Listed::new(histories),
    })
}

impl Planner {
    /// A party that has seen nothing, with its script at its first move.
    pub fn new(alloc: Global, deal: &Deal, moves: MoveList) -> Result<Planner, NoMemory>
        ensures { IfOk result (λ p. p ≡ record { known = no_histories deal.now; moves = moves; turns = 0 }) }
    {
        Ok(Planner {
            known: nothing_known(alloc, deal)?,
            script: Script::new(moves),
            turns: 0,
        })
    }

    /// Adds entries to what the party knows of a ledger, by taking them over. Want of memory leaves
    /// everything as it was.
    pub fn learn(&mut self, arc: ArcId, fresh: EntryList) -> Result<(), NoMemory>
        requires { arc < length self.old.known }
        ensures ok { OnOk result (self.new ≡ plan_with_ledger self.old arc (history self.old.known arc ++ fresh)) }
        ensures err { OnErr result (self.new ≡ self.old) }
    {
        let alloc = self.known.histories.allocator();
        let mut histories = mem::replace(
            &mut self.known.histories,
            Listed::empty(alloc),
        ).into_vec();
        let added = histories[arc as usize].append(fresh);
        self.known.histories = Listed::new(histories);
        added
    }

    /// How many entries the party knows of a ledger.
    pub fn count(&self, arc: ArcId) -> usize
        requires { arc < length self.now.known }
        ensures { result ≡ length (history self.now.known arc) }
    {
        self.known.histories.as_slice()[arc as usize].len()
    }

    /// The next call of the party's script, if any. The turn is counted; after want of memory
    /// everything is as it was.
    pub fn follow(
        &mut self,
        deal: &Deal,
        me: PartyId,
        seeds: &[Option<Digest>],
    ) -> Result<Option<(ArcId, Call)>, NoMemory>
        requires shown { IsShown deal.now seeds.now me self.old }
        ensures exact { IfOk result (λ o. o ≡ next_call deal.now seeds.now self.old.known self.old.moves) }
        ensures turned { OnOk result (self.new ≡ record self.old { moves = moves_left self.old.known self.old.moves; turns = self.old.turns + 1 }) }
        ensures fits { IfOk result (MayAnswer deal.now me) }
        ensures err { OnErr result (self.new ≡ self.old) }
    {
        if self.turns == u32::MAX {
            return Err(NoMemory);
        }
        let call = self.script.next(deal, me, self.turns, &self.known, seeds)?;
        self.turns += 1;
        Ok(call)
    }

    /// The call that the party's strategy answers, if any. The turn is counted; after want of
    /// memory everything is as it was.
    pub fn ask<A: Strategies>(
        &mut self,
        strategies: &A,
        name: &ByteText,
        deal: &Deal,
        me: PartyId,
    ) -> Result<Option<(ArcId, Call)>, NoMemory>
        requires holds { A.holds strategies.now name.now ≡ true }
        requires view { IsView deal.now me self.old.known }
        ensures gives { IfOk result (A.gives strategies.now name.now deal.now me self.old.turns self.old.known) }
        ensures turned { OnOk result (self.new ≡ record self.old { turns = self.old.turns + 1 }) }
        ensures fits { IfOk result (MayAnswer deal.now me) }
        ensures err { OnErr result (self.new ≡ self.old) }
    {
        if self.turns == u32::MAX {
            return Err(NoMemory);
        }
        let call = strategies.answer(name, deal, me, self.turns, &self.known)?;
        self.turns += 1;
        Ok(call)
    }
}
