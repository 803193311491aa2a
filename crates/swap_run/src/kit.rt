//! Strategies by their names.

ghost use Rattle.std.specs.Prelude.{◌≡◌, ◌++◌, ◌∷◌, [], ℕ, Bool, true, false, List, Option, Some, Ok, length, is_some, option_copied, OnOk, OnErr};
ghost use Rattle.std.specs.Prelude.{IfOk};
ghost use Rattle.std.specs.List.{list_any};
ghost use Rattle.std.specs.Str.{bytes_eq};
ghost use Rattle.swap_digraph.specs.declared.deal.Deal.{Deal};
ghost use Rattle.ledger_core.specs.declared.entry.Call.{Call};
ghost use Rattle.ledger_core.specs.Book.{Histories};
ghost use Rattle.swap_job.specs.Names.{named_item};
ghost use Rattle.swap_run.specs.View.{IsView, MayAnswer};

use crate::strategy::{Rule, Strategy};
use ledger_core::{Book, Call};
use std::alloc::Global;
use swap_base::{ArcId, ByteText, Listed, NoMemory, PartyId, TryCopy};
use swap_digraph::Deal;

/// Who answers for strategies by their names.
pub trait Strategies {
    /// Whether there is a strategy of that name.
    ghost holds: { Self → List ℕ → Bool };

    /// What the strategy of that name may answer, by deal, party, turn number and what the party
    /// knows.
    ghost gives: { Self → List ℕ → Deal → ℕ → ℕ → Histories → Option (ℕ × Call) → Type 0 };

    /// The names under which there is a strategy.
    fn names(&self) -> Result<Listed<ByteText>, NoMemory>
        ensures { IfOk result (λ names. (name : List ℕ) → list_any (bytes_eq name) names ≡ holds self.now name) };

    fn answer(
        &self,
        name: &ByteText,
        deal: &Deal,
        me: PartyId,
        turn: u32,
        known: &Book,
    ) -> Result<Option<(ArcId, Call)>, NoMemory>
        requires holds { holds self.now name.now ≡ true }
        requires view { IsView deal.now me known.now.histories }
        ensures gives { IfOk result (gives self.now name.now deal.now me turn known.now.histories) }
        ensures fits { IfOk result (MayAnswer deal.now me) };
}

/// Strategies, each under a name.
#[derive(Drop)]
pub struct Kit {
    names: Listed<ByteText>,
    strategies: Vec<Strategy>,
    ghost paired: { length names ≡ length strategies.items },
}

impl Kit {
    /// A kit without strategies.
    pub fn new(alloc: Global) -> Kit
        ensures names { result.names ≡ [] }
        ensures strategies { result.strategies.items ≡ [] }
    {
        Kit {
            names: Listed::empty(alloc),
            strategies: Vec::new(alloc),
        }
    }

    /// Adds a strategy under a name that isn't there.
    pub fn add(&mut self, name: ByteText, strategy: Strategy) -> Result<(), NoMemory>
        requires new { is_some (named_item name self.old.names self.old.strategies.items) ≡ false }
        ensures names { OnOk result (self.new.names ≡ self.old.names ++ name ∷ []) }
        ensures strategies { OnOk result (self.new.strategies.items ≡ self.old.strategies.items ++ strategy ∷ []) }
        ensures err_names { OnErr result (self.new.names ≡ self.old.names) }
        ensures err_strategies { OnErr result (self.new.strategies.items ≡ self.old.strategies.items) }
    {
        self.strategies.reserve(1)?;
        self.names.push(name)?;
        let _ = self.strategies.push(strategy);
        Ok(())
    }

    /// The strategy of that name.
    pub fn get(&self, name: &ByteText) -> Option<&Strategy>
        ensures { option_copied result ≡ named_item name.now self.now.names self.now.strategies.items }
    {
        for at in 0..self.strategies.len() {
            if self.names.as_slice()[at] == *name {
                return Some(&self.strategies[at]);
            }
        }
        None
    }
}

impl Strategies for Kit {
    ghost holds = { λ kit name. is_some (named_item name kit.names kit.strategies.items) };

    ghost gives = { λ kit name d p t k o. (s : _) × (dr : _) × (kr : _) × (named_item name kit.names kit.strategies.items ≡ Some s) × (dr.now ≡ d)
        × (kr.now.histories ≡ k) × Rule.post s.rule dr p t kr (Ok o) };

    fn names(&self) -> Result<Listed<ByteText>, NoMemory> {
        self.names.copy()
    }

    fn answer(
        &self,
        name: &ByteText,
        deal: &Deal,
        me: PartyId,
        turn: u32,
        known: &Book,
    ) -> Result<Option<(ArcId, Call)>, NoMemory> {
        let Some(strategy) = self.get(name) else {
            unreachable!();
        };
        let call = strategy.next(deal, me, turn, known)?;
        Ok(call)
    }
}
