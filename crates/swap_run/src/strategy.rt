//! A strategy: a rule that answers views.

ghost use Rattle.std.specs.Prelude.{◌≡◌, ℕ, IfOk};
ghost use Rattle.std.proofs.Props.{props};
ghost use Rattle.swap_run.specs.View.{IsView, MayAnswer};

use ledger_core::{Book, Call};
use swap_base::{ArcId, NoMemory, PartyId};
use swap_digraph::Deal;

/// The next call of a party, if any, by a deal, the party, its turn number from 0, and what it
/// knows.
pub type Rule = Box<
    dyn Fn(&Deal, PartyId, u32, &Book) -> Result<Option<(ArcId, Call)>, NoMemory> + Send + Sync,
>;

/// A rule that may be asked at every view. Its calls stand on an arc next to the party and fit the
/// deal.
#[derive(Drop)]
pub struct Strategy {
    rule: Rule,
    ghost callable: { (d : _) (p t : ℕ) (k : _) → IsView d.now p k.now.histories → Rule.pre rule d p t k },
    ghost fits: { (d : _) (p t : ℕ) (k : _) (r : _) → IsView d.now p k.now.histories → Rule.post rule d p t k r → IfOk r (MayAnswer d.now p) } by { Prim.hlevel props },
}

impl Strategy {
    /// A strategy by a rule.
    pub fn new(rule: Rule) -> Strategy
        requires callable { (d : _) (p t : ℕ) (k : _) → IsView d.now p k.now.histories → Rule.pre rule d p t k }
        requires fits { (d : _) (p t : ℕ) (k : _) (r : _) → IsView d.now p k.now.histories → Rule.post rule d p t k r → IfOk r (MayAnswer d.now p) }
        ensures { result.rule ≡ rule }
    {
        Strategy { rule }
    }

    fn ask(
        &self,
        deal: &Deal,
        me: PartyId,
        turn: u32,
        known: &Book,
    ) -> Result<Option<(ArcId, Call)>, NoMemory>
        requires view { IsView deal.now me known.now.histories }
        ensures { (d : _) × (k : _) × (d.now ≡ deal.now) × (k.now ≡ known.now) × Rule.post self.now.rule d me turn k result }
    {
        (self.rule)(deal, me, turn, known)
    }

    /// What the rule answers.
    pub fn next(
        &self,
        deal: &Deal,
        me: PartyId,
        turn: u32,
        known: &Book,
    ) -> Result<Option<(ArcId, Call)>, NoMemory>
        requires view { IsView deal.now me known.now.histories }
        ensures answer { (d : _) × (k : _) × (d.now ≡ deal.now) × (k.now ≡ known.now) × Rule.post self.now.rule d me turn k result }
        ensures fits { IfOk result (MayAnswer deal.now me) }
    {
        self.ask(deal, me, turn, known)
    }
}
