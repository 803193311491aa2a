//! The calls that are due and carry no hashkey.

ghost use Rattle.std.specs.Prelude.{◌≡◌, ◌<◌, ◌++◌, ℕ, Option, option_map, IfOk};
ghost use Rattle.hashkey_path.specs.declared.hashkey.Hashkey.{Hashkey};
ghost use Rattle.swap_digraph.specs.Deal.{IsWellSized};
ghost use Rattle.swap_rules.specs.Due.{due_publishes, due_claims, due_refunds, first};
ghost use Rattle.party_machine.specs.Machine.{due_action, noted_if_called};
ghost use Rattle.party_machine.specs.Within.{all_entries, AreIndexes};

use due_calls::{due_claim, due_publish, due_refund};
use escrow_core::stated_terms;
use history_index::Index;
use ledger_core::Call;
use std::alloc::Global;
use swap_base::{ArcId, NoMemory, PartyId, Shared};
use swap_digraph::Deal;

/// The first publish that is due.
pub(crate) fn due_first(
    alloc: Global,
    deal: &Deal,
    me: PartyId,
    known: &[Index],
) -> Result<Option<(ArcId, Call)>, NoMemory>
    requires sized { IsWellSized deal.now }
    requires me { me < deal.now.graph.n }
    requires known { AreIndexes deal.now known.now }
    ensures first { IfOk result (λ o. option_map due_action o ≡ first (due_publishes deal.now me (all_entries known.now))) }
    ensures no_key { IfOk result (λ o. (signed : ℕ → Option Hashkey) → noted_if_called signed o ≡ signed) }
{
    match due_publish(deal, me, known) {
        Some(arc) => {
            let terms = Shared::new(alloc, stated_terms(deal, arc))?;
            Ok(Some((arc, Call::Publish(terms))))
        }
        None => Ok(None),
    }
}

/// The first claim that is due, or else the first refund.
pub(crate) fn due_last(deal: &Deal, me: PartyId, known: &[Index]) -> Option<(ArcId, Call)>
    requires sized { IsWellSized deal.now }
    requires me { me < deal.now.graph.n }
    requires known { AreIndexes deal.now known.now }
    ensures first { option_map due_action result ≡ first (due_claims deal.now me (all_entries known.now) ++ due_refunds deal.now me (all_entries known.now)) }
    ensures no_key { (signed : ℕ → Option Hashkey) → noted_if_called signed result ≡ signed }
{
    match due_claim(deal, me, known) {
        Some(arc) => return Some((arc, Call::Claim)),
        None => {}
    }
    match due_refund(deal, me, known) {
        Some(arc) => Some((arc, Call::Refund)),
        None => None,
    }
}
