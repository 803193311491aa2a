//! At which height a call lands, and publishes that may land.

ghost use Rattle.std.specs.Prelude.{◌≡◌, ◌<◌, ◌^◌, ◌&&◌, ◌++◌, IfOk, OnOk, length, not};
ghost use Rattle.std.specs.List.{flat_map};
ghost use Rattle.swap_digraph.specs.Graph.{is_listed as is_listed_arc, leaving};
ghost use Rattle.swap_digraph.specs.Deal.{IsWellSized};
ghost use Rattle.escrow_core.specs.Terms.{stated_terms};
ghost use Rattle.ledger_core.specs.declared.entry.Call.TheVariants.{Publish};
ghost use Rattle.history_index.specs.Indexes.{all_entries};
ghost use Rattle.swap_rules.specs.Due.{when_due};
ghost use Rattle.useful_calls.specs.Actions.{actions};
ghost use Rattle.useful_calls.specs.Landing.{heights_told, landing_height, may_land};

use crate::due_call::{DueCall, put_when};
use due_calls::{arc_height, has_published};
use escrow_core::stated_terms;
use history_index::Index;
use ledger_core::Call;
use std::alloc::Global;
use swap_base::{ArcId, NoMemory, PartyId, Shared};
use swap_digraph::{Deal, is_listed};
use told_ledgers::ToldLedger;

/// Heights that needn't be told.
fn heights_told(told: Option<u32>) -> u64
    ensures exact { result ≡ heights_told told }
    ensures small { result < 2 ^ 32 }
{
    match told {
        Some(heights) => heights as u64,
        None => 0,
    }
}

/// The height at which a call that is presented now on the arc lands at most.
pub(crate) fn landing_height(known: &[Index], told: &[ToldLedger], arc: ArcId) -> u64
    ensures { result ≡ landing_height (all_entries known.now) told.now arc }
{
    let height = arc_height(known, arc) as u64;
    match told.get(arc as usize) {
        Some(ledger) => height.max(heights_told(ledger.tip)) + heights_told(ledger.margin),
        None => height,
    }
}

/// Whether a publish was sent on the arc, and none of the party is told there.
fn may_land(known: &[Index], me: PartyId, sent: &[ArcId], arc: ArcId) -> bool
    ensures { result ≡ may_land sent.now me (all_entries known.now) arc }
{
    is_listed(arc, sent) && !has_published(me, known, arc)
}

/// Adds the publish on the arc, where the test holds.
fn put_landing(
    alloc: Global,
    deal: &Deal,
    test: bool,
    arc: ArcId,
    calls: &mut Vec<DueCall>,
) -> Result<(), NoMemory>
    requires sized { IsWellSized deal.now }
    requires arc { arc < length deal.now.graph.arcs }
    ensures { OnOk result (actions calls.new.items ≡ actions calls.old.items ++ when_due test arc (Publish (stated_terms deal.now arc))) }
{
    if test {
        let terms = Shared::new(alloc, stated_terms(deal, arc))?;
        put_when(calls, true, arc, Call::Publish(terms))?;
    }
    Ok(())
}

/// The publishes that may land, by leaving arc.
pub fn landing_publishes(
    alloc: Global,
    deal: &Deal,
    known: &[Index],
    me: PartyId,
    sent: &[ArcId],
) -> Result<Vec<DueCall>, NoMemory>
    requires sized { IsWellSized deal.now }
    requires me { me < deal.now.graph.n }
    ensures { IfOk result (λ v. actions v.items
        ≡ flat_map (λ a. when_due (may_land sent.now me (all_entries known.now) a) a (Publish (stated_terms deal.now a))) (leaving deal.now.graph me)) }
{
    let mut calls = Vec::new(alloc);
    'arcs: for arc in deal.graph.leaving(me) {
        let test = may_land(known, me, sent, *arc);
        put_landing(alloc, deal, test, *arc, &mut calls)?;
    }
    Ok(calls)
}
