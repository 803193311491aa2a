//! The heights of the calls that are answered.

ghost use Rattle.std.specs.Prelude.{◌≡◌, ◌<◌, IfOk, map};
ghost use Rattle.swap_digraph.specs.Deal.{IsWellSized};
ghost use Rattle.ledger_core.specs.Book.{IsLegalBook};
ghost use Rattle.history_index.specs.Indexes.{all_entries, AreIndexes};
ghost use Rattle.conduct_check.specs.Sent.{party_unlocks, shown};
ghost use Rattle.useful_calls.specs.Actions.{actions};
ghost use Rattle.party_answer.specs.Lines.{timed};
ghost use Rattle.party_answer.specs.Inside.{AreMeasured};

use crate::timed::{Timed, time_call};
use conduct_check::unlocks_on_own_arcs;
use hashkey_path::Hashkey;
use history_index::Index;
use std::alloc::Global;
use swap_base::{NoMemory, PartyId};
use swap_digraph::Deal;
use useful_calls::DueCall;

/// The calls with their heights, where these are the hashkeys of the party's unlocks.
fn all_timed(
    alloc: Global,
    deal: &Deal,
    known: &[Index],
    me: PartyId,
    keys: &[&Hashkey],
    calls: &[DueCall],
) -> Result<Vec<Timed>, NoMemory>
    requires sized { IsWellSized deal.now }
    requires known { AreIndexes deal.now known.now }
    requires me { me < deal.now.graph.n }
    requires keys { shown keys.now ≡ party_unlocks (all_entries known.now) me }
    requires measured { AreMeasured deal.now (actions calls.now) }
    ensures { IfOk result (λ v. v.items ≡ map (timed deal.now (all_entries known.now) me) (actions calls.now)) }
{
    let mut list = Vec::new(alloc);
    for due in calls {
        list.push(time_call(deal, known, me, keys, due)?)?;
    }
    Ok(list)
}

/// The calls with their heights.
pub(crate) fn with_heights(
    alloc: Global,
    deal: &Deal,
    known: &[Index],
    me: PartyId,
    calls: &[DueCall],
) -> Result<Vec<Timed>, NoMemory>
    requires sized { IsWellSized deal.now }
    requires known { AreIndexes deal.now known.now }
    requires legal { IsLegalBook deal.now (all_entries known.now) }
    requires me { me < deal.now.graph.n }
    requires measured { AreMeasured deal.now (actions calls.now) }
    ensures { IfOk result (λ v. v.items ≡ map (timed deal.now (all_entries known.now) me) (actions calls.now)) }
{
    let keys = unlocks_on_own_arcs(alloc, deal, known, me)?;
    all_timed(alloc, deal, known, me, &keys, calls)
}
