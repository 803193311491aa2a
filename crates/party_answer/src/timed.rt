//! A call with its heights.

ghost use Rattle.std.specs.Prelude.{◌≡◌, ◌<◌, IfOk, length};
ghost use Rattle.swap_digraph.specs.Deal.{IsWellSized};
ghost use Rattle.history_index.specs.Indexes.{all_entries, AreIndexes};
ghost use Rattle.conduct_check.specs.Sent.{party_unlocks, shown};
ghost use Rattle.useful_calls.specs.Actions.{due_call_action};
ghost use Rattle.answer_rules.specs.Heights.{IsShort};
ghost use Rattle.party_answer.specs.Lines.{last_helpful, timed};

use answer_rules::{last_accepted, last_on_time};
use hashkey_path::Hashkey;
use history_index::Index;
use ledger_core::Call;
use swap_base::{ArcId, NoMemory, PartyId, TryCopy};
use swap_digraph::Deal;
use time_bounds::opening_deadline;
use useful_calls::DueCall;

/// A call that is useful on an arc.
#[derive(Debug, Drop)]
pub struct Timed {
    pub arc: ArcId,
    pub call: Call,
    /// The last height at which it is on time.
    pub last: u64,
    /// The last height at which a publish opens in time, or at which the contract accepts the
    /// hashkey of an unlock.
    pub until: Option<u64>,
}

/// The last height at which the call helps.
fn last_helpful(deal: &Deal, arc: ArcId, call: &Call) -> Option<u64>
    requires sized { IsWellSized deal.now }
    requires arc { arc < length deal.now.graph.arcs }
    requires path { IsShort call.now }
    ensures { result ≡ last_helpful deal.now arc call.now }
{
    match call {
        Call::Publish(_) => Some(opening_deadline(deal.start, deal.delta, deal.bound)),
        _ => last_accepted(deal, arc, call),
    }
}

/// The call with its heights, where these are the hashkeys of the party's unlocks.
pub(crate) fn time_call(
    deal: &Deal,
    known: &[Index],
    me: PartyId,
    keys: &[&Hashkey],
    due: &DueCall,
) -> Result<Timed, NoMemory>
    requires sized { IsWellSized deal.now }
    requires known { AreIndexes deal.now known.now }
    requires me { me < deal.now.graph.n }
    requires keys { shown keys.now ≡ party_unlocks (all_entries known.now) me }
    requires arc { due.now.arc < length deal.now.graph.arcs }
    requires path { IsShort due.now.call }
    ensures { IfOk result (λ t. t ≡ timed deal.now (all_entries known.now) me (due_call_action due.now)) }
{
    let last = last_on_time(deal, known, me, keys, due.arc, &due.call);
    let until = last_helpful(deal, due.arc, &due.call);
    Ok(Timed {
        arc: due.arc,
        call: due.call.copy()?,
        last,
        until,
    })
}
