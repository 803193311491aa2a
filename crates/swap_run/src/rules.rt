//! The rules of the program's strategies.

ghost use Rattle.std.specs.Prelude.{◌≡◌, ◌<◌, IfOk, Ok, None, [], length};
ghost use Rattle.swap_digraph.specs.Deal.{IsWellSized};
ghost use Rattle.escrow_core.specs.Terms.{stated_terms};
ghost use Rattle.swap_run.specs.Rules.{item_in_turn, silent, greedy, replayer, spoiler, spoiled_terms};
ghost use Rattle.swap_run.specs.View.{IsView, MayAnswer};

use crate::replayed::{key_in_turn, keys_known};
use escrow_core::{Terms, stated_terms};
use ledger_core::{Book, Call};
use std::alloc::Global;
use swap_base::{ArcId, NoMemory, PartyId, Shared};
use swap_digraph::Deal;

/// Arc number `turn`, counted round and round.
fn item_in_turn(arcs: &[ArcId], turn: u32) -> Option<ArcId>
    ensures { result ≡ item_in_turn arcs.now turn }
{
    if arcs.is_empty() {
        return None;
    }
    Some(arcs[turn as usize % arcs.len()])
}

/// `silent`: never a call.
pub fn silent_rule(
    _deal: &Deal,
    _me: PartyId,
    _turn: u32,
    _known: &Book,
) -> Result<Option<(ArcId, Call)>, NoMemory>
    requires view { IsView _deal.now _me _known.now.histories }
    ensures exact { result ≡ Ok (silent _deal.now _me _turn _known.now.histories) }
    ensures fits { IfOk result (MayAnswer _deal.now _me) }
{
    Ok(None)
}

/// A claim on entering arc number `turn`.
fn claim_in_turn(deal: &Deal, me: PartyId, turn: u32) -> Option<(ArcId, Call)>
    requires party { me < deal.now.graph.n }
    ensures { result ≡ greedy deal.now me turn [] }
{
    match item_in_turn(deal.graph.entering(me), turn) {
        Some(arc) => Some((arc, Call::Claim)),
        None => None,
    }
}

/// `greedy`: a claim on the entering arcs in turn.
pub fn greedy_rule(
    deal: &Deal,
    me: PartyId,
    turn: u32,
    known: &Book,
) -> Result<Option<(ArcId, Call)>, NoMemory>
    requires view { IsView deal.now me known.now.histories }
    ensures exact { result ≡ Ok (greedy deal.now me turn known.now.histories) }
    ensures fits { IfOk result (MayAnswer deal.now me) }
{
    Ok(claim_in_turn(deal, me, turn))
}

/// An unlock on entering arc number `turn` with known hashkey number `turn`.
fn unlock_in_turn(
    alloc: Global,
    deal: &Deal,
    me: PartyId,
    turn: u32,
    known: &Book,
) -> Result<Option<(ArcId, Call)>, NoMemory>
    requires party { me < deal.now.graph.n }
    ensures { IfOk result (λ o. o ≡ replayer deal.now me turn known.now.histories) }
{
    let keys = keys_known(alloc, known)?;
    let key = key_in_turn(&keys, turn)?;
    match (item_in_turn(deal.graph.entering(me), turn), key) {
        (Some(arc), Some(key)) => Ok(Some((arc, Call::Unlock(key)))),
        _ => Ok(None),
    }
}

/// `replayer`: the accepted unlocks that are known in turn, on the entering arcs in turn.
pub fn replayer_rule(
    alloc: Global,
    deal: &Deal,
    me: PartyId,
    turn: u32,
    known: &Book,
) -> Result<Option<(ArcId, Call)>, NoMemory>
    requires view { IsView deal.now me known.now.histories }
    ensures exact { IfOk result (λ o. o ≡ replayer deal.now me turn known.now.histories) }
    ensures fits { IfOk result (MayAnswer deal.now me) }
{
    unlock_in_turn(alloc, deal, me, turn, known)
}

/// The correct terms of an arc but for a bound of 0, which is never correct.
fn spoiled_terms(deal: &Deal, arc: ArcId) -> Terms
    requires sized { IsWellSized deal.now }
    requires arc { arc < length deal.now.graph.arcs }
    ensures { result ≡ spoiled_terms deal.now arc }
{
    Terms {
        bound: 0,
        ..stated_terms(deal, arc)
    }
}

/// A publish of spoiled terms on leaving arc number `turn`.
fn publish_in_turn(
    alloc: Global,
    deal: &Deal,
    me: PartyId,
    turn: u32,
) -> Result<Option<(ArcId, Call)>, NoMemory>
    requires sized { IsWellSized deal.now }
    requires party { me < deal.now.graph.n }
    ensures { IfOk result (λ o. o ≡ spoiler deal.now me turn []) }
{
    match item_in_turn(deal.graph.leaving(me), turn) {
        Some(arc) => {
            let terms = Shared::new(alloc, spoiled_terms(deal, arc))?;
            Ok(Some((arc, Call::Publish(terms))))
        }
        None => Ok(None),
    }
}

/// `spoiler`: a publish of wrong terms on the leaving arcs in turn.
pub fn spoiler_rule(
    alloc: Global,
    deal: &Deal,
    me: PartyId,
    turn: u32,
    _known: &Book,
) -> Result<Option<(ArcId, Call)>, NoMemory>
    requires view { IsView deal.now me _known.now.histories }
    ensures exact { IfOk result (λ o. o ≡ spoiler deal.now me turn _known.now.histories) }
    ensures fits { IfOk result (MayAnswer deal.now me) }
{
    publish_in_turn(alloc, deal, me, turn)
}
