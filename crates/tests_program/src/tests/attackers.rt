//! What attackers answer that the program's strategies don't. A call is looked at before it is
//! answered, so that each may be made.

ghost use Rattle.std.specs.Prelude.{◌<◌, IfOk};
ghost use Rattle.swap_digraph.specs.Deal.{IsWellSized};
ghost use Rattle.swap_run.specs.View.{IsView, MayAnswer};

use escrow_core::{LockList, Terms, stated_terms};
use hashkey_path::Hashkey;
use ledger_core::{Book, Call, EntryList, fits, is_adjacent};
use std::alloc::Global;
use swap_base::{ArcId, LockId, NoMemory, PartyId, Shared, TryCopy};
use swap_digraph::Deal;
use swap_job::opened_key;

/// The turns after which every contract stands that will, in a race too.
const EARLY: u32 = 4;

/// The most locks of a deal.
const MOST_LOCKS: LockId = 8;

/// A party's next call, if any, with its arc.
pub(crate) type Answered = Result<Option<(ArcId, Call)>, NoMemory>;

/// Who attacks.
#[derive(Clone, Copy)]
pub(crate) enum Attacker {
    /// Publishes the correct terms on each leaving arc, and then does nothing more.
    Starter,
    /// Publishes on each leaving arc under a hashlock of its own.
    Relocker,
    /// On each leaving arc moves the units away, and then publishes.
    Mover,
    /// Claims, refunds and moves one unit away, in turn on each of its arcs.
    Taker,
    /// In its first turns publishes as the starter does, and then presents every known hashkey on
    /// each entering arc.
    Presenter,
}

/// The arc in that place among those that leave the party, with its correct terms.
fn leaving_arc_terms(deal: &Deal, me: PartyId, at: u32) -> Option<(ArcId, Terms)>
    requires sized { IsWellSized deal.now }
    requires party { me < deal.now.graph.n }
{
    let arc = *deal.graph.leaving(me).get(at as usize)?;
    if arc as usize >= deal.graph.arcs().len() {
        return None;
    }
    Some((arc, stated_terms(deal, arc)))
}

/// A publish of those terms.
fn publish(alloc: Global, leaving: Option<(ArcId, Terms)>) -> Answered {
    let Some((arc, terms)) = leaving else {
        return Ok(None);
    };
    Ok(Some((arc, Call::Publish(Shared::new(alloc, terms)?))))
}

/// The terms under their first hashlock alone, with one byte of it changed.
fn under_another_lock(terms: Terms) -> Terms {
    if terms.locks.len() == 0 {
        return terms;
    }
    let mut digest = terms.locks.get(0);
    digest[0] ^= 1;
    Terms {
        locks: LockList::from_slice(&[digest]),
        ..terms
    }
}

/// A publish of such terms.
fn publish_relocked(alloc: Global, leaving: Option<(ArcId, Terms)>) -> Answered {
    match leaving {
        Some((arc, terms)) => publish(alloc, Some((arc, under_another_lock(terms)))),
        None => Ok(None),
    }
}

/// The other party of an arc.
fn other_end(deal: &Deal, me: PartyId, arc: ArcId) -> PartyId {
    match deal.graph.arcs().get(arc as usize) {
        Some(ends) => { if ends.from == me { ends.to } else { ends.from } }
        None => me,
    }
}

/// Moves away the units of a leaving arc.
fn move_away(deal: &Deal, me: PartyId, at: u32) -> Option<(ArcId, Call)>
    requires sized { IsWellSized deal.now }
    requires party { me < deal.now.graph.n }
{
    let (arc, terms) = leaving_arc_terms(deal, me, at)?;
    Some((arc, Call::Transfer(other_end(deal, me, arc), terms.amount)))
}

/// The arc in that place, counted round and round, first of those that leave the party and then of
/// those that enter it.
fn arc_in_turn(deal: &Deal, me: PartyId, at: u32) -> Option<ArcId>
    requires party { me < deal.now.graph.n }
{
    let leaving = deal.graph.leaving(me);
    let entering = deal.graph.entering(me);
    if leaving.is_empty() || entering.is_empty() {
        return None;
    }
    let at = at as usize % (leaving.len() + entering.len());
    if at < leaving.len() {
        Some(leaving[at])
    } else {
        Some(entering[at - leaving.len()])
    }
}

/// A claim, a refund or a transfer.
fn take(deal: &Deal, me: PartyId, turn: u32) -> Option<(ArcId, Call)>
    requires party { me < deal.now.graph.n }
{
    let arc = arc_in_turn(deal, me, turn / 3)?;
    let call = match turn % 3 {
        0 => Call::Claim,
        1 => Call::Refund,
        _ => Call::Transfer(other_end(deal, me, arc), 1),
    };
    Some((arc, call))
}

/// Adds the hashkeys that opened a lock on one ledger.
fn add_opened<'k>(keys: &mut Vec<&'k Hashkey>, list: &'k EntryList) -> Result<(), NoMemory> {
    for lock in 0..MOST_LOCKS {
        if let Some(key) = opened_key(list, lock) {
            keys.push(key)?;
        }
    }
    Ok(())
}

/// Every hashkey that is known to have opened a lock, by arc and lock.
fn keys_known(alloc: Global, known: &Book) -> Result<Vec<&Hashkey>, NoMemory> {
    let mut keys = Vec::new(alloc);
    for list in known.histories.as_slice() {
        add_opened(&mut keys, list)?;
    }
    Ok(keys)
}

/// Of all pairs of an entering arc and a known hashkey presents the one in that place, counted
/// round and round.
fn present(alloc: Global, deal: &Deal, me: PartyId, at: usize, known: &Book) -> Answered
    requires party { me < deal.now.graph.n }
{
    let keys = keys_known(alloc, known)?;
    let entering = deal.graph.entering(me);
    if entering.is_empty() || keys.is_empty() {
        return Ok(None);
    }
    let arc = entering[at / keys.len() % entering.len()];
    let key = Shared::new(alloc, keys[at % keys.len()].copy()?)?;
    Ok(Some((arc, Call::Unlock(key))))
}

/// The call that the attacker has in mind.
fn intended(
    alloc: Global,
    attacker: Attacker,
    deal: &Deal,
    me: PartyId,
    turn: u32,
    known: &Book,
) -> Answered
    requires view { IsView deal.now me known.now.histories }
{
    match attacker {
        Attacker::Starter => publish(alloc, leaving_arc_terms(deal, me, turn)),
        Attacker::Relocker => publish_relocked(alloc, leaving_arc_terms(deal, me, turn)),
        Attacker::Mover if turn % 2 == 0 => Ok(move_away(deal, me, turn / 2)),
        Attacker::Mover => publish(alloc, leaving_arc_terms(deal, me, turn / 2)),
        Attacker::Taker => Ok(take(deal, me, turn)),
        Attacker::Presenter if turn < EARLY => publish(alloc, leaving_arc_terms(deal, me, turn)),
        Attacker::Presenter => present(alloc, deal, me, turn.saturating_sub(EARLY) as usize, known),
    }
}

/// The call, where the party may make it.
fn allowed(deal: &Deal, me: PartyId, arc: ArcId, call: Call) -> Option<(ArcId, Call)>
    ensures { MayAnswer deal.now me result }
{
    if arc as usize >= deal.graph.arcs().len() {
        return None;
    }
    if !is_adjacent(deal, arc, me) || !fits(deal, arc, &call) {
        return None;
    }
    Some((arc, call))
}

/// What the attacker answers.
pub(crate) fn attack_rule(
    alloc: Global,
    attacker: Attacker,
    deal: &Deal,
    me: PartyId,
    turn: u32,
    known: &Book,
) -> Answered
    requires view { IsView deal.now me known.now.histories }
    ensures fits { IfOk result (MayAnswer deal.now me) }
{
    match intended(alloc, attacker, deal, me, turn, known)? {
        Some((arc, call)) => Ok(allowed(deal, me, arc, call)),
        None => Ok(None),
    }
}
