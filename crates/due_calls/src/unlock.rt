//! The unlock that is due.

ghost use Rattle.std.specs.Prelude.{◌≡◌, ◌<◌, [], None, IfSome, is_some, map, length};
ghost use Rattle.swap_base.specs.Lists.{first_given_answer};
ghost use Rattle.swap_digraph.specs.Deal.{locks, IsWellSized};
ghost use Rattle.swap_rules.specs.Party.{opens_without_party};
ghost use Rattle.swap_rules.specs.Due.{due_unlocks, has_called, unlocks_lock, Wallet};
ghost use Rattle.ledger_core.specs.Book.{history};
ghost use Rattle.ledger_core.specs.History.{opened};
ghost use Rattle.due_calls.specs.DealTerms.{AreDealTerms};
ghost use Rattle.due_calls.specs.DueUnlock.{due_base, first_closed, next_due_unlock};
ghost use Rattle.due_calls.specs.Unlocks.{first_seen_arc, IsFirstUnlock, IsSeenBase};
ghost use Rattle.party_wallet.specs.Value.{signed_hashkey};

use crate::locks::leads;
use crate::readings::is_ready;
use crate::unlock_due::{Base, UnlockDue};
use ledger_core::{CallKind, Facts};
use party_wallet::Signed;
use swap_base::{ArcId, LockId, PartyId};
use swap_digraph::{Deal, is_listed};

/// Whether a path without the party opened the lock on the arc.
fn is_seen<F: Facts>(deal: &Deal, me: PartyId, known: &[F], lock: LockId, arc: ArcId) -> bool
    requires sized { IsWellSized deal.now }
    requires known { AreDealTerms F.terms deal.now known.now }
    requires lock { lock < length deal.now.leaders }
    ensures { result ≡ opens_without_party me (opened (history (map F.entries known.now) arc) lock) }
{
    match known.get(arc as usize) {
        Some(fact) => match fact.opened_key(lock) {
            Some(key) => !is_listed(me, key.path.as_slice()),
            None => false,
        },
        None => false,
    }
}

/// The first leaving arc on which a path without the party opened the lock.
fn first_seen_arc<F: Facts>(deal: &Deal, me: PartyId, known: &[F], lock: LockId) -> Option<ArcId>
    requires sized { IsWellSized deal.now }
    requires me { me < deal.now.graph.n }
    requires known { AreDealTerms F.terms deal.now known.now }
    requires lock { lock < length deal.now.leaders }
    ensures { result ≡ first_seen_arc deal.now me (map F.entries known.now) lock }
{
    let leaving = deal.graph.leaving(me);
    leaving
        .iter()
        .copied()
        .find(|arc| is_seen(deal, me, known, lock, *arc))
}

/// Where the hashkey for the lock comes from, if there is one.
#[tactic(auto, unfolding(crate::specs::DueUnlock::due_base))]
pub fn due_base<F: Facts>(
    deal: &Deal,
    me: PartyId,
    known: &[F],
    signed: &Signed,
    lock: LockId,
) -> Option<Base>
    requires sized { IsWellSized deal.now }
    requires me { me < deal.now.graph.n }
    requires known { AreDealTerms F.terms deal.now known.now }
    requires lock { lock < length deal.now.leaders }
    requires signed { length signed.now.keys ≡ length deal.now.leaders }
    ensures { result ≡ due_base deal.now me (signed_hashkey signed.now.keys lock) (map F.entries known.now) lock }
{
    if signed.keys.as_slice()[lock as usize].is_some() {
        Some(Base::Signed)
    } else if leads(deal, me, lock) {
        Some(Base::Own)
    } else {
        match first_seen_arc(deal, me, known, lock) {
            Some(arc) => Some(Base::Onto(arc)),
            None => None,
        }
    }
}

/// Whether the party made an unlock for the lock on the arc, whatever the reply.
fn has_called<F: Facts>(me: PartyId, known: &[F], lock: LockId, arc: ArcId) -> bool
    ensures { result ≡ has_called me (unlocks_lock lock) (history (map F.entries known.now) arc) }
{
    match known.get(arc as usize) {
        Some(fact) => fact.called(me, CallKind::Unlock(lock)),
        None => false,
    }
}

/// The first entering arc on which the party made no unlock for the lock.
fn first_closed<F: Facts>(deal: &Deal, me: PartyId, known: &[F], lock: LockId) -> Option<ArcId>
    requires me { me < deal.now.graph.n }
    ensures { result ≡ first_closed deal.now me (map F.entries known.now) lock }
{
    let entering = deal.graph.entering(me);
    entering
        .iter()
        .copied()
        .find(|arc| !has_called(me, known, lock, *arc))
}

/// The unlock for the lock that is due where the party is ready.
#[tactic(auto, unfolding(crate::specs::DueUnlock::next_due_unlock))]
fn next_due_unlock<F: Facts>(
    deal: &Deal,
    me: PartyId,
    known: &[F],
    signed: &Signed,
    lock: LockId,
) -> Option<UnlockDue>
    requires sized { IsWellSized deal.now }
    requires me { me < deal.now.graph.n }
    requires known { AreDealTerms F.terms deal.now known.now }
    requires lock { lock < length deal.now.leaders }
    requires signed { length signed.now.keys ≡ length deal.now.leaders }
    ensures { result ≡ next_due_unlock deal.now me (signed_hashkey signed.now.keys) (map F.entries known.now) lock }
{
    match first_closed(deal, me, known, lock) {
        Some(arc) => match due_base(deal, me, known, signed, lock) {
            Some(base) => Some(UnlockDue { arc, lock, base }),
            None => None,
        },
        None => None,
    }
}

/// The first of the locks' unlocks that are due where the party is ready.
fn first_unlock<F: Facts>(
    deal: &Deal,
    me: PartyId,
    known: &[F],
    signed: &Signed,
) -> Option<UnlockDue>
    requires sized { IsWellSized deal.now }
    requires me { me < deal.now.graph.n }
    requires known { AreDealTerms F.terms deal.now known.now }
    requires signed { length signed.now.keys ≡ length deal.now.leaders }
    ensures { result ≡ first_given_answer (next_due_unlock deal.now me (signed_hashkey signed.now.keys) (map F.entries known.now)) (locks deal.now) }
{
    for lock in 0..deal.leaders.len() as u8 {
        let found = next_due_unlock(deal, me, known, signed, lock);
        if found.is_some() {
            return found;
        }
    }
    None
}

/// The first unlock that the party is to make, by lock and entering arc. It takes no memory.
pub fn due_unlock<F: Facts>(
    deal: &Deal,
    me: PartyId,
    known: &[F],
    signed: &Signed,
) -> Option<UnlockDue>
    requires sized { IsWellSized deal.now }
    requires me { me < deal.now.graph.n }
    requires known { AreDealTerms F.terms deal.now known.now }
    requires signed { length signed.now.keys ≡ length deal.now.leaders }
    ensures some { IfSome result (λ u. (w : Wallet) → IsFirstUnlock deal.now me (signed_hashkey signed.now.keys) (map F.entries known.now) u w) }
    ensures none { result ≡ None → (w : Wallet) → due_unlocks deal.now me w (signed_hashkey signed.now.keys) (map F.entries known.now) ≡ [] }
    ensures base { IfSome result (λ u. IsSeenBase deal.now me (map F.entries known.now) u.lock u.base) }
    ensures arc { IfSome result (λ u. u.arc < length deal.now.graph.arcs) }
    ensures lock { IfSome result (λ u. u.lock < length deal.now.leaders) }
{
    if !is_ready(deal, me, known) {
        return None;
    }
    first_unlock(deal, me, known, signed)
}
