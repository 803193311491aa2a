//! Hashkeys that a party had better not present.

ghost use Rattle.std.specs.Prelude.{◌≡◌, ◌<◌, Some, is_none, is_some, length, option_copied};
ghost use Rattle.std.specs.List.{list_any, list_all};
ghost use Rattle.swap_digraph.specs.Graph.{entering};
ghost use Rattle.swap_digraph.specs.Deal.{locks, IsWellSized};
ghost use Rattle.escrow_core.specs.Terms.{last_unlock, stated_terms};
ghost use Rattle.ledger_core.specs.History.{settled};
ghost use Rattle.ledger_core.specs.Book.{history};
ghost use Rattle.history_index.specs.Indexes.{all_entries};
ghost use Rattle.swap_rules.specs.Party.{first_key};
ghost use Rattle.swap_rules.specs.Due.{has_called, unlocks_lock};
ghost use Rattle.swap_rules.specs.Useful.{accepts, has_lost, has_missed, is_missed, is_past, is_withheld, takes};
ghost use Rattle.useful_calls.specs.Asker.{asker_at, asker_key, known_entries, IsDealAsker};

use crate::asker::Asker;
use crate::landing::landing_height;
use crate::signer::kept_key;
use due_calls::{arc_height, is_open, is_triggered};
use hashkey_path::Hashkey;
use history_index::Index;
use ledger_core::{CallKind, Facts};
use swap_base::{ArcId, LockId, PartyId};
use swap_digraph::{Deal, Mode};

/// Whether the party made an unlock for the lock on the index's arc, whatever the reply.
pub(crate) fn has_unlocked_lock(me: PartyId, index: &Index, lock: LockId) -> bool
    ensures { result ≡ has_called me (unlocks_lock lock) index.now.entries }
{
    index.called(me, CallKind::Unlock(lock))
}

/// Whether the party made an unlock for the lock on any of these arcs, whatever the reply.
fn has_revealed(me: PartyId, known: &[Index], lock: LockId) -> bool
    ensures { result ≡ list_any (has_called me (unlocks_lock lock)) (all_entries known.now) }
{
    match known {
        [] => false,
        [index, rest @ ..] => has_unlocked_lock(me, index, lock) || has_revealed(me, rest, lock),
    }
}

/// Whether the party has presented no hashkey for the lock.
fn is_unrevealed(me: PartyId, known: &[Index], lock: LockId) -> bool
    ensures { result ≡ is_none (first_key (all_entries known.now) me lock) }
{
    !has_revealed(me, known, lock)
}

/// The last height at which the contract of the arc accepts the hashkey, by its correct terms.
fn last_height(deal: &Deal, arc: ArcId, key: &Hashkey) -> u128
    requires { IsWellSized deal.now }
    ensures { result ≡ last_unlock deal.now.mode (stated_terms deal.now arc) key.now }
{
    match deal.mode {
        Mode::Timelocks => match deal.timelocks.as_slice().get(arc as usize) {
            Some(last) => *last as u128,
            None => 0,
        },
        Mode::Hashkeys => {
            let arcs = key.path.len().saturating_sub(1) as u128;
            deal.start as u128 + (deal.bound as u128 + 1 + arcs) * deal.delta as u128
        }
    }
}

fn is_settled(known: &[Index], arc: ArcId) -> bool
    ensures { result ≡ is_some (settled (history (all_entries known.now) arc)) }
{
    match known.get(arc as usize) {
        Some(index) => index.settled().is_some(),
        None => false,
    }
}

/// Whether the contract of the arc would accept the hashkey: it isn't settled, and the call lands at
/// most at the last height of the hashkey.
fn accepts(asker: &Asker<'_>, key: &Hashkey, arc: ArcId) -> bool
    requires asker { IsDealAsker asker.now }
    ensures { result ≡ accepts asker.now.deal.now (asker_at asker.now) (known_entries asker.now) (Some key.now) arc }
{
    let lands = landing_height(asker.known, asker.told, arc) as u128;
    !is_settled(asker.known, arc) && lands <= last_height(asker.deal, arc, key)
}

/// Whether the lock of the arc is open, or would be opened by the hashkey.
pub(crate) fn takes(asker: &Asker<'_>, lock: LockId, key: &Hashkey, arc: ArcId) -> bool
    requires asker { IsDealAsker asker.now }
    requires lock { lock < length asker.now.deal.now.leaders }
    ensures { result ≡ takes asker.now.deal.now (asker_at asker.now) (known_entries asker.now) lock (Some key.now) arc }
{
    is_open(asker.deal, asker.known, arc, lock) || accepts(asker, key, arc)
}

/// Whether each arc that enters the party takes the hashkey.
fn is_taken(asker: &Asker<'_>, lock: LockId, key: &Hashkey) -> bool
    requires asker { IsDealAsker asker.now }
    requires lock { lock < length asker.now.deal.now.leaders }
    ensures { let p = asker.now in
        result ≡ list_all (takes p.deal.now (asker_at p) (known_entries p) lock (Some key.now)) (entering p.deal.now.graph p.me) }
{
    let entering = asker.deal.graph.entering(asker.me);
    entering.iter().all(|arc| takes(asker, lock, key, *arc))
}

/// Whether an arc that leaves the party is triggered.
fn has_lost(asker: &Asker<'_>) -> bool
    requires { IsDealAsker asker.now }
    ensures { result ≡ has_lost asker.now.deal.now (known_entries asker.now) asker.now.me }
{
    let leaving = asker.deal.graph.leaving(asker.me);
    leaving
        .iter()
        .any(|arc| is_triggered(asker.deal, asker.known, *arc))
}

/// Whether the height is above the last one of the hashkey, if any, on the arc.
fn is_past(deal: &Deal, arc: ArcId, key: Option<&Hashkey>, height: u32) -> bool
    requires { IsWellSized deal.now }
    ensures { result ≡ is_past deal.now arc (option_copied key.entry) height }
{
    match key {
        Some(key) => last_height(deal, arc, key) < height as u128,
        None => false,
    }
}

/// Whether the lock of the arc is missed for good: it is closed, and its ledger is above the last
/// height of the hashkey that was kept for it.
fn is_missed(asker: &Asker<'_>, arc: ArcId, lock: LockId) -> bool
    requires asker { IsDealAsker asker.now }
    requires lock { lock < length asker.now.deal.now.leaders }
    ensures { result ≡ is_missed asker.now.deal.now (known_entries asker.now) (asker_key asker.now) arc lock }
{
    let key = kept_key(asker.signer.kept, lock);
    !is_open(asker.deal, asker.known, arc, lock)
        && is_past(asker.deal, arc, key, arc_height(asker.known, arc))
}

/// Whether a lock of the arc is missed.
fn has_missed_lock(asker: &Asker<'_>, arc: ArcId) -> bool
    requires { IsDealAsker asker.now }
    ensures { let p = asker.now in result ≡ list_any (is_missed p.deal.now (known_entries p) (asker_key p) arc) (locks p.deal.now) }
{
    (0..asker.deal.leaders.len() as u8).any(|lock| is_missed(asker, arc, lock))
}

/// Whether a lock of an arc that enters the party is missed.
fn has_missed(asker: &Asker<'_>) -> bool
    requires { IsDealAsker asker.now }
    ensures { result ≡ has_missed asker.now.deal.now asker.now.me (asker_key asker.now) (known_entries asker.now) }
{
    let entering = asker.deal.graph.entering(asker.me);
    entering.iter().any(|arc| has_missed_lock(asker, *arc))
}

/// Whether the party had better not present the hashkey for the lock. It has presented none for that
/// lock and has lost nothing, and an arc that enters it wouldn't take the hashkey, or has missed a
/// lock: the others could extend the hashkey, and the party not be paid.
pub(crate) fn is_withheld(asker: &Asker<'_>, lock: LockId, key: &Hashkey) -> bool
    requires asker { IsDealAsker asker.now }
    requires lock { lock < length asker.now.deal.now.leaders }
    ensures { let p = asker.now in result ≡ is_withheld p.deal.now p.me (asker_at p) (asker_key p) (known_entries p) lock (Some key.now) }
{
    is_unrevealed(asker.me, asker.known, lock)
        && !has_lost(asker)
        && (has_missed(asker) || !is_taken(asker, lock, key))
}
