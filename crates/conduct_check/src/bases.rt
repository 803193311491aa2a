//! The base height of a party's unlocks.

ghost use Rattle.std.specs.Prelude.{◌≡◌, ◌<◌, length, option_copied};
ghost use Rattle.swap_base.specs.Lists.{greatest};
ghost use Rattle.swap_digraph.specs.Graph.{leaving};
ghost use Rattle.swap_digraph.specs.Deal.{IsWellSized};
ghost use Rattle.ledger_core.specs.Book.{history};
ghost use Rattle.ledger_core.specs.History.{opened};
ghost use Rattle.history_index.specs.Indexes.{all_entries, AreIndexes};
ghost use Rattle.swap_rules.specs.Late.{unlock_base, height_of_opening, is_carried};
ghost use Rattle.conduct_check.specs.Overdue.{greatest_index_use, is_used_with_key};

use crate::calls::accepted;
use crate::extending::extends;
use crate::keys::same_key;
use crate::openings::{first_seen_key, opening_height};
use hashkey_path::Hashkey;
use history_index::Index;
use ledger_core::{Call, Entry};
use swap_base::{ArcId, LockId, PartyId};
use swap_digraph::{Deal, Mode};

fn is_carried(inner: Option<&Hashkey>, call: Option<&Call>) -> bool
    ensures { result ≡ is_carried (option_copied inner.entry) (option_copied call.entry) }
{
    match (inner, call) {
        (Some(inner), Some(Call::Unlock(key))) => same_key(inner, key),
        _ => false,
    }
}

/// Whether the entry was accepted with the hashkey that the party's first one extends, or else with
/// the one that it would extend.
fn is_used(party: PartyId, first: Option<&Hashkey>, seen: Option<&Hashkey>, entry: &Entry) -> bool
    ensures { result ≡ is_used_with_key party (option_copied first.entry) (option_copied seen.entry) entry.now }
{
    match first {
        Some(key) => extends(party, key, accepted(entry)),
        None => is_carried(seen, accepted(entry)),
    }
}

/// The greatest height at which the used hashkey was accepted, or 0 if it never was.
#[tactic(auto, using(due_calls::proofs::Greatest::greatest_fold, crate::proofs::MadeLate::used_made))]
fn greatest_index_use(
    index: &Index,
    party: PartyId,
    first: Option<&Hashkey>,
    seen: Option<&Hashkey>,
) -> u32
    ensures { result ≡ greatest_index_use party (option_copied first.entry) (option_copied seen.entry) index.now.entries }
{
    index
        .made()
        .iter()
        .map(|made| if is_used(party, first, seen, &made.entry) {
            made.entry.height
        } else {
            0
        })
        .fold(0, |most, height| most.max(height))
}

/// The greatest height at which the used hashkey was accepted on the arc.
#[tactic(auto, unfolding(crate::specs::Overdue::greatest_index_use))]
fn greatest_arc_use(
    known: &[Index],
    party: PartyId,
    first: Option<&Hashkey>,
    seen: Option<&Hashkey>,
    arc: ArcId,
) -> u32
    ensures { result ≡ greatest_index_use party (option_copied first.entry) (option_copied seen.entry) (history (all_entries known.now) arc) }
{
    match known.get(arc as usize) {
        Some(index) => greatest_index_use(index, party, first, seen),
        None => 0,
    }
}

/// The greatest height at which the used hashkey was accepted on an arc that leaves the party.
#[tactic(auto, using(due_calls::proofs::Greatest::greatest_fold))]
fn base_by_key(
    deal: &Deal,
    known: &[Index],
    party: PartyId,
    first: Option<&Hashkey>,
    seen: Option<&Hashkey>,
) -> u32
    requires { party < deal.now.graph.n }
    ensures { result ≡ greatest (λ a. greatest_index_use party (option_copied first.entry) (option_copied seen.entry) (history (all_entries known.now) a))
        (leaving deal.now.graph party) }
{
    let leaving = deal.graph.leaving(party);
    leaving
        .iter()
        .map(|arc| greatest_arc_use(known, party, first, seen, *arc))
        .fold(0, |most, height| most.max(height))
}

/// The greatest height at which the lock was opened on an arc that leaves the party.
#[tactic(auto, using(due_calls::proofs::Greatest::greatest_fold))]
fn base_by_lock(deal: &Deal, known: &[Index], party: PartyId, lock: LockId) -> u32
    requires sized { IsWellSized deal.now }
    requires known { AreIndexes deal.now known.now }
    requires party { party < deal.now.graph.n }
    requires lock { lock < length deal.now.leaders }
    ensures { result ≡ greatest (λ a. height_of_opening (opened (history (all_entries known.now) a) lock)) (leaving deal.now.graph party) }
{
    let leaving = deal.graph.leaving(party);
    leaving
        .iter()
        .map(|arc| opening_height(deal, known, *arc, lock))
        .fold(0, |most, height| most.max(height))
}

/// The base height of the party's unlocks of the lock, where these are its first hashkey and the
/// one that it would extend.
#[tactic(auto, using(crate::proofs::Base::base_with))]
pub(crate) fn unlock_base(
    deal: &Deal,
    known: &[Index],
    party: PartyId,
    lock: LockId,
    first: Option<&Hashkey>,
) -> u32
    requires sized { IsWellSized deal.now }
    requires known { AreIndexes deal.now known.now }
    requires party { party < deal.now.graph.n }
    requires lock { lock < length deal.now.leaders }
    ensures { result ≡ unlock_base deal.now.mode deal.now (all_entries known.now) party lock (option_copied first.entry) }
{
    match deal.mode {
        Mode::Timelocks => base_by_lock(deal, known, party, lock),
        Mode::Hashkeys => {
            let seen = first_seen_key(deal, known, party, lock);
            base_by_key(deal, known, party, first, seen)
        }
    }
}
