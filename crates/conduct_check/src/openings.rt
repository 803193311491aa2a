//! How a lock was opened on an arc.

ghost use Rattle.std.specs.Prelude.{◌≡◌, ◌<◌, length, option_copied, option_map};
ghost use Rattle.swap_digraph.specs.Deal.{IsWellSized};
ghost use Rattle.ledger_core.specs.Book.{history};
ghost use Rattle.ledger_core.specs.History.{opened};
ghost use Rattle.history_index.specs.Indexes.{all_entries, AreIndexes};
ghost use Rattle.history_index.specs.Made.{key_opening};
ghost use Rattle.swap_rules.specs.Party.{first_seen_key, key_without_party};
ghost use Rattle.swap_rules.specs.Late.{height_of_opening, trigger_height};

use hashkey_path::Hashkey;
use history_index::{Index, Opened};
use swap_base::{ArcId, LockId, PartyId};
use swap_digraph::{Deal, is_listed};

/// The accepted unlock of the lock on the arc.
fn opened<'a>(deal: &Deal, known: &'a [Index], arc: ArcId, lock: LockId) -> Option<Opened<'a>>
    requires sized { IsWellSized deal.now }
    requires known { AreIndexes deal.now known.now }
    requires lock { lock < length deal.now.leaders }
    ensures { option_map key_opening result ≡ opened (history (all_entries known.now) arc) lock }
{
    match known.get(arc as usize) {
        Some(index) => index.opened(lock),
        None => None,
    }
}

/// The height at which the lock was opened on the arc, or 0 if it wasn't.
pub(crate) fn opening_height(deal: &Deal, known: &[Index], arc: ArcId, lock: LockId) -> u32
    requires sized { IsWellSized deal.now }
    requires known { AreIndexes deal.now known.now }
    requires lock { lock < length deal.now.leaders }
    ensures { result ≡ height_of_opening (opened (history (all_entries known.now) arc) lock) }
{
    match opened(deal, known, arc, lock) {
        Some(unlock) => unlock.height,
        None => 0,
    }
}

/// The hashkey that opened the lock on the arc, where its path lacks the party.
fn key_without_party<'a>(
    deal: &Deal,
    known: &'a [Index],
    party: PartyId,
    arc: ArcId,
    lock: LockId,
) -> Option<&'a Hashkey>
    requires sized { IsWellSized deal.now }
    requires known { AreIndexes deal.now known.now }
    requires lock { lock < length deal.now.leaders }
    ensures { option_copied result ≡ key_without_party party (opened (history (all_entries known.now) arc) lock) }
{
    match opened(deal, known, arc, lock) {
        Some(unlock) => {
            if is_listed(party, unlock.key.path.as_slice()) {
                None
            } else {
                Some(unlock.key)
            }
        }
        None => None,
    }
}

/// The hashkey that opened the lock by a path without the party, on the least-numbered such arc
/// that leaves the party.
pub(crate) fn first_seen_key<'a>(
    deal: &Deal,
    known: &'a [Index],
    party: PartyId,
    lock: LockId,
) -> Option<&'a Hashkey>
    requires sized { IsWellSized deal.now }
    requires known { AreIndexes deal.now known.now }
    requires party { party < deal.now.graph.n }
    requires lock { lock < length deal.now.leaders }
    ensures { option_copied result ≡ first_seen_key deal.now (all_entries known.now) party lock }
{
    for arc in deal.graph.leaving(party) {
        let found = key_without_party(deal, known, party, *arc, lock);
        if found.is_some() {
            return found;
        }
    }
    None
}

/// The height of the last opened lock of the arc.
#[tactic(auto, using(crate::proofs::LateLoops::greatest_more))]
pub(crate) fn trigger_height(deal: &Deal, known: &[Index], arc: ArcId) -> u32
    requires sized { IsWellSized deal.now }
    requires known { AreIndexes deal.now known.now }
    ensures { result ≡ trigger_height deal.now (history (all_entries known.now) arc) }
{
    let mut last = 0;
    for lock in 0..deal.leaders.len() as u8 {
        last = last.max(opening_height(deal, known, arc, lock));
    }
    last
}
