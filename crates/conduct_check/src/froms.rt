//! From which height a rule's action is to be done within delta.

ghost use Rattle.std.specs.Prelude.{◌≡◌, ◌<◌, ◌^◌, ◌||◌, IfSome, is_some, length, option_copied};
ghost use Rattle.std.specs.List.{list_any};
ghost use Rattle.swap_digraph.specs.Graph.{leaving};
ghost use Rattle.swap_digraph.specs.Deal.{leads, IsWellSized};
ghost use Rattle.ledger_core.specs.Book.{history};
ghost use Rattle.ledger_core.specs.History.{opened};
ghost use Rattle.history_index.specs.Indexes.{all_entries, AreIndexes};
ghost use Rattle.swap_rules.specs.Party.{first_key, least_expiry, opens_without_party};
ghost use Rattle.conduct_check.specs.Overdue.{claim_start, publish_start, refund_start, unlock_start};

use crate::bases::unlock_base;
use crate::openings::{first_seen_key, trigger_height};
use due_calls::{is_correct, is_ready, is_triggered, leads, leads_one, published, ready_height};
use hashkey_path::Hashkey;
use history_index::Index;
use swap_base::{ArcId, LockId, PartyId};
use swap_digraph::Deal;

/// The height from which the party is to publish on the arcs that leave it.
pub fn publish_start(deal: &Deal, known: &[Index], party: PartyId) -> Option<u64>
    requires sized { IsWellSized deal.now }
    requires known { AreIndexes deal.now known.now }
    requires party { party < deal.now.graph.n }
    ensures exact { result ≡ publish_start deal.now (all_entries known.now) party }
    ensures small { IfSome result (λ n. n < 2 ^ 62) }
{
    if leads_one(deal, party) {
        return Some(0);
    }
    if is_ready(deal, party, known) {
        return Some(ready_height(deal, party, known) as u64);
    }
    None
}

/// Whether the party leads the lock, sent a hashkey for it, or sees one.
fn has_key(
    deal: &Deal,
    known: &[Index],
    party: PartyId,
    lock: LockId,
    first: Option<&Hashkey>,
) -> bool
    requires sized { IsWellSized deal.now }
    requires known { AreIndexes deal.now known.now }
    requires party { party < deal.now.graph.n }
    requires lock { lock < length deal.now.leaders }
    ensures { result ≡ (leads deal.now party lock || is_some (option_copied first.entry)
        || list_any (λ c. opens_without_party party (opened (history (all_entries known.now) c) lock)) (leaving deal.now.graph party)) }
{
    leads(deal, party, lock)
        || first.is_some()
        || first_seen_key(deal, known, party, lock).is_some()
}

/// The height from which the party is to unlock the lock on its entering arcs. The hashkey is the
/// party's first for the lock.
pub fn unlock_start(
    deal: &Deal,
    known: &[Index],
    party: PartyId,
    lock: LockId,
    first: Option<&Hashkey>,
) -> Option<u64>
    requires sized { IsWellSized deal.now }
    requires known { AreIndexes deal.now known.now }
    requires party { party < deal.now.graph.n }
    requires lock { lock < length deal.now.leaders }
    requires first { option_copied first ≡ first_key (all_entries known.now) party lock }
    ensures exact { result ≡ unlock_start deal.now (all_entries known.now) party lock }
    ensures small { IfSome result (λ n. n < 2 ^ 62) }
{
    if !is_ready(deal, party, known) || !has_key(deal, known, party, lock, first) {
        return None;
    }
    let ready = ready_height(deal, party, known);
    if leads(deal, party, lock) {
        Some(ready as u64)
    } else {
        Some(ready.max(unlock_base(deal, known, party, lock, first)) as u64)
    }
}

/// The height from which the arc's counterparty is to claim.
pub fn claim_start(deal: &Deal, known: &[Index], arc: ArcId) -> Option<u64>
    requires sized { IsWellSized deal.now }
    requires known { AreIndexes deal.now known.now }
    ensures exact { result ≡ claim_start deal.now (all_entries known.now) arc }
    ensures small { IfSome result (λ n. n < 2 ^ 62) }
{
    if is_correct(deal, known, arc) && is_triggered(deal, known, arc) {
        Some(trigger_height(deal, known, arc) as u64)
    } else {
        None
    }
}

/// The height from which the arc's party is to refund, where this is the least expiry there.
#[tactic(auto, using(crate::proofs::FirstAnswer::some_published))]
pub fn refund_start(deal: &Deal, known: &[Index], arc: ArcId, least: u64) -> Option<u64>
    requires sized { IsWellSized deal.now }
    requires known { AreIndexes deal.now known.now }
    requires least { least ≡ least_expiry deal.now arc (history (all_entries known.now) arc) }
    ensures exact { result ≡ refund_start deal.now (all_entries known.now) arc }
    ensures small { least < 2 ^ 62 → IfSome result (λ n. n < 2 ^ 62) }
{
    if published(deal, known, arc).is_some() && !is_triggered(deal, known, arc) {
        Some(least)
    } else {
        None
    }
}
