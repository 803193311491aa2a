//! Up to which height a call is on time.

ghost use Rattle.std.specs.Prelude.{◌≡◌, ◌<◌, ◌^◌, IfSome, length};
ghost use Rattle.swap_digraph.specs.Deal.{IsWellSized};
ghost use Rattle.swap_digraph.specs.Graph.{entering, is_listed as is_listed_arc, leaving};
ghost use Rattle.history_index.specs.Indexes.{all_entries, AreIndexes};
ghost use Rattle.conduct_check.specs.Sent.{shown, party_unlocks};
ghost use Rattle.swap_rules.specs.declared.finding.Rule.TheVariants.{Publish as ToPublish, Unlock as ToUnlock, Claim as ToClaim, Refund as ToRefund};
ghost use Rattle.swap_rules.specs.Late.{reference_height};
ghost use Rattle.answer_rules.specs.Heights.{asked_height, last_on_time};

use conduct_check::{claim_start, first_key, publish_start, refund_start, unlock_start};
use due_calls::{least_expiry, ready_height};
use hashkey_path::Hashkey;
use history_index::Index;
use ledger_core::Call;
use swap_base::{ArcId, LockId, PartyId};
use swap_digraph::{Deal, is_listed};

fn leaves(deal: &Deal, me: PartyId, arc: ArcId) -> bool
    requires { me < deal.now.graph.n }
    ensures { result ≡ is_listed_arc arc (leaving deal.now.graph me) }
{
    is_listed(arc, deal.graph.leaving(me))
}

fn enters(deal: &Deal, me: PartyId, arc: ArcId) -> bool
    requires { me < deal.now.graph.n }
    ensures { result ≡ is_listed_arc arc (entering deal.now.graph me) }
{
    is_listed(arc, deal.graph.entering(me))
}

/// From which height the party is to publish on the arc.
#[tactic(auto, unfolding(swap_rules::specs::Late::reference_height))]
fn publish_height(deal: &Deal, known: &[Index], me: PartyId, arc: ArcId) -> Option<u64>
    requires sized { IsWellSized deal.now }
    requires known { AreIndexes deal.now known.now }
    requires me { me < deal.now.graph.n }
    ensures exact { result ≡ reference_height deal.now (all_entries known.now) me ToPublish arc }
    ensures small { IfSome result (λ n. n < 2 ^ 62) }
{
    if leaves(deal, me, arc) {
        publish_start(deal, known, me)
    } else {
        None
    }
}

/// From which height the party is to unlock the lock on the arc.
#[tactic(auto, unfolding(swap_rules::specs::Late::reference_height))]
fn unlock_height(
    deal: &Deal,
    known: &[Index],
    me: PartyId,
    keys: &[&Hashkey],
    arc: ArcId,
    lock: LockId,
) -> Option<u64>
    requires sized { IsWellSized deal.now }
    requires known { AreIndexes deal.now known.now }
    requires me { me < deal.now.graph.n }
    requires keys { shown keys.now ≡ party_unlocks (all_entries known.now) me }
    requires lock { lock < length deal.now.leaders }
    ensures exact { result ≡ reference_height deal.now (all_entries known.now) me (ToUnlock lock) arc }
    ensures small { IfSome result (λ n. n < 2 ^ 62) }
{
    if enters(deal, me, arc) {
        let first = first_key(known, me, keys, lock);
        unlock_start(deal, known, me, lock, first)
    } else {
        None
    }
}

/// From which height the party is to claim on the arc.
#[tactic(auto, unfolding(swap_rules::specs::Late::reference_height))]
fn claim_height(deal: &Deal, known: &[Index], me: PartyId, arc: ArcId) -> Option<u64>
    requires sized { IsWellSized deal.now }
    requires known { AreIndexes deal.now known.now }
    requires me { me < deal.now.graph.n }
    ensures exact { result ≡ reference_height deal.now (all_entries known.now) me ToClaim arc }
    ensures small { IfSome result (λ n. n < 2 ^ 62) }
{
    if enters(deal, me, arc) {
        claim_start(deal, known, arc)
    } else {
        None
    }
}

/// From which height the party is to refund on the arc.
#[tactic(auto, using(crate::proofs::Arcs::leaving_below), unfolding(swap_rules::specs::Late::reference_height))]
fn refund_height(deal: &Deal, known: &[Index], me: PartyId, arc: ArcId) -> Option<u64>
    requires sized { IsWellSized deal.now }
    requires known { AreIndexes deal.now known.now }
    requires me { me < deal.now.graph.n }
    ensures exact { result ≡ reference_height deal.now (all_entries known.now) me ToRefund arc }
    ensures small { IfSome result (λ n. n < 2 ^ 62) }
{
    if leaves(deal, me, arc) {
        let least = least_expiry(deal, known, arc);
        refund_start(deal, known, arc, least)
    } else {
        None
    }
}

/// From which height a rule of the deal asks the party for the call on the arc, where the rule is
/// enabled.
fn asked_height(
    deal: &Deal,
    known: &[Index],
    me: PartyId,
    keys: &[&Hashkey],
    arc: ArcId,
    call: &Call,
) -> Option<u64>
    requires sized { IsWellSized deal.now }
    requires known { AreIndexes deal.now known.now }
    requires me { me < deal.now.graph.n }
    requires keys { shown keys.now ≡ party_unlocks (all_entries known.now) me }
    ensures exact { result ≡ asked_height deal.now (all_entries known.now) me arc call.now }
    ensures small { IfSome result (λ n. n < 2 ^ 62) }
{
    match call {
        Call::Publish(_) => publish_height(deal, known, me, arc),
        Call::Unlock(key) => {
            if (key.lock as usize) < deal.leaders.len() {
                unlock_height(deal, known, me, keys, arc, key.lock)
            } else {
                None
            }
        }
        Call::Claim => claim_height(deal, known, me, arc),
        Call::Refund => refund_height(deal, known, me, arc),
        Call::Transfer(_, _) => None,
    }
}

/// The last height at which the party's call on the arc is on time, where these are the hashkeys of
/// its unlocks.
pub fn last_on_time(
    deal: &Deal,
    known: &[Index],
    me: PartyId,
    keys: &[&Hashkey],
    arc: ArcId,
    call: &Call,
) -> u64
    requires sized { IsWellSized deal.now }
    requires known { AreIndexes deal.now known.now }
    requires me { me < deal.now.graph.n }
    requires keys { shown keys.now ≡ party_unlocks (all_entries known.now) me }
    ensures { result ≡ last_on_time deal.now (all_entries known.now) me arc call.now }
{
    let from = match asked_height(deal, known, me, keys, arc, call) {
        Some(height) => height,
        None => ready_height(deal, me, known) as u64,
    };
    from + deal.delta as u64
}
