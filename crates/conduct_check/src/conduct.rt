//! Whether a party's call keeps the rules of conduct.

ghost use Rattle.std.specs.Prelude.{◌≡◌, ◌==◌, ◌<◌, ℕ, Some, true, length, count_by, option_copied};
ghost use Rattle.ledger_core.specs.Book.{history};
ghost use Rattle.swap_rules.specs.Party.{pick_call};
ghost use Rattle.swap_rules.specs.Conduct.{is_publish, keeps};
ghost use Rattle.history_index.specs.Indexes.{all_entries};
ghost use Rattle.conduct_check.specs.Judged.{judged_book, IsJudged};
ghost use Rattle.conduct_check.specs.Standing.{IsStanding};
ghost use Rattle.conduct_check.specs.CallConduct.{is_first, is_good_key, is_arc_key_valid, keeps_call, keeps_made, HasDealLock};

use crate::calls::pick_call;
use crate::judged::Judged;
use crate::keys::{first_key, is_first_key};
use crate::past::{had_expired, made_calls, was_published, was_triggered};
use crate::standing::Standing;
use crate::validity::is_valid;
use escrow_core::{Terms, stated_terms};
use hashkey_path::Hashkey;
use history_index::{Index, Made};
use ledger_core::Call;
use swap_base::{ArcId, PartyId};

fn is_publish(call: Option<&Call>) -> bool
    ensures { result ≡ is_publish (option_copied call.entry) }
{
    match call {
        Some(Call::Publish(_)) => true,
        _ => false,
    }
}

/// How many publishes of the party are among the calls.
fn count_publishes(calls: &[Made], party: PartyId) -> usize
    ensures { result ≡ count_by (λ m. is_publish (pick_call party m.entry)) calls.now }
{
    calls
        .iter()
        .filter(|made| is_publish(pick_call(party, &made.entry)))
        .count()
}

/// Whether the party has exactly one publish on the arc.
fn publishes_once(known: &[Index], party: PartyId, arc: ArcId) -> bool
    ensures { result ≡ (count_by (λ e. is_publish (pick_call party e)) (history (all_entries known.now) arc) == 1) }
{
    count_publishes(made_calls(known, arc), party) == 1
}

/// Whether a publish has the correct terms and is the party's only one on the arc, and the party
/// leads or is ready.
#[tactic(auto, unfolding(swap_rules::specs::Conduct::keeps))]
fn keeps_publish(judged: &Judged<'_>, standing: &Standing, arc: ArcId, terms: &Terms) -> bool
    requires judged { IsJudged judged.now }
    requires standing { IsStanding judged.now standing.now }
    requires arc { arc < length judged.now.deal.now.graph.arcs }
    ensures { (past : _) (at : ℕ) → result ≡ keeps judged.now.deal.now (judged_book judged.now) judged.now.party arc past at (Some (Call.Publish terms.now)) }
{
    terms.same(&stated_terms(judged.deal, arc))
        && publishes_once(judged.known, judged.party, arc)
        && (standing.leads || standing.ready)
}

/// Whether the hashkey is valid on the arc, where it is the party's first one for its lock. On an
/// arc that doesn't enter the party it verifies the signatures again.
fn is_valid_arc_key(judged: &Judged<'_>, standing: &Standing, arc: ArcId, key: &Hashkey) -> bool
    requires judged { IsJudged judged.now }
    requires standing { IsStanding judged.now standing.now }
    requires arc { arc < length judged.now.deal.now.graph.arcs }
    requires lock { key.now.lock < length judged.now.deal.now.leaders }
    ensures { is_first (judged_book judged.now) judged.now.party key.now ≡ true → result ≡ is_arc_key_valid judged.now.deal.now arc key.now }
{
    if judged.deal.graph.arcs()[arc as usize].to == judged.party {
        standing.valid[key.lock as usize]
    } else {
        is_valid(judged.deal, arc, key, 0)
    }
}

/// Whether the party's first hashkey for a lock is valid on the arc and well come by.
///
/// It asks first whether the hashkey is well come by. Such a hashkey begins at the party, so no
/// signature is verified for an arc that doesn't enter the party.
fn keeps_first(judged: &Judged<'_>, standing: &Standing, arc: ArcId, key: &Hashkey) -> bool
    requires judged { IsJudged judged.now }
    requires standing { IsStanding judged.now standing.now }
    requires arc { arc < length judged.now.deal.now.graph.arcs }
    requires lock { key.now.lock < length judged.now.deal.now.leaders }
    ensures { is_first (judged_book judged.now) judged.now.party key.now ≡ true
        → result ≡ is_good_key judged.now.deal.now (judged_book judged.now) judged.now.party arc key.now }
{
    standing.origins[key.lock as usize] && is_valid_arc_key(judged, standing, arc, key)
}

/// Whether an unlock stands after its arc's accepted publish, the party is ready, and the hashkey
/// is its first one for the lock, valid and well come by.
#[tactic(auto, unfolding(swap_rules::specs::Conduct::keeps))]
fn keeps_unlock(
    judged: &Judged<'_>,
    standing: &Standing,
    arc: ArcId,
    number: u32,
    key: &Hashkey,
) -> bool
    requires judged { IsJudged judged.now }
    requires standing { IsStanding judged.now standing.now }
    requires arc { arc < length judged.now.deal.now.graph.arcs }
    requires lock { key.now.lock < length judged.now.deal.now.leaders }
    ensures { (at : ℕ) → result ≡ keeps_call judged.now.deal.now (judged_book judged.now) judged.now.party arc number at (Call.Unlock key.now) }
{
    was_published(judged.known, arc, number)
        && standing.ready
        && is_first_key(
            first_key(judged.known, judged.party, judged.keys, key.lock),
            key,
        )
        && keeps_first(judged, standing, arc, key)
}

/// Whether the call on the arc, where it is the party's, keeps the rules of conduct.
#[tactic(auto, unfolding(swap_rules::specs::Conduct::keeps))]
pub(crate) fn keeps_entry(judged: &Judged<'_>, standing: &Standing, arc: ArcId, made: &Made) -> bool
    requires judged { IsJudged judged.now }
    requires standing { IsStanding judged.now standing.now }
    requires arc { arc < length judged.now.deal.now.graph.arcs }
    requires within { HasDealLock judged.now.deal.now (pick_call judged.now.party made.now.entry) }
    ensures { result ≡ keeps_made judged.now.deal.now (judged_book judged.now) judged.now.party arc made.now }
{
    let Some(call) = pick_call(judged.party, &made.entry) else {
        return true;
    };
    match call {
        Call::Publish(terms) => keeps_publish(judged, standing, arc, terms),
        Call::Unlock(key) => keeps_unlock(judged, standing, arc, made.number, key),
        Call::Claim => was_triggered(judged, arc, made.number),
        Call::Refund => had_expired(judged, arc, made.number, made.entry.height),
        Call::Transfer(_, _) => false,
    }
}
