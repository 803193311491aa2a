//! Where a hashkey comes from.

ghost use Rattle.std.specs.Prelude.{◌≡◌, option_copied};
ghost use Rattle.std.specs.List.{list_any};
ghost use Rattle.ledger_core.specs.Book.{history};
ghost use Rattle.ledger_core.specs.History.{accepted};
ghost use Rattle.swap_rules.specs.Conduct.{carries, extends_without_party, has_origin, has_seen, is_alone};
ghost use Rattle.history_index.specs.Indexes.{all_entries};
ghost use Rattle.conduct_check.specs.Judged.{judged_book, IsJudged};

use crate::calls::accepted;
use crate::extending::extends_without_party;
use crate::judged::Judged;
use crate::past::made_calls;
use due_calls::leads;
use hashkey_path::Hashkey;
use history_index::{Index, Made};
use ledger_core::Call;
use swap_base::{ArcId, Digest, PartyId};
use swap_digraph::Mode;

/// Whether the call is an unlock with that secret.
fn carries(secret: &Digest, call: Option<&Call>) -> bool
    ensures { result ≡ carries secret.now (option_copied call.entry) }
{
    match call {
        Some(Call::Unlock(key)) => key.secret == *secret,
        _ => false,
    }
}

fn is_alone(party: PartyId, path: &[PartyId]) -> bool
    ensures { result ≡ is_alone party path.now }
{
    match path {
        [only] => *only == party,
        _ => false,
    }
}

/// Whether an unlock with that secret was accepted among the calls.
fn has_secret(calls: &[Made], secret: &Digest) -> bool
    ensures { result ≡ list_any (λ m. carries secret.now (accepted m.entry)) calls.now }
{
    calls
        .iter()
        .any(|made| carries(secret, accepted(&made.entry)))
}

/// Whether one of the calls is an accepted unlock with an inner hashkey: this one extends it by the
/// party, and its path lacks the party.
fn has_inner(calls: &[Made], party: PartyId, key: &Hashkey) -> bool
    ensures { result ≡ list_any (λ m. extends_without_party party key.now (accepted m.entry)) calls.now }
{
    calls.iter().any(|made| extends_without_party(party, key, accepted(&made.entry)))
}

/// Whether an unlock with that secret was accepted on the arc.
fn arc_has_secret(known: &[Index], arc: ArcId, secret: &Digest) -> bool
    ensures { result ≡ list_any (λ e. carries secret.now (accepted e)) (history (all_entries known.now) arc) }
{
    has_secret(made_calls(known, arc), secret)
}

/// Whether an unlock with an inner hashkey was accepted on the arc: this hashkey extends the inner
/// one by the party, and the inner path lacks the party.
fn arc_has_inner(known: &[Index], arc: ArcId, party: PartyId, key: &Hashkey) -> bool
    ensures { result ≡ list_any (λ e. extends_without_party party key.now (accepted e)) (history (all_entries known.now) arc) }
{
    has_inner(made_calls(known, arc), party, key)
}

fn has_seen_secret(judged: &Judged<'_>, secret: &Digest) -> bool
    requires { IsJudged judged.now }
    ensures { result ≡ has_seen judged.now.deal.now (judged_book judged.now) judged.now.party (carries secret.now) }
{
    let leaving = judged.deal.graph.leaving(judged.party);
    leaving
        .iter()
        .any(|arc| arc_has_secret(judged.known, *arc, secret))
}

/// Whether an inner hashkey was accepted on an arc that leaves the party: this hashkey extends the
/// inner one by the party, and the inner path lacks the party.
pub(crate) fn has_seen_inner(judged: &Judged<'_>, key: &Hashkey) -> bool
    requires { IsJudged judged.now }
    ensures { result ≡ has_seen judged.now.deal.now (judged_book judged.now) judged.now.party (extends_without_party judged.now.party key.now) }
{
    let leaving = judged.deal.graph.leaving(judged.party);
    leaving
        .iter()
        .any(|arc| arc_has_inner(judged.known, *arc, judged.party, key))
}

/// Whether the hashkey is the party's own where it leads the lock, and else comes from an arc that
/// leaves it.
pub(crate) fn has_origin(judged: &Judged<'_>, key: &Hashkey) -> bool
    requires { IsJudged judged.now }
    ensures { result ≡ has_origin judged.now.deal.now.mode judged.now.deal.now (judged_book judged.now) judged.now.party key.now }
{
    let own = leads(judged.deal, judged.party, key.lock);
    match judged.deal.mode {
        Mode::Timelocks => own || has_seen_secret(judged, &key.secret),
        Mode::Hashkeys => {
            if own {
                is_alone(judged.party, key.path.as_slice())
            } else {
                has_seen_inner(judged, key)
            }
        }
    }
}
