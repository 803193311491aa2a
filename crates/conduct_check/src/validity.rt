//! Whether a hashkey is valid on an arc, where no signature is verified that a ledger has verified.

ghost use Rattle.std.specs.Prelude.{◌≡◌, ◌<◌, Some, IsTrue, length};
ghost use Rattle.std.specs.List.{list_any};
ghost use Rattle.swap_digraph.specs.Deal.{IsWellSized, lock_hashlock};
ghost use Rattle.swap_digraph.specs.Graph.{entering};
ghost use Rattle.hashkey_path.specs.Hashkey.{is_valid};
ghost use Rattle.hashkey_path.specs.LastSignatures.{is_last_signed};
ghost use Rattle.ledger_core.specs.Book.{history, IsLegalBook};
ghost use Rattle.ledger_core.specs.History.{opened};
ghost use Rattle.conduct_check.specs.Judged.{judged_book, IsJudged};
ghost use Rattle.conduct_check.specs.Standing.{key_opens_arc, is_valid_on_first_arc};

use crate::judged::Judged;
use crate::keys::same_key;
use crate::origin::has_seen_inner;
use hashkey_path::{Hashkey, HashkeyAnswer, check};
use swap_base::ArcId;
use swap_digraph::Deal;

/// Whether the hashkey opened its lock on the arc.
fn key_opens_arc(judged: &Judged<'_>, arc: ArcId, key: &Hashkey) -> bool
    requires judged { IsJudged judged.now }
    requires lock { key.now.lock < length judged.now.deal.now.leaders }
    ensures { result ≡ key_opens_arc key.now (opened (history (judged_book judged.now) arc) key.now.lock) }
{
    match judged.known.get(arc as usize) {
        Some(index) => match index.opened(key.lock) {
            Some(opened) => same_key(opened.key, key),
            None => false,
        },
        None => false,
    }
}

/// Whether the hashkey opened its lock on an arc that enters the party.
fn was_accepted(judged: &Judged<'_>, key: &Hashkey) -> bool
    requires judged { IsJudged judged.now }
    requires lock { key.now.lock < length judged.now.deal.now.leaders }
    ensures { result ≡ list_any (λ a. key_opens_arc key.now (opened (history (judged_book judged.now) a) key.now.lock)) (entering judged.now.deal.now.graph judged.now.party) }
{
    let entering = judged.deal.graph.entering(judged.party);
    entering.iter().any(|arc| key_opens_arc(judged, *arc, key))
}

/// How many of the hashkey's last signatures are known to be valid. All are, if the hashkey opened
/// its lock on an arc that enters the party. All but the first are, if the hashkey extends one that
/// was accepted on an arc that leaves the party.
fn known_signatures(judged: &Judged<'_>, key: &Hashkey) -> usize
    requires judged { IsJudged judged.now }
    requires legal { IsLegalBook judged.now.deal.now (judged_book judged.now) }
    requires lock { key.now.lock < length judged.now.deal.now.leaders }
    ensures { IsTrue (is_last_signed result judged.now.deal.now key.now) }
{
    if was_accepted(judged, key) {
        key.sigs.as_slice().len()
    } else if has_seen_inner(judged, key) {
        key.sigs.as_slice().len() - 1
    } else {
        0
    }
}

/// Whether the hashkey is valid on the arc under the deal's hashlock. Its last `signatures`
/// signatures are known to be valid, so only those before them are verified.
#[tactic(auto, using(hashkey_path::proofs::Answered::valid_answer))]
pub(crate) fn is_valid(deal: &Deal, arc: ArcId, key: &Hashkey, signatures: usize) -> bool
    requires sized { IsWellSized deal.now }
    requires arc { arc < length deal.now.graph.arcs }
    requires lock { key.now.lock < length deal.now.leaders }
    requires signatures { IsTrue (is_last_signed signatures deal.now key.now) }
    ensures { result ≡ is_valid deal.now arc (lock_hashlock deal.now key.now.lock) key.now }
{
    let hashlock = &deal.hashlocks.as_slice()[key.lock as usize];
    check(deal, arc, hashlock, key, signatures) == HashkeyAnswer::Valid
}

/// Whether the hashkey is valid on the arcs that enter the party; the answer is the same for each.
/// If the hashkey opened its lock on one of them, it verifies no signature. If the rest of its
/// signatures were accepted, it verifies the party's own alone.
pub(crate) fn is_valid_entering(judged: &Judged<'_>, key: &Hashkey) -> bool
    requires judged { IsJudged judged.now }
    requires legal { IsLegalBook judged.now.deal.now (judged_book judged.now) }
    requires lock { key.now.lock < length judged.now.deal.now.leaders }
    ensures { result ≡ is_valid_on_first_arc judged.now.deal.now (entering judged.now.deal.now.graph judged.now.party) (Some key.now) }
{
    let entering = judged.deal.graph.entering(judged.party);
    match entering {
        [arc, ..] => is_valid(judged.deal, *arc, key, known_signatures(judged, key)),
        [] => false,
    }
}
