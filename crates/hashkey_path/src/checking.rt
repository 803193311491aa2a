//! Whether a hashkey opens its lock on an arc.

ghost use Rattle.std.specs.Prelude.{◌≡◌, ◌<◌, ◌↔◌, IsTrue, length};
ghost use Rattle.swap_digraph.specs.Deal.{IsWellSized};
ghost use Rattle.hashkey_path.specs.Hashkey.{hashkey_answer, is_wrong_path, path_answer, IsValidHashkey};
ghost use Rattle.hashkey_path.specs.LastSignatures.{is_last_signed};

use crate::hashkey::{Hashkey, HashkeyAnswer};
use crate::path::{first_is, is_path, last_is};
use crate::suffix::{Suffix, wrong_signature};
use hash_signature::hashed_value;
use swap_base::{ArcId, Digest};
use swap_digraph::{Deal, Mode};

fn is_wrong_path(deal: &Deal, arc: ArcId, key: &Hashkey) -> bool
    requires arc { arc < length deal.now.graph.arcs }
    requires lock { key.now.lock < length deal.now.leaders }
    ensures { result ≡ is_wrong_path deal.now arc deal.now.mode key.now }
{
    let path = key.path.as_slice();
    match deal.mode {
        Mode::Timelocks => !(path.is_empty() && key.sigs.is_empty()),
        Mode::Hashkeys => {
            let counterparty = deal.graph.arcs()[arc as usize].to;
            let leader = deal.leaders.as_slice()[key.lock as usize];
            !(is_path(&deal.graph, path)
                && first_is(counterparty, path)
                && last_is(leader, path)
                && path.len() == key.sigs.len())
        }
    }
}

/// Whether the hashkey's path and signatures are right, or the first thing that is wrong with them.
fn path_answer(deal: &Deal, arc: ArcId, key: &Hashkey, verified: usize) -> HashkeyAnswer
    requires sized { IsWellSized deal.now }
    requires arc { arc < length deal.now.graph.arcs }
    requires lock { key.now.lock < length deal.now.leaders }
    requires known { IsTrue (is_last_signed verified deal.now key.now) }
    ensures { result ≡ path_answer deal.now arc key.now }
{
    if is_wrong_path(deal, arc, key) {
        return HashkeyAnswer::WrongPath;
    }
    let whole = Suffix {
        lock: key.lock,
        secret: &key.secret,
        path: key.path.as_slice(),
        sigs: key.sigs.as_slice(),
    };
    match deal.mode {
        Mode::Timelocks => HashkeyAnswer::Valid,
        Mode::Hashkeys => match wrong_signature(0, deal, &whole, verified) {
            None => HashkeyAnswer::Valid,
            Some(place) => HashkeyAnswer::WrongSignature(place),
        },
    }
}

/// Whether the hashkey is valid on the arc under the hashlock, or the first thing that is wrong
/// with it. The last `verified` signatures were verified before, and aren't verified here. Where
/// `verified` is at least the number of signatures, none is verified. It takes no memory.
#[tactic(auto, unfolding(crate::specs::Hashkey::hashkey_answer))]
pub fn check(
    deal: &Deal,
    arc: ArcId,
    hashlock: &Digest,
    key: &Hashkey,
    verified: usize,
) -> HashkeyAnswer
    requires sized { IsWellSized deal.now }
    requires arc { arc < length deal.now.graph.arcs }
    requires lock { key.now.lock < length deal.now.leaders }
    requires known { IsTrue (is_last_signed verified deal.now key.now) }
    ensures first { result ≡ hashkey_answer deal.now arc hashlock.now key.now }
    ensures valid { (result ≡ HashkeyAnswer.Valid) ↔ IsValidHashkey deal.now arc hashlock.now key.now }
{
    if hashed_value(&key.secret) != *hashlock {
        return HashkeyAnswer::WrongSecret;
    }
    path_answer(deal, arc, key, verified)
}
