//! The signatures of a hashkey, each over the suffix of the path that begins at its place.

ghost use Rattle.std.specs.Prelude.{◌≡◌, ◌+◌, ◌<◌, All, IsTrue, length};
ghost use Rattle.swap_digraph.specs.Deal.{HasKeys};
ghost use Rattle.hashkey_path.specs.Hashkey.{party_public_key, signing_message, wrong_signature};
ghost use Rattle.hashkey_path.specs.LastSignatures.{are_last_signed};

use hash_signature::{Sig, verify};
use sha2::{Digest as Hasher, Sha256};
use swap_base::{Digest, LockId, PartyId};
use swap_digraph::{Deal, Mode};

/// What is left of a hashkey from a vertex on: the suffix of its path that begins there, with the
/// signatures over this suffix and the shorter ones.
#[derive(Clone, Copy)]
pub(crate) struct Suffix<'a> {
    pub lock: LockId,
    pub secret: &'a Digest,
    pub path: &'a [PartyId],
    pub sigs: &'a [Sig],
}

/// The public key of a party for a lock.
pub(crate) fn party_public_key(deal: &Deal, party: PartyId, lock: LockId) -> Digest
    requires keys { HasKeys Mode.Hashkeys deal.now }
    requires party { party < deal.now.graph.n }
    requires lock { lock < length deal.now.leaders }
    ensures { result ≡ party_public_key deal.now party lock }
{
    let row = &deal.keys.as_slice()[party as usize];
    row.as_slice()[lock as usize]
}

/// What the first vertex of a suffix signs, where `inner` are the signatures of the shorter
/// suffixes.
#[tactic(auto, unfolding(crate::specs::Hashkey::signing_message))]
pub(crate) fn signing_message(
    id: &Digest,
    lock: LockId,
    path: &[PartyId],
    secret: &Digest,
    inner: &[Sig],
) -> Digest
    requires { length path.now < 256 }
    ensures { result ≡ signing_message id.now lock path.now secret.now inner.now }
{
    let mut hasher = Sha256::new();
    hasher.update([4u8]);
    hasher.update(id);
    hasher.update([lock, path.len() as u8]);
    hasher.update(path);
    hasher.update(secret);
    match inner {
        [] => hasher.finalize(),
        [next, ..] => {
            hasher.update(next.to_bytes());
            hasher.finalize()
        }
    }
}

/// The first place, counted from `place`, with a signature that its vertex didn't make over its
/// suffix. It ends where either list does, and verifies none of the last `verified` signatures,
/// which were verified before.
#[tactic(auto, unfolding(crate::specs::Hashkey::is_signed))]
pub(crate) fn wrong_signature(
    place: u8,
    deal: &Deal,
    suffix: &Suffix<'_>,
    verified: usize,
) -> Option<u8>
    requires keys { HasKeys Mode.Hashkeys deal.now }
    requires lock { suffix.now.lock < length deal.now.leaders }
    requires few { place + length suffix.now.path.now < 256 }
    requires within { All (λ v. v < deal.now.graph.n) suffix.now.path.now }
    requires known { IsTrue (are_last_signed verified deal.now suffix.now.lock suffix.now.secret.now suffix.now.path.now suffix.now.sigs.now) }
    ensures { result ≡ wrong_signature place deal.now suffix.now.lock suffix.now.secret.now suffix.now.path.now suffix.now.sigs.now }
{
    let Suffix {
        lock,
        secret,
        path,
        sigs,
    } = *suffix;
    match (path, sigs) {
        ([v, rest @ ..], [sig, inner @ ..]) => {
            if sigs.len() <= verified {
                return None;
            }
            let public = party_public_key(deal, *v, lock);
            let message = signing_message(&deal.id, lock, path, secret, inner);
            if !verify(&public, &message, sig) {
                return Some(place);
            }
            let shorter = Suffix {
                path: rest,
                sigs: inner,
                ..*suffix
            };
            wrong_signature(place + 1, deal, &shorter, verified)
        }
        _ => None,
    }
}
