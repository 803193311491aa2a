//! Hashkeys that a party makes with its key: the first, and one that goes on from another.

ghost use Rattle.std.specs.Prelude.{◌≡◌, ◌∷◌, ℕ, List, ◌+◌, ◌<◌, IfOk, IfErr, IsTrue, length, vec_len};
ghost use Rattle.std.specs.Vec.{vec_capacity};
ghost use Rattle.swap_digraph.specs.Deal.{path_limit, lock_hashlock};
ghost use Rattle.hashkey_path.specs.Hashkey.{signing_message, IsValidHashkey};
ghost use Rattle.hash_signature.specs.Signature.{is_valid_signature, derive_public_key, made_signature};
ghost use Rattle.hashkey_path.specs.Signed.{leaders_key, extended_key, CanExtend, IsLeadersOwn, IsValidEntering};

use crate::hashkey::Hashkey;
use crate::suffix::signing_message;
use hash_signature::{OneTimeKey, Sig};
use std::alloc::Global;
use swap_base::{Digest, Listed, LockId, NoMemory, PartyId, TryCopy};
use swap_digraph::Deal;

/// Memory ran out. The key is the very one that went in, not spent.
#[derive(Debug, Drop)]
pub struct KeyBack {
    pub key: OneTimeKey,
}

/// The path of a hashkey and the signatures but the first, with memory for that one.
#[derive(Drop)]
pub(crate) struct Unsigned {
    path: Vec<PartyId>,
    sigs: Vec<Sig>,
    ghost few: { length path.items < 256 },
    ghost room: { vec_len sigs < vec_capacity sigs },
}

fn make_path(alloc: Global, party: PartyId, rest: &[PartyId]) -> Result<Vec<PartyId>, NoMemory>
    ensures { IfOk result (λ path. path.items ≡ party ∷ rest.now) }
{
    let mut path = Vec::new(alloc);
    path.push(party)?;
    path.extend_from_slice(rest)?;
    Ok(path)
}

/// The signatures, with memory for one more.
fn with_room(alloc: Global, inner: &[Sig]) -> Result<Vec<Sig>, NoMemory>
    requires { length inner.now < 256 }
    ensures items { IfOk result (λ sigs. sigs.items ≡ inner.now) }
    ensures room { IfOk result (λ sigs. vec_len sigs < vec_capacity sigs) }
{
    let mut sigs = Vec::with_capacity(alloc, inner.len() + 1)?;
    'sigs: for sig in inner {
        sigs.push(sig.copy()?)?;
    }
    Ok(sigs)
}

impl Unsigned {
    pub(crate) fn new(
        alloc: Global,
        party: PartyId,
        rest: &[PartyId],
        inner: &[Sig],
    ) -> Result<Unsigned, NoMemory>
        requires path { length rest.now + 1 < 256 }
        requires sigs { length inner.now < 256 }
        ensures path { IfOk result (λ lists. lists.path.items ≡ party ∷ rest.now) }
        ensures sigs { IfOk result (λ lists. lists.sigs.items ≡ inner.now) }
    {
        let path = make_path(alloc, party, rest)?;
        let sigs = with_room(alloc, inner)?;
        Ok(Unsigned { path, sigs })
    }

    /// Signs with the key, which spends it. It takes no memory.
    fn sign(self, deal: &Deal, lock: LockId, secret: &Digest, key: OneTimeKey) -> Hashkey
        ensures exact { let message = signing_message deal.now.id lock self.path.items secret.now self.sigs.items in
            result ≡ record {
              lock = lock;
              secret = secret.now;
              path = self.path.items;
              sigs = made_signature key.seed key.party key.lock message ∷ self.sigs.items;
            } }
        ensures valid { let message = signing_message deal.now.id lock self.path.items secret.now self.sigs.items in
            IsTrue (is_valid_signature (derive_public_key key.seed key.party key.lock) message (made_signature key.seed key.party key.lock message)) }
    {
        let Unsigned { path, mut sigs } = self;
        let message = signing_message(&deal.id, lock, &path, secret, &sigs);
        sigs.insert(0, key.sign(&message)).unwrap();
        Hashkey {
            lock,
            secret: *secret,
            path: Listed::new(path),
            sigs: Listed::new(sigs),
        }
    }

    /// The hashkey with that signature before the others. It takes no memory.
    fn with_first(self, lock: LockId, secret: &Digest, sig: Sig) -> Hashkey
        ensures { result ≡ record { lock = lock; secret = secret.now; path = self.path.items; sigs = sig ∷ self.sigs.items } }
    {
        let Unsigned { path, mut sigs } = self;
        sigs.insert(0, sig).unwrap();
        Hashkey {
            lock,
            secret: *secret,
            path: Listed::new(path),
            sigs: Listed::new(sigs),
        }
    }

    /// Signs once with the key, which spends it, and puts the signature into these lists and into
    /// equal ones. It takes no memory.
    pub(crate) fn sign_twice(
        self,
        twin: Unsigned,
        deal: &Deal,
        lock: LockId,
        secret: &Digest,
        key: OneTimeKey,
    ) -> (Hashkey, Hashkey)
        requires path { twin.path.items ≡ self.path.items }
        requires sigs { twin.sigs.items ≡ self.sigs.items }
        ensures exact { let message = signing_message deal.now.id lock self.path.items secret.now self.sigs.items in
            result.0 ≡ record {
              lock = lock;
              secret = secret.now;
              path = self.path.items;
              sigs = made_signature key.seed key.party key.lock message ∷ self.sigs.items;
            } }
        ensures equal { result.1 ≡ result.0 }
    {
        let message = signing_message(&deal.id, lock, &self.path, secret, &self.sigs);
        let sig = key.sign(&message);
        let same = Sig::new(*sig.values());
        (
            self.with_first(lock, secret, sig),
            twin.with_first(lock, secret, same),
        )
    }
}

/// The hashkey of a leader: its path is the party alone.
pub fn first(
    alloc: Global,
    deal: &Deal,
    lock: LockId,
    secret: &Digest,
    party: PartyId,
    key: OneTimeKey,
) -> Result<Hashkey, KeyBack>
    requires party { party < deal.now.graph.n }
    requires of_party { key.party ≡ party }
    requires of_lock { key.lock ≡ lock }
    ensures value { IfOk result (λ k. k ≡ leaders_key deal.now lock secret.now party key.seed) }
    ensures valid { IfOk result (λ k. IsLeadersOwn deal.now lock secret.now party key.seed → IsValidEntering deal.now party (lock_hashlock deal.now lock) k) }
    ensures back { IfErr result (λ b. b.key ≡ key) }
{
    match Unsigned::new(alloc, party, &[], &[]) {
        Ok(lists) => Ok(lists.sign(deal, lock, secret, key)),
        Err(NoMemory) => Err(KeyBack { key }),
    }
}

/// The hashkey that extends `inner` by the party: the party comes first in its path, and the new
/// signature first among its signatures.
pub fn extend(
    alloc: Global,
    deal: &Deal,
    inner: &Hashkey,
    party: PartyId,
    key: OneTimeKey,
) -> Result<Hashkey, KeyBack>
    requires party { party < deal.now.graph.n }
    requires of_party { key.party ≡ party }
    requires of_lock { key.lock ≡ inner.now.lock }
    requires few { length inner.now.path < path_limit deal.now }
    requires paired { length inner.now.sigs ≡ length inner.now.path }
    ensures value { IfOk result (λ k. k ≡ extended_key deal.now inner.now party key.seed) }
    ensures valid { IfOk result (λ k. (a : ℕ) (hashlock : List ℕ) → IsValidHashkey deal.now a hashlock inner.now
        → CanExtend deal.now inner.now party key.seed → IsValidEntering deal.now party hashlock k) }
    ensures back { IfErr result (λ b. b.key ≡ key) }
{
    match Unsigned::new(alloc, party, inner.path.as_slice(), inner.sigs.as_slice()) {
        Ok(lists) => Ok(lists.sign(deal, inner.lock, &inner.secret, key)),
        Err(NoMemory) => Err(KeyBack { key }),
    }
}
