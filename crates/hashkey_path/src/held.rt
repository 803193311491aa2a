//! Hashkeys with two holders, all of whose memory is taken before the key signs.

ghost use Rattle.std.specs.Prelude.{◌≡◌, ◌∷◌, ◌+◌, ◌<◌, IfOk, IfErr, length};
ghost use Rattle.swap_digraph.specs.Deal.{path_limit};
ghost use Rattle.hash_signature.specs.Signature.{made_signature};
ghost use Rattle.hashkey_path.specs.Hashkey.{signing_message};
ghost use Rattle.hashkey_path.specs.Signed.{leaders_key, extended_key};

use crate::hashkey::Hashkey;
use crate::sign::{KeyBack, Unsigned};
use hash_signature::{OneTimeKey, Sig};
use std::alloc::Global;
use swap_base::{Digest, Listed, LockId, NoMemory, PartyId, Shared, TryCopy};
use swap_digraph::Deal;

/// All the memory of a hashkey with two holders: the lists of two equal ones, and a place for each.
#[derive(Drop)]
struct Places {
    lists: Unsigned,
    twin: Unsigned,
    kept: Shared<Hashkey>,
    spare: Shared<Hashkey>,
    ghost path: { twin.path.items ≡ lists.path.items },
    ghost sigs: { twin.sigs.items ≡ lists.sigs.items },
}

/// A place for a hashkey.
fn place(alloc: Global) -> Result<Shared<Hashkey>, NoMemory> {
    Shared::new(
        alloc,
        Hashkey {
            lock: 0,
            secret: [0u8; 32],
            path: Listed::empty(alloc),
            sigs: Listed::empty(alloc),
        },
    )
}

/// Two holders of one hashkey, where `spare` is the one holder of an equal hashkey. It takes no
/// memory.
fn two_holders(kept: Shared<Hashkey>, spare: Shared<Hashkey>) -> (Shared<Hashkey>, Shared<Hashkey>)
    requires { spare ≡ kept }
    ensures one { result.0 ≡ kept }
    ensures other { result.1 ≡ kept }
{
    match kept.copy() {
        Ok(other) => (kept, other),
        Err(NoMemory) => (kept, spare),
    }
}

impl Places {
    fn new(
        alloc: Global,
        party: PartyId,
        rest: &[PartyId],
        inner: &[Sig],
    ) -> Result<Places, NoMemory>
        requires path { length rest.now + 1 < 256 }
        requires sigs { length inner.now < 256 }
        ensures path { IfOk result (λ places. places.lists.path.items ≡ party ∷ rest.now) }
        ensures sigs { IfOk result (λ places. places.lists.sigs.items ≡ inner.now) }
    {
        Ok(Places {
            lists: Unsigned::new(alloc, party, rest, inner)?,
            twin: Unsigned::new(alloc, party, rest, inner)?,
            kept: place(alloc)?,
            spare: place(alloc)?,
        })
    }

    /// Signs with the key, which spends it. It takes no memory.
    fn sign(
        self,
        deal: &Deal,
        lock: LockId,
        secret: &Digest,
        key: OneTimeKey,
    ) -> Result<(Shared<Hashkey>, Shared<Hashkey>), KeyBack>
        ensures exact { let message = signing_message deal.now.id lock self.lists.path.items secret.now self.lists.sigs.items in
            IfOk result (λ held. held.0 ≡ record {
              lock = lock;
              secret = secret.now;
              path = self.lists.path.items;
              sigs = made_signature key.seed key.party key.lock message ∷ self.lists.sigs.items;
            }) }
        ensures equal { IfOk result (λ held. held.1 ≡ held.0) }
        ensures back { IfErr result (λ b. b.key ≡ key) }
    {
        let Places {
            lists,
            twin,
            mut kept,
            mut spare,
        } = self;
        let Some(one) = kept.get_mut() else {
            return Err(KeyBack { key });
        };
        let Some(other) = spare.get_mut() else {
            return Err(KeyBack { key });
        };
        let (signed, same) = lists.sign_twice(twin, deal, lock, secret, key);
        *one = signed;
        *other = same;
        Ok(two_holders(kept, spare))
    }
}

/// The hashkey of a leader, whose path is the party alone, with two holders.
pub fn first_held(
    alloc: Global,
    deal: &Deal,
    lock: LockId,
    secret: &Digest,
    party: PartyId,
    key: OneTimeKey,
) -> Result<(Shared<Hashkey>, Shared<Hashkey>), KeyBack>
    requires party { party < deal.now.graph.n }
    requires of_party { key.party ≡ party }
    requires of_lock { key.lock ≡ lock }
    ensures value { IfOk result (λ held. held.0 ≡ leaders_key deal.now lock secret.now party key.seed) }
    ensures equal { IfOk result (λ held. held.1 ≡ held.0) }
    ensures back { IfErr result (λ b. b.key ≡ key) }
{
    match Places::new(alloc, party, &[], &[]) {
        Ok(places) => places.sign(deal, lock, secret, key),
        Err(NoMemory) => Err(KeyBack { key }),
    }
}

/// The hashkey that extends `inner` by the party, with two holders: the party comes first in its
/// path, and the new signature first among its signatures.
pub fn extend_held(
    alloc: Global,
    deal: &Deal,
    inner: &Hashkey,
    party: PartyId,
    key: OneTimeKey,
) -> Result<(Shared<Hashkey>, Shared<Hashkey>), KeyBack>
    requires party { party < deal.now.graph.n }
    requires of_party { key.party ≡ party }
    requires of_lock { key.lock ≡ inner.now.lock }
    requires few { length inner.now.path < path_limit deal.now }
    requires paired { length inner.now.sigs ≡ length inner.now.path }
    ensures value { IfOk result (λ held. held.0 ≡ extended_key deal.now inner.now party key.seed) }
    ensures equal { IfOk result (λ held. held.1 ≡ held.0) }
    ensures back { IfErr result (λ b. b.key ≡ key) }
{
    match Places::new(alloc, party, inner.path.as_slice(), inner.sigs.as_slice()) {
        Ok(places) => places.sign(deal, inner.lock, &inner.secret, key),
        Err(NoMemory) => Err(KeyBack { key }),
    }
}
