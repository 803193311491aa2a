//! Keys that sign once.

ghost use Rattle.std.specs.Prelude.{◌≡◌, IfOk, IsTrue};
ghost use Rattle.hash_signature.specs.Key.{KeyParts};
ghost use Rattle.hash_signature.specs.Inside.{source_parts};
ghost use Rattle.hash_signature.specs.Signature.{derive_public_key, made_signature, is_valid_signature};

use crate::digits::digits;
use crate::sig::Sig;
use crate::{CHAINS, Digest, LockId, PartyId};
use hash_chains::{Chains, STEPS, carried, chain_starts};
use sha2::{Digest as Hasher, Sha256};
use std::alloc::Global;
use std::fmt;
use std::marker::Model;
use swap_base::NoMemory;

/// Where a key's signature comes from.
#[derive(Drop)]
enum Source {
    /// Each value of the chains: signing only picks one value of each chain.
    Walked(Chains),
    /// What the chains begin with, from where signing walks each as far as the digit of the message
    /// at it says.
    Unwalked {
        seed: Digest,
        party: PartyId,
        lock: LockId,
    },
}

/// A party's key for one lock. Signing spends it, and it can't be copied. It may be let go unused.
///
/// One that was made with its public key keeps each value of its chains, 34 KB in a place of their
/// own. Who spends it or lets it go gives that memory back.
#[derive(Drop)]
pub struct OneTimeKey {
    source: Source,
}

impl Model for OneTimeKey {
    ghost use Rattle.hash_signature.specs.Key.{KeyParts};

    ghost Value = { KeyParts };

    ghost use Rattle.hash_signature.specs.Inside.{source_parts};

    ghost view = { λ k. source_parts k.source };
}

/// The key that a party's seed gives for a lock, with its public key.
pub fn keygen(
    alloc: Global,
    seed: &Digest,
    party: PartyId,
    lock: LockId,
) -> Result<(OneTimeKey, Digest), NoMemory>
    ensures key { IfOk result (λ p. p.0 ≡ record { seed = seed.now; party = party; lock = lock }) }
    ensures public { IfOk result (λ p. p.1 ≡ derive_public_key seed.now party lock) }
{
    let chains = Chains::new(alloc, seed, party, lock)?;
    let public = public_key(&chains);
    let source = Source::Walked(chains);
    Ok((OneTimeKey { source }, public))
}

/// The key that a party's seed gives for a lock, without its public key. It takes no memory and
/// hashes nothing yet; its signature takes half of the hashes that `keygen` does.
pub fn unwalked_key(seed: &Digest, party: PartyId, lock: LockId) -> OneTimeKey
    ensures { result ≡ record { seed = seed.now; party = party; lock = lock } }
{
    OneTimeKey {
        source: Source::Unwalked {
            seed: *seed,
            party,
            lock,
        },
    }
}

fn public_key(chains: &Chains) -> Digest
    ensures { result ≡ derive_public_key chains.now.seed chains.now.party chains.now.lock }
{
    let mut hasher = Sha256::new();
    hasher.update([3u8]);
    'chains: for j in 0..CHAINS {
        hasher.update(chains.value(j, STEPS));
    }
    hasher.finalize()
}

fn picked(chains: &Chains, message: &Digest) -> [Digest; CHAINS]
    ensures { result ≡ made_signature chains.now.seed chains.now.party chains.now.lock message.now }
{
    let wanted = digits(message);
    let mut values = [[0u8; 32]; CHAINS];
    'chains: for j in 0..CHAINS {
        values[j] = *chains.value(j, wanted[j]);
    }
    values
}

fn walked(seed: &Digest, party: PartyId, lock: LockId, message: &Digest) -> [Digest; CHAINS]
    ensures { result ≡ made_signature seed.now party lock message.now }
{
    carried(&chain_starts(seed, party, lock), &digits(message))
}

fn opened_values(source: &Source, message: &Digest) -> [Digest; CHAINS]
    ensures { result ≡ (let key = source_parts source.now in made_signature key.seed key.party key.lock message.now) }
{
    match source {
        Source::Walked(chains) => picked(chains, message),
        Source::Unwalked { seed, party, lock } => walked(seed, *party, *lock, message),
    }
}

impl OneTimeKey {
    /// The key's signature over the message, which spends the key.
    pub fn sign(self, message: &Digest) -> Sig
        ensures value { result ≡ made_signature self.seed self.party self.lock message.now }
        ensures valid { IsTrue (is_valid_signature (derive_public_key self.seed self.party self.lock) message.now result) }
    {
        Sig::new(opened_values(&self.source, message))
    }
}

impl fmt::Debug for OneTimeKey {
    fn fmt<W: fmt::Write>(&self, f: &mut fmt::Formatter<W>) -> fmt::Result {
        f.write_str("OneTimeKey { .. }")
    }
}
