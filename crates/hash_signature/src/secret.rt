//! A leader's secret and its hashlock.

ghost use Rattle.std.specs.Prelude.{◌≡◌};
ghost use Rattle.hash_signature.specs.Signature.{hashed_value, derive_secret};

use crate::Digest;
use sha2::{Digest as Hasher, Sha256};

/// The secret that is made from a party's seed.
pub fn derive_secret(seed: &Digest) -> Digest
    ensures { result ≡ derive_secret seed.now }
{
    let mut hasher = Sha256::new();
    hasher.update([5u8]);
    hasher.update(seed);
    hasher.finalize()
}

/// The hashlock of a secret: the SHA-256 digest of its 32 bytes.
pub fn hashed_value(secret: &Digest) -> Digest
    ensures { result ≡ hashed_value secret.now }
{
    Sha256::digest(secret)
}
