//! Signatures, and the test whether one is valid.

ghost use Rattle.std.specs.Prelude.{◌≡◌, ◌<◌, List, ℕ};
ghost use Rattle.swap_base.specs.Text.{joined};
ghost use Rattle.hash_signature.specs.Signature.{signature_chain_end, digest_of_ends, for_chains, is_valid_signature, signature_value, text_values};

use crate::digits::{digits, rests};
use crate::{CHAINS, Digest};
use hash_chains::carried;
use sha2::{Digest as Hasher, Sha256};
use std::marker::Model;
use swap_base::{NoMemory, TryCopy};

/// The length of a signature's bytes.
pub const SIGNATURE_BYTES: usize = 2144;

/// A signature: one value for each of the 67 chains, which contracts see as their list.
#[derive(Debug, Drop, PartialEq, Eq)]
pub struct Sig {
    values: [Digest; CHAINS],
}

impl Model for Sig {
    ghost Value = { List (List ℕ) };

    ghost view = { λ s. s.values };

    ghost inverse = { λ v. record { values = v } };
}

fn signature_value(bytes: &[u8; SIGNATURE_BYTES], i: usize) -> Digest
    requires { i < 67 }
    ensures { result ≡ signature_value bytes.now i }
{
    let mut value = [0u8; 32];
    value.copy_from_slice(&bytes[32 * i..32 * i + 32]);
    value
}

fn joined_value_bytes(values: &[Digest; CHAINS]) -> [u8; SIGNATURE_BYTES]
    ensures bytes { result ≡ joined values.now }
    ensures values { text_values result ≡ values.now }
{
    let mut bytes = [0u8; SIGNATURE_BYTES];
    'values: for i in 0..CHAINS {
        bytes[32 * i..32 * i + 32].copy_from_slice(&values[i]);
    }
    bytes
}

impl Sig {
    /// The signature with these values, in the order of the chains.
    pub fn new(values: [Digest; CHAINS]) -> Sig
        ensures { result ≡ values }
    {
        Sig { values }
    }

    /// The values, in the order of the chains.
    pub fn values(&self) -> &[Digest; CHAINS]
        ensures { result.now ≡ self.now }
    {
        &self.values
    }

    /// The signature whose values follow each other in these bytes.
    pub fn from_bytes(bytes: &[u8; SIGNATURE_BYTES]) -> Sig
        ensures values { result ≡ text_values bytes.now }
        ensures bytes { joined result ≡ bytes.now }
    {
        let mut values = [[0u8; 32]; CHAINS];
        'values: for i in 0..CHAINS {
            values[i] = signature_value(bytes, i);
        }
        Sig { values }
    }

    /// The bytes of the values, in order.
    pub fn to_bytes(&self) -> [u8; SIGNATURE_BYTES]
        ensures bytes { result ≡ joined self.now }
        ensures values { text_values result ≡ self.now }
    {
        joined_value_bytes(&self.values)
    }
}

impl TryCopy for Sig {
    /// An equal signature. It takes no memory.
    fn copy(&self) -> Result<Sig, NoMemory>
        ensures { result ≡ Ok self.now }
    {
        Ok(Sig {
            values: self.values,
        })
    }
}

// The digest of the ends that the values are carried on to.
fn digest_of_carried(message: &Digest, values: &[Digest; CHAINS]) -> Digest
    ensures { result ≡ digest_of_ends (for_chains (signature_chain_end message.now values.now)) }
{
    let ends = carried(values, &rests(&digits(message)));
    let mut hasher = Sha256::new();
    hasher.update([3u8]);
    'chains: for j in 0..CHAINS {
        hasher.update(ends[j]);
    }
    hasher.finalize()
}

/// Whether the signature is valid for the public key and the message: its values, each carried on
/// by 15 steps less the digit at its chain, are the ends whose digest is the public key.
#[tactic(auto, unfolding(crate::specs::Signature::is_valid_signature))]
pub fn verify(public: &Digest, message: &Digest, sig: &Sig) -> bool
    ensures { result ≡ is_valid_signature public.now message.now sig.now }
{
    digest_of_carried(message, &sig.values) == *public
}
