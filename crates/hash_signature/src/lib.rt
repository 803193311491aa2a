//! One-time signatures made of chains of SHA-256, secrets and their hashlocks.
//!
//! A signer has one key for each party and lock. Its public key is the digest of the ends of 67
//! chains, and a signature opens each chain as far as the digit of the message at that chain says.
//! Who signs twice with one key gives others the means to sign.
//!
//! Read `specs/Signature.antt` first: `is_valid_signature` says what `verify` answers, and
//! `made_signature` what `sign` does.
#![tactic(auto)]

mod digits;
mod key;
mod law;
mod same;
mod secret;
mod sig;

pub use hash_chains::CHAINS;
pub use key::{OneTimeKey, keygen, unwalked_key};
pub use law::checksum_law;
pub use same::same_sigs;
pub use secret::{derive_secret, hashed_value};
pub use sig::{SIGNATURE_BYTES, Sig, verify};
pub use swap_base::{Digest, LockId, PartyId};
