//! Keys, signatures, secrets and hashlocks, against what an independent program gives, and changed
//! ones.

ghost use Rattle.std.specs.Prelude.{◌<◌};

use crate::tests::rows::{answers, parted, word_number};
use hash_signature::{LockId, PartyId, Sig, derive_secret, hashed_value, keygen, verify};
use hex::FromHex;
use sha2::{Digest as Hasher, Sha256};
use std::alloc::{AllocError, Global};
use std::test::Fail;
use swap_base::{Digest, NoMemory, TryCopy};

/// The digest of 64 hex digits, and zeros for another text.
fn digest(text: &str) -> Digest {
    <[u8; 32] as FromHex>::from_hex(text).unwrap_or([0; 32])
}

/// Whether a signature comes back from its bytes.
fn is_in_bytes(sig: &Sig) -> bool {
    *sig == Sig::from_bytes(&sig.to_bytes())
}

/// Whether a copy of a signature equals it.
fn is_copied(sig: &Sig) -> bool {
    match sig.copy() {
        Ok(other) => *sig == other,
        Err(_) => false,
    }
}

/// The digest of the bytes of a signature that holds, comes back from its bytes, and equals a copy;
/// zeros for another.
fn to_digest(public: &Digest, message: &Digest, sig: &Sig) -> Digest {
    if verify(public, message, sig) && is_in_bytes(sig) && is_copied(sig) {
        Sha256::digest(sig.to_bytes())
    } else {
        [0; 32]
    }
}

/// The public key, and the digest of the signature of a message.
fn signed(
    alloc: Global,
    seed: &Digest,
    party: PartyId,
    lock: LockId,
    message: &Digest,
) -> Result<(Digest, Digest), NoMemory> {
    let (key, public) = keygen(alloc, seed, party, lock)?;
    let sig = key.sign(message);
    Ok((public, to_digest(&public, message, &sig)))
}

/// The public key, and the digest of the signature, for a seed, a party, a lock and a message in
/// words.
fn parse_signed(alloc: Global, words: &str) -> Result<(Digest, Digest), NoMemory> {
    let (seed, rest) = parted(words, " ");
    let (party, rest) = parted(rest, " ");
    let (lock, message) = parted(rest, " ");
    signed(
        alloc,
        &digest(seed),
        word_number(party),
        word_number(lock),
        &digest(message),
    )
}

fn digest_hex(alloc: Global, digest: &Digest) -> Result<String, AllocError> {
    hex::encode(alloc, digest.as_slice())
}

fn two_in_hex(alloc: Global, first: &Digest, second: &Digest) -> Result<String, AllocError> {
    let first = digest_hex(alloc, first)?;
    let second = digest_hex(alloc, second)?;
    format!(in alloc; "{first} {second}")
}

/// The public key and the digest of the signature that words ask for.
fn signed_told(alloc: Global, words: &str) -> Result<String, AllocError> {
    match parse_signed(alloc, words) {
        Ok(told) => two_in_hex(alloc, &told.0, &told.1),
        Err(NoMemory) => Err(AllocError),
    }
}

/// The digests that words ask for. The first word says what is hashed.
pub(crate) fn list_digests(alloc: Global, asked: &str) -> Result<String, AllocError> {
    let (word, rest) = parted(asked, " ");
    match word {
        "hash" => digest_hex(alloc, &hashed_value(&digest(rest))),
        "secret" => digest_hex(alloc, &derive_secret(&digest(rest))),
        _ => signed_told(alloc, rest),
    }
}

/// A key's seed, party and lock, and a message, and what an independent program gives for them: the
/// public key and the digest of the signature's bytes. The checksum's digits of the four messages
/// are 3, 12, 0; 0, 0, 0; 1, 13, 14; and 1, 13, 12.
const SIGNATURES: &str = "\
signed 0000000000000000000000000000000000000000000000000000000000000000 0 0 0000000000000000000000000000000000000000000000000000000000000000 => \
    6d38fd065055be89fda3637d7feeb578084b27021313f045a9ef5a58c4e7f1e0 b21be770c1399fd22497599a417b4530836c555acd72b690913c3812a696d8ac
signed 000102030405060708090a0b0c0d0e0f101112131415161718191a1b1c1d1e1f 23 7 ffffffffffffffffffffffffffffffffffffffffffffffffffffffffffffffff => \
    ad9d5184849a5dbe9a40638cc1ae10162c6425744ed81b73fda2835e98bf7aed 24a56bc23ea9542075ef49c3f2a6d8f4c31f1892aa45367b3062d95c0ea81cbd
signed 0707070707070707070707070707070707070707070707070707070707070707 3 1 f53c09ca39717a45c62d9aca8f8113eddbfd5f81dcab0b33b1c1834075225e68 => \
    3d27c828e35d69b4612b99f89f0d33ddd4ee83c686947201b4e86a5ccbe38bcd 582615bf62840b1b0c972694bcf95a8175d24ac483936c4392210d226cfd1a31
signed ffffffffffffffffffffffffffffffffffffffffffffffffffffffffffffffff 255 255 e3b0c44298fc1c149afbf4c8996fb92427ae41e4649b934ca495991b7852b855 => \
    cd1ea73666db24c43cee33957175d3eec485d501b8b9bbcd34d400141b9132fc 91494d47e79747c3be950210134805bd4dd8fe316d87ca9637d144f452f5d793";

/// A hashlock of a secret, and the secret of a seed.
const SECRETS: &str = "\
hash 0000000000000000000000000000000000000000000000000000000000000000 => 66687aadf862bd776c8fc18b8e9f8e20089714856ee233b3902a591d0d5f2925
secret 0000000000000000000000000000000000000000000000000000000000000000 => 96a01e6b435b11ab3359c9bb87ce0223466f1de49448524da0d501bdeefa96ec";

#[test]
fn digests_are_those_of_another_program(rt: HostRuntime) -> Result<(), Fail> {
    answers(rt.alloc(), "signatures", SIGNATURES)?;
    answers(rt.alloc(), "signatures", SECRETS)
}

/// The signature with one byte of a chain changed.
fn changed(sig: &Sig, j: usize) -> Sig
    requires { j < 67 }
{
    let mut values = *sig.values();
    values[j][j % 32] ^= 1;
    Sig::new(values)
}

/// Whether the signature with one byte of a chain changed is another, and is refused.
fn is_refused(public: &Digest, message: &Digest, sig: &Sig, j: usize) -> bool
    requires { j < 67 }
{
    let other = changed(sig, j);
    *sig != other && !verify(public, message, &other)
}

fn refuses_changes(public: &Digest, message: &Digest, sig: &Sig) -> Result<(), Fail> {
    for j in 0..67 {
        if !is_refused(public, message, sig, j) {
            return Err(Fail::new(format_args!("chain {j}")));
        }
    }
    Ok(())
}

/// Whether the signature holds for the message by the key of that seed, party and lock.
fn signature_matches(
    alloc: Global,
    seed: u8,
    party: PartyId,
    lock: LockId,
    message: &Digest,
    sig: &Sig,
) -> Result<bool, NoMemory> {
    let (_key, public) = keygen(alloc, &[seed; 32], party, lock)?;
    Ok(verify(&public, message, sig))
}

/// Whether only the message that was signed, by the seed, party and lock that signed it, is the
/// signature's.
fn is_of_one(alloc: Global, message: &Digest, sig: &Sig) -> Result<bool, NoMemory> {
    let mut other = *message;
    other[31] = 0x5b;
    Ok(
        signature_matches(alloc, 1, 2, 3, message, sig)?
            && !signature_matches(alloc, 1, 2, 3, &other, sig)?
            && !signature_matches(alloc, 2, 2, 3, message, sig)?
            && !signature_matches(alloc, 1, 3, 3, message, sig)?
            && !signature_matches(alloc, 1, 2, 2, message, sig)?,
    )
}

fn refuses_others(alloc: Global, public: &Digest, message: &Digest, sig: &Sig) -> Result<(), Fail> {
    refuses_changes(public, message, sig)?;
    if !is_of_one(alloc, message, sig)? {
        return Err("another message or key".into());
    }
    Ok(())
}

#[test]
fn one_changed_byte_another_message_or_key_is_refused(rt: HostRuntime) -> Result<(), Fail> {
    let message = [0x5a; 32];
    let (key, public) = keygen(rt.alloc(), &[1; 32], 2, 3)?;
    let sig = key.sign(&message);
    refuses_others(rt.alloc(), &public, &message, &sig)
}
