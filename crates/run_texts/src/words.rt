//! The fields of an entry's line.

ghost use Rattle.std.specs.Prelude.{◌≡◌, ◌∷◌, ◌++◌, OnOk, decimal, map};
ghost use Rattle.hex.specs.Hex.{encode_lower};
ghost use Rattle.swap_base.specs.Text.{lines};
ghost use Rattle.transcript_book.specs.Words.{list_word, signature_word};
ghost use Rattle.run_texts.specs.Texts.{digest_after_space, party_after_comma, signature_words};

use escrow_core::LockList;
use hash_signature::Sig;
use swap_base::{Digest, NoMemory, PartyId, Piece, put};

/// Appends the digits of bytes.
pub fn put_digits(out: &mut Vec<u8>, bytes: &[u8]) -> Result<(), NoMemory>
    ensures { OnOk result (out.new.items ≡ out.old.items ++ encode_lower bytes.now) }
{
    let digits = hex::encode(*out.allocator(), bytes)?;
    out.extend_from_slice(digits.as_bytes())?;
    Ok(())
}

fn put_next_lock(out: &mut Vec<u8>, lock: &Digest) -> Result<(), NoMemory>
    ensures { OnOk result (out.new.items ≡ out.old.items ++ digest_after_space 0 lock.now) }
{
    put(out, &[Piece::Text(" ")])?;
    put_digits(out, lock.as_slice())
}

/// Appends digests, each after a space.
pub(crate) fn put_locks(out: &mut Vec<u8>, locks: &LockList) -> Result<(), NoMemory>
    ensures { OnOk result (out.new.items ≡ out.old.items ++ lines digest_after_space 0 locks.now) }
{
    for lock in 0..locks.len() {
        put_next_lock(out, &locks.get(lock))?;
    }
    Ok(())
}

fn put_party(out: &mut Vec<u8>, p: PartyId) -> Result<(), NoMemory>
    ensures { OnOk result (out.new.items ≡ out.old.items ++ decimal p) }
{
    put(out, &[Piece::Number(p as u64)])
}

fn put_next_party(out: &mut Vec<u8>, p: PartyId) -> Result<(), NoMemory>
    ensures { OnOk result (out.new.items ≡ out.old.items ++ party_after_comma 0 p) }
{
    put(out, &[Piece::Text(","), Piece::Number(p as u64)])
}

fn put_further_parties(out: &mut Vec<u8>, path: &[PartyId]) -> Result<(), NoMemory>
    ensures { OnOk result (out.new.items ≡ out.old.items ++ lines party_after_comma 0 path.now) }
{
    for p in path {
        put_next_party(out, *p)?;
    }
    Ok(())
}

fn put_parties(out: &mut Vec<u8>, first: PartyId, further: &[PartyId]) -> Result<(), NoMemory>
    ensures { OnOk result (out.new.items ≡ out.old.items ++ list_word (map decimal (first ∷ further.now))) }
{
    put_party(out, first)?;
    put_further_parties(out, further)
}

/// Appends a path in one field.
pub fn put_path(out: &mut Vec<u8>, path: &[PartyId]) -> Result<(), NoMemory>
    ensures { OnOk result (out.new.items ≡ out.old.items ++ list_word (map decimal path.now)) }
{
    match path {
        [] => put(out, &[Piece::Text("-")]),
        [first, further @ ..] => put_parties(out, *first, further),
    }
}

fn put_signature(out: &mut Vec<u8>, sig: &Sig) -> Result<(), NoMemory>
    ensures { OnOk result (out.new.items ≡ out.old.items ++ signature_word sig.now) }
{
    let bytes = sig.to_bytes();
    put_digits(out, bytes.as_slice())
}

fn put_next_signature(out: &mut Vec<u8>, sig: &Sig) -> Result<(), NoMemory>
    ensures { OnOk result (out.new.items ≡ out.old.items ++ signature_words 0 sig.now) }
{
    put(out, &[Piece::Text(",")])?;
    put_signature(out, sig)
}

fn put_further_signatures(out: &mut Vec<u8>, sigs: &[Sig]) -> Result<(), NoMemory>
    ensures { OnOk result (out.new.items ≡ out.old.items ++ lines signature_words 0 sigs.now) }
{
    for sig in sigs {
        put_next_signature(out, sig)?;
    }
    Ok(())
}

fn put_each_signature(out: &mut Vec<u8>, first: &Sig, further: &[Sig]) -> Result<(), NoMemory>
    ensures { OnOk result (out.new.items ≡ out.old.items ++ list_word (map signature_word (first.now ∷ further.now))) }
{
    put_signature(out, first)?;
    put_further_signatures(out, further)
}

/// Appends signatures in one field.
pub fn put_signatures(out: &mut Vec<u8>, sigs: &[Sig]) -> Result<(), NoMemory>
    ensures { OnOk result (out.new.items ≡ out.old.items ++ list_word (map signature_word sigs.now)) }
{
    match sigs {
        [] => put(out, &[Piece::Text("-")]),
        [first, further @ ..] => put_each_signature(out, first, further),
    }
}
