//! The line of a row.

ghost use Rattle.std.specs.Prelude.{◌≡◌, ◌∷◌, ◌++◌, OnOk, IfOk, map};
ghost use Rattle.hex.specs.Hex.{encode_lower};
ghost use Rattle.swap_base.specs.Text.{lines};
ghost use Rattle.transcript_book.specs.Words.{list_word};
ghost use Rattle.party_rows.specs.Inside.{comma_digest};
ghost use Rattle.party_rows.specs.Row.{hashlock_word, row_line};

use crate::row::Row;
use run_texts::put_digits;
use std::alloc::Global;
use swap_base::{ByteText, Digest, NoMemory, Piece, put};

fn put_next_digest(out: &mut Vec<u8>, digest: &Digest) -> Result<(), NoMemory>
    ensures { OnOk result (out.new.items ≡ out.old.items ++ comma_digest 0 digest.now) }
{
    put(out, &[Piece::Text(",")])?;
    put_digits(out, digest.as_slice())
}

fn put_further_digests(out: &mut Vec<u8>, digests: &[Digest]) -> Result<(), NoMemory>
    ensures { OnOk result (out.new.items ≡ out.old.items ++ lines comma_digest 0 digests.now) }
{
    for digest in digests {
        put_next_digest(out, digest)?;
    }
    Ok(())
}

fn put_each_digest(out: &mut Vec<u8>, first: &Digest, further: &[Digest]) -> Result<(), NoMemory>
    ensures { OnOk result (out.new.items ≡ out.old.items ++ list_word (map encode_lower (first.now ∷ further.now))) }
{
    put_digits(out, first.as_slice())?;
    put_further_digests(out, further)
}

/// Appends digests in one field.
fn put_digests(out: &mut Vec<u8>, digests: &[Digest]) -> Result<(), NoMemory>
    ensures { OnOk result (out.new.items ≡ out.old.items ++ list_word (map encode_lower digests.now)) }
{
    match digests {
        [] => put(out, &[Piece::Text("-")]),
        [first, further @ ..] => put_each_digest(out, first, further),
    }
}

fn put_hashlock(out: &mut Vec<u8>, hashlock: &Option<Digest>) -> Result<(), NoMemory>
    ensures { OnOk result (out.new.items ≡ out.old.items ++ hashlock_word hashlock.now) }
{
    match hashlock {
        None => put(out, &[Piece::Text("-")]),
        Some(hashlock) => put_digits(out, hashlock.as_slice()),
    }
}

/// The line of the row of a name, with its line feed.
#[tactic(auto, unfolding(crate::specs::Row::row_line))]
pub(crate) fn row_line(alloc: Global, name: &[u8], row: &Row) -> Result<ByteText, NoMemory>
    ensures { IfOk result (λ t. t ≡ row_line name.now row.now) }
{
    let mut out = Vec::new(alloc);
    put(
        &mut out,
        &[Piece::Text("row "), Piece::Bytes(name), Piece::Text(" ")],
    )?;
    put_hashlock(&mut out, &row.hashlock)?;
    put(&mut out, &[Piece::Text(" ")])?;
    put_digests(&mut out, row.keys.as_slice())?;
    put(&mut out, &[Piece::Text("\n")])?;
    Ok(ByteText::new(out))
}
