//! A text put together from pieces.

ghost use Rattle.std.specs.Prelude.{◌≡◌, ◌++◌, OnErr, OnOk, drop, length};
ghost use Rattle.swap_base.specs.Text.{piece_text, pieces_text};

use crate::fault::NoMemory;

/// A piece of a text.
#[derive(Clone, Copy)]
pub enum Piece<'a> {
    Text(&'a str),
    Bytes(&'a [u8]),
    /// Written in decimal, without leading zeros.
    Number(u64),
}

fn put_piece(out: &mut Vec<u8>, piece: Piece) -> Result<(), NoMemory>
    ensures ok { OnOk result (out.new.items ≡ out.old.items ++ piece_text piece.entry) }
    ensures err { OnErr result (out.new.items ≡ out.old.items) }
{
    match piece {
        Piece::Text(text) => out.extend_from_slice(text.as_bytes())?,
        Piece::Bytes(bytes) => out.extend_from_slice(bytes)?,
        Piece::Number(number) => {
            let digits = number.to_string(*out.allocator())?;
            out.extend_from_slice(digits.as_bytes())?
        }
    }
    Ok(())
}

fn put_each(out: &mut Vec<u8>, pieces: &[Piece]) -> Result<(), NoMemory>
    ensures ok { OnOk result (out.new.items ≡ out.old.items ++ pieces_text pieces.now) }
    ensures stands { OnErr result (out.new.items ≡ out.old.items ++ drop (length out.old.items) out.new.items) }
{
    for piece in pieces {
        put_piece(out, *piece)?;
    }
    Ok(())
}

/// Appends the pieces, one after another. After want of memory some of them stand there.
pub fn put(out: &mut Vec<u8>, pieces: &[Piece]) -> Result<(), NoMemory>
    ensures { OnOk result (out.new.items ≡ out.old.items ++ pieces_text pieces.now) }
{
    put_each(out, pieces)
}

/// Appends the pieces, one after another. Want of memory leaves the text as it was.
pub fn put_whole(out: &mut Vec<u8>, pieces: &[Piece]) -> Result<(), NoMemory>
    ensures ok { OnOk result (out.new.items ≡ out.old.items ++ pieces_text pieces.now) }
    ensures err { OnErr result (out.new.items ≡ out.old.items) }
{
    let before = out.len();
    let done = put_each(out, pieces);
    if done.is_err() {
        out.truncate(before);
    }
    done
}
