//! Copies of lists and texts put together, with ample memory.

use crate::tests::rows::{answers, no_memory};
use std::alloc::{AllocError, Global};
use std::test::Fail;
use swap_base::{ByteText, Listed, NoMemory, Piece, TryCopy, put, put_whole};

fn to_text(alloc: Global, bytes: &[u8]) -> Result<String, AllocError> {
    String::from_str(alloc, str::from_utf8(bytes).unwrap_or("no text"))
}

/// A copy of a list of one text.
fn copied_list(alloc: Global) -> Result<Listed<ByteText>, NoMemory> {
    let mut list = Listed::empty(alloc);
    list.push(ByteText::from_slice(alloc, b"swap")?)?;
    list.copy()
}

/// The one text of a list.
fn only_text(list: &Listed<ByteText>) -> &[u8] {
    match list.as_slice() {
        [text] if list.len() == 1 => text.as_slice(),
        _ => b"more or fewer than one".as_slice(),
    }
}

fn copied(alloc: Global) -> Result<String, AllocError> {
    match copied_list(alloc) {
        Ok(other) => to_text(alloc, only_text(&other)),
        Err(_) => no_memory(alloc),
    }
}

/// A text, a number and bytes, put one after another, and once more whole.
fn put_together(out: &mut Vec<u8>) -> bool {
    let pieces = [
        Piece::Text("ledger "),
        Piece::Number(10),
        Piece::Bytes(b"!"),
    ];
    put(out, &pieces).is_ok() && put_whole(out, &pieces).is_ok()
}

fn pieces(alloc: Global) -> Result<String, AllocError> {
    let mut out = Vec::new(alloc);
    if put_together(&mut out) {
        to_text(alloc, &out)
    } else {
        no_memory(alloc)
    }
}

/// The text of a copied list of one, or pieces put together.
pub(crate) fn list_told(alloc: Global, asked: &str) -> Result<String, AllocError> {
    if asked == "copy" {
        copied(alloc)
    } else {
        pieces(alloc)
    }
}

#[test]
fn lists_and_texts(rt: HostRuntime) -> Result<(), Fail> {
    answers(
        rt.alloc(),
        "lists",
        "copy => swap\npieces => ledger 10!ledger 10!",
    )
}
