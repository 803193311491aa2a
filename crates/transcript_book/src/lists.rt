//! Lists in one field.

ghost use Rattle.swap_base.specs.Fault.{Gives};
ghost use Rattle.transcript_book.specs.Reading.{parse_each_word, listed_field, bounded_number, parse_signature};

use crate::digits::parse_signature;
use crate::number::{WordFault, parse_byte};
use crate::text_parts::Parts;
use hash_signature::SIGNATURE_BYTES;
use hashkey_path::SigList;
use std::alloc::Global;
use swap_base::Listed;
use swap_digraph::PathList;

fn each_party(alloc: Global, parts: &mut Parts<'_>) -> Result<PathList, WordFault>
    ensures { Gives (λ l. l) result (parse_each_word (bounded_number 256) parts.old) }
{
    let mut list = Vec::new(alloc);
    while let Some(word) = parts.next() {
        list.push(parse_byte(word)?)?;
    }
    Ok(Listed::new(list))
}

/// The path that a field says.
pub(crate) fn make_path(alloc: Global, word: &[u8]) -> Result<PathList, WordFault>
    ensures { Gives (λ l. l) result (listed_field (bounded_number 256) word.now) }
{
    if word == b"-".as_slice() {
        return Ok(Listed::empty(alloc));
    }
    each_party(alloc, &mut Parts::new(b',', word))
}

/// It takes memory for `count` signatures at once, as each has 2 KB.
fn each_signature(alloc: Global, count: usize, parts: &mut Parts<'_>) -> Result<SigList, WordFault>
    ensures { Gives (λ l. l) result (parse_each_word parse_signature parts.old) }
{
    let mut list = Vec::with_capacity(alloc, count)?;
    while let Some(word) = parts.next() {
        list.push(parse_signature(word)?)?;
    }
    Ok(Listed::new(list))
}

/// The signatures that a field says.
pub(crate) fn parse_signatures(alloc: Global, word: &[u8]) -> Result<SigList, WordFault>
    ensures { Gives (λ l. l) result (listed_field parse_signature word.now) }
{
    if word == b"-".as_slice() {
        return Ok(Listed::empty(alloc));
    }
    let count = word.len() / (2 * SIGNATURE_BYTES);
    each_signature(alloc, count, &mut Parts::new(b',', word))
}
