//! The fields of a line: each call takes the first of those that are to come.

ghost use Rattle.std.specs.Prelude.{◌<◌, ◌≤◌, ◌^◌, IfOk};
ghost use Rattle.swap_base.specs.Fault.{Gives};
ghost use Rattle.transcript_book.specs.Reading.{lower_hex_digest, equals, parse_first_field, first_field, listed_field, nothing_more, bounded_number, decimal_number, parse_signature};
ghost use Rattle.transcript_book.specs.Taking.{Takes};

use crate::digits::lower_hex_digest;
use crate::lists::{make_path, parse_signatures};
use crate::number::{WordFault, decimal_number, misspelt, parse_byte, parse_small, read_bounded};
use crate::text_parts::Parts;
use hashkey_path::SigList;
use std::alloc::Global;
use swap_base::Digest;
use swap_digraph::PathList;

/// A field as it stands.
pub fn word<'a>(fields: &mut Parts<'a>) -> Result<&'a [u8], WordFault>
    ensures { Takes (λ w. w.now) result fields.new (first_field fields.old) }
{
    match fields.next() {
        Some(word) => Ok(word),
        None => Err(misspelt()),
    }
}

/// A number below 2^64.
#[tactic(auto, unfolding(crate::specs::Reading::parse_first_field))]
pub fn number_field(fields: &mut Parts<'_>) -> Result<u64, WordFault>
    ensures { Takes (λ n. n) result fields.new (parse_first_field decimal_number fields.old) }
{
    decimal_number(word(fields)?)
}

/// A number below 2^32.
#[tactic(auto, unfolding(crate::specs::Reading::parse_first_field))]
pub fn small_field(fields: &mut Parts<'_>) -> Result<u32, WordFault>
    ensures { Takes (λ n. n) result fields.new (parse_first_field (bounded_number (2 ^ 32)) fields.old) }
{
    parse_small(word(fields)?)
}

/// A number below 256.
#[tactic(auto, unfolding(crate::specs::Reading::parse_first_field))]
pub fn byte_field(fields: &mut Parts<'_>) -> Result<u8, WordFault>
    ensures { Takes (λ n. n) result fields.new (parse_first_field (bounded_number 256) fields.old) }
{
    parse_byte(word(fields)?)
}

/// A number below a limit that a byte can say.
#[tactic(auto, unfolding(crate::specs::Reading::parse_first_field))]
pub fn bounded_field(limit: usize, fields: &mut Parts<'_>) -> Result<u8, WordFault>
    requires { limit ≤ 256 }
    ensures exact { Takes (λ n. n) result fields.new (parse_first_field (bounded_number limit) fields.old) }
    ensures below { IfOk result (λ n. n < limit) }
{
    let n = read_bounded(limit as u64, word(fields)?)?;
    Ok(n as u8)
}

/// A digest.
#[tactic(auto, unfolding(crate::specs::Reading::parse_first_field))]
pub fn digest_field(fields: &mut Parts<'_>) -> Result<Digest, WordFault>
    ensures { Takes (λ d. d) result fields.new (parse_first_field lower_hex_digest fields.old) }
{
    lower_hex_digest(word(fields)?)
}

/// A path.
#[tactic(auto, unfolding(crate::specs::Reading::parse_first_field))]
pub fn path_field(alloc: Global, fields: &mut Parts<'_>) -> Result<PathList, WordFault>
    ensures { Takes (λ l. l) result fields.new (parse_first_field (listed_field (bounded_number 256)) fields.old) }
{
    make_path(alloc, word(fields)?)
}

/// Signatures, in one field.
#[tactic(auto, unfolding(crate::specs::Reading::parse_first_field))]
pub fn signatures_field(alloc: Global, fields: &mut Parts<'_>) -> Result<SigList, WordFault>
    ensures { Takes (λ l. l) result fields.new (parse_first_field (listed_field parse_signature) fields.old) }
{
    parse_signatures(alloc, word(fields)?)
}

fn equals(word: &[u8]) -> Result<(), WordFault>
    ensures { Gives (λ u. u) result (equals word.now) }
{
    if word == b"=".as_slice() {
        Ok(())
    } else {
        Err(misspelt())
    }
}

/// The sign between a call and its reply.
#[tactic(auto, unfolding(crate::specs::Reading::parse_first_field))]
pub(crate) fn sign_field(fields: &mut Parts<'_>) -> Result<(), WordFault>
    ensures { Takes (λ u. u) result fields.new (parse_first_field equals fields.old) }
{
    equals(word(fields)?)
}

/// No further field.
pub fn nothing_more(fields: &mut Parts<'_>) -> Result<(), WordFault>
    ensures { Gives (λ u. u) result (nothing_more fields.old) }
{
    match fields.next() {
        None => Ok(()),
        Some(_) => Err(misspelt()),
    }
}
