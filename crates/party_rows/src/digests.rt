//! The lines that tell a digest behind a word: a party's seed, and what was agreed on.

ghost use Rattle.swap_base.specs.Fault.{Gives};
ghost use Rattle.transcript_book.specs.Taking.{Takes};
ghost use Rattle.transcript_book.specs.Between.{separated_parts};
ghost use Rattle.transcript_book.specs.Reading.{parse_first_field};
ghost use Rattle.party_rows.specs.Digests.{agreed_line, digest_line, digest_told, seed_line, read_seed_line, this_word, told_digest};
ghost use Rattle.party_rows.specs.Lines.{TakesFirstLine};

use crate::lines::{first_line, refused};
use command_input::{HeaderFault, Reason};
use std::alloc::Global;
use swap_base::{Digest, Fault};
use transcript_book::{Parts, WordFault, digest_field, misspelt, nothing_more, word as next_word};

fn same_word(word: &[u8], field: &[u8]) -> Result<(), WordFault>
    ensures { Gives (λ u. u) result (this_word word.now field.now) }
{
    if field == word {
        Ok(())
    } else {
        Err(misspelt())
    }
}

/// Takes a field, which has to be that word.
#[tactic(auto, unfolding(transcript_book::specs::Reading::parse_first_field))]
pub fn this_word(word: &[u8], fields: &mut Parts<'_>) -> Result<(), WordFault>
    ensures { Takes (λ u. u) result fields.new (parse_first_field (this_word word.now) fields.old) }
{
    same_word(word, next_word(fields)?)
}

#[tactic(auto, unfolding(crate::specs::Digests::told_digest))]
fn told_digest(word: &[u8], fields: &mut Parts<'_>) -> Result<Digest, WordFault>
    ensures { Gives (λ d. d) result (told_digest word.now fields.old) }
{
    this_word(word, fields)?;
    let digest = digest_field(fields)?;
    nothing_more(fields)?;
    Ok(digest)
}

fn read_told_digest(word: &[u8], line: &[u8]) -> Result<Digest, WordFault>
    ensures { Gives (λ d. d) result (told_digest word.now (separated_parts 32 line.now)) }
{
    told_digest(word, &mut Parts::new(b' ', line))
}

#[tactic(auto, unfolding(crate::specs::Digests::digest_told))]
fn digest_told(alloc: Global, word: &[u8], number: u32, line: &[u8]) -> Result<Digest, HeaderFault>
    ensures { Gives (λ d. d) result (digest_told word.now number line.now) }
{
    match read_told_digest(word, line) {
        Ok(digest) => Ok(digest),
        Err(Fault::Refused(_)) => Err(refused(alloc, Reason::BadLine(number))),
        Err(Fault::NoMemory) => Err(Fault::NoMemory),
    }
}

#[tactic(auto, unfolding(crate::specs::Digests::digest_line))]
fn digest_line(
    alloc: Global,
    word: &[u8],
    number: u32,
    lines: &mut Parts<'_>,
) -> Result<Digest, HeaderFault>
    ensures { TakesFirstLine (λ d. d) result lines.new (digest_line word.now number lines.old) }
{
    let line = first_line(alloc, lines)?;
    digest_told(alloc, word, number, line)
}

/// The seed that the line of that number tells.
pub fn read_seed_line(alloc: Global, number: u32, line: &[u8]) -> Result<Digest, HeaderFault>
    ensures { Gives (λ d. d) result (read_seed_line number line.now) }
{
    digest_told(alloc, b"seed".as_slice(), number, line)
}

/// Takes the line of that number, which tells a seed.
pub fn seed_line(alloc: Global, number: u32, lines: &mut Parts<'_>) -> Result<Digest, HeaderFault>
    ensures { TakesFirstLine (λ d. d) result lines.new (seed_line number lines.old) }
{
    digest_line(alloc, b"seed".as_slice(), number, lines)
}

/// Takes the line of that number, which tells the digest that was agreed on.
pub fn agreed_line(alloc: Global, number: u32, lines: &mut Parts<'_>) -> Result<Digest, HeaderFault>
    ensures { TakesFirstLine (λ d. d) result lines.new (agreed_line number lines.old) }
{
    digest_line(alloc, b"agreed".as_slice(), number, lines)
}
