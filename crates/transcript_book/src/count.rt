//! The line before the entries of an arc.

ghost use Rattle.swap_base.specs.Fault.{Gives};
ghost use Rattle.transcript_book.specs.Reading.{parse_first_field, bounded_number};
ghost use Rattle.transcript_book.specs.Counts.{parse_limited_count, just, ledger_word, words_count};
ghost use Rattle.transcript_book.specs.Taking.{Takes};

use crate::field::{nothing_more, word};
use crate::number::{WordFault, decimal_number, misspelt, read_bounded};
use crate::text_parts::Parts;
use swap_base::ArcId;

fn ledger_word(word: &[u8]) -> Result<(), WordFault>
    ensures { Gives (λ u. u) result (ledger_word word.now) }
{
    if word == b"ledger".as_slice() {
        Ok(())
    } else {
        Err(misspelt())
    }
}

/// The word before the arc of a ledger.
#[tactic(auto, unfolding(crate::specs::Reading::parse_first_field))]
pub fn ledger_field(fields: &mut Parts<'_>) -> Result<(), WordFault>
    ensures { Takes (λ u. u) result fields.new (parse_first_field ledger_word fields.old) }
{
    ledger_word(word(fields)?)
}

fn just(number: u64, word: &[u8]) -> Result<(), WordFault>
    ensures { Gives (λ u. u) result (just number word.now) }
{
    let n = decimal_number(word)?;
    if n == number { Ok(()) } else { Err(misspelt()) }
}

#[tactic(auto, unfolding(crate::specs::Reading::parse_first_field))]
fn arc_field(arc: ArcId, fields: &mut Parts<'_>) -> Result<(), WordFault>
    ensures { Takes (λ u. u) result fields.new (parse_first_field (just arc) fields.old) }
{
    just(arc as u64, word(fields)?)
}

fn parse_count(word: &[u8]) -> Result<u32, WordFault>
    ensures { Gives (λ n. n) result (bounded_number 20065 word.now) }
{
    Ok(read_bounded(20_065, word)? as u32)
}

#[tactic(auto, unfolding(crate::specs::Reading::parse_first_field))]
fn count_field(fields: &mut Parts<'_>) -> Result<u32, WordFault>
    ensures { Takes (λ n. n) result fields.new (parse_first_field (bounded_number 20065) fields.old) }
{
    parse_count(word(fields)?)
}

#[tactic(auto, unfolding(crate::specs::Counts::words_count))]
fn words_count(arc: ArcId, fields: &mut Parts<'_>) -> Result<u32, WordFault>
    ensures { Gives (λ n. n) result (words_count arc fields.old) }
{
    ledger_field(fields)?;
    arc_field(arc, fields)?;
    let count = count_field(fields)?;
    nothing_more(fields)?;
    Ok(count)
}

/// How many entries the line before those of an arc tells, or that no writer writes the line.
#[tactic(auto, unfolding(crate::specs::Counts::parse_limited_count))]
pub fn read_count(arc: ArcId, line: &[u8]) -> Result<u32, WordFault>
    ensures { Gives (λ n. n) result (parse_limited_count arc line.now) }
{
    words_count(arc, &mut Parts::new(b' ', line))
}
