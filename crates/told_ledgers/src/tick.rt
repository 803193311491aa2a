//! The line of a tick.

ghost use Rattle.swap_base.specs.Fault.{Gives};
ghost use Rattle.transcript_book.specs.Reading.{parse_first_field};
ghost use Rattle.transcript_book.specs.Taking.{Takes};
ghost use Rattle.told_ledgers.specs.Words.{line_tick, some_heights, tick_sign, words_tick};

use transcript_book::{Parts, WordFault, misspelt, nothing_more, number_field, word};

fn tick_sign(word: &[u8]) -> Result<(), WordFault>
    ensures { Gives (λ u. u) result (tick_sign word.now) }
{
    if word == b"t".as_slice() {
        Ok(())
    } else {
        Err(misspelt())
    }
}

#[tactic(auto, unfolding(transcript_book::specs::Reading::parse_first_field))]
fn tick_field(fields: &mut Parts<'_>) -> Result<(), WordFault>
    ensures { Takes (λ u. u) result fields.new (parse_first_field tick_sign fields.old) }
{
    tick_sign(word(fields)?)
}

fn some_heights(by: u64) -> Result<u64, WordFault>
    ensures { Gives (λ k. k) result (some_heights by) }
{
    if 1 <= by { Ok(by) } else { Err(misspelt()) }
}

#[tactic(auto, unfolding(crate::specs::Words::words_tick))]
fn words_tick(fields: &mut Parts<'_>) -> Result<u64, WordFault>
    ensures { Gives (λ k. k) result (words_tick fields.old) }
{
    tick_field(fields)?;
    let by = number_field(fields)?;
    nothing_more(fields)?;
    some_heights(by)
}

/// By how many heights a ledger ticks by the line, if it is that of a tick.
#[tactic(auto, unfolding(crate::specs::Words::line_tick))]
pub(crate) fn line_tick(line: &[u8]) -> Result<u64, WordFault>
    ensures { Gives (λ k. k) result (line_tick line.now) }
{
    words_tick(&mut Parts::new(b' ', line))
}
