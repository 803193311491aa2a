//! A line behind the ledgers: how high a chain stands, or in how many heights a call lands on it.

ghost use Rattle.std.specs.Prelude.{◌≡◌, ◌<◌, ◌≤◌, IfOk};
ghost use Rattle.swap_base.specs.Fault.{Gives};
ghost use Rattle.transcript_book.specs.Reading.{parse_first_field, bounded_number};
ghost use Rattle.transcript_book.specs.Taking.{Takes};
ghost use Rattle.transcript_book.specs.Between.{separated_parts};
ghost use Rattle.told_ledgers.specs.Chains.{chain_line_said, chain_word, chain_words, is_chain_line, with_chain_line};

use crate::heading::arc_field;
use crate::told_ledger::ToldLedger;
use swap_base::ArcId;
use transcript_book::{Parts, WordFault, misspelt, nothing_more, read_bounded, word};

/// What a line behind the ledgers tells of a chain.
#[derive(Clone, Copy)]
pub enum ChainWord {
    /// The height of its tip.
    Now,
    /// In how many heights a call lands.
    Margin,
}

/// A line behind the ledgers.
#[derive(Clone, Copy)]
pub struct ChainLine {
    pub tells: ChainWord,
    pub arc: ArcId,
    pub heights: u32,
}

fn chain_word(word: &[u8]) -> Result<ChainWord, WordFault>
    ensures { Gives (λ w. w) result (chain_word word.now) }
{
    if word == b"now".as_slice() {
        Ok(ChainWord::Now)
    } else if word == b"margin".as_slice() {
        Ok(ChainWord::Margin)
    } else {
        Err(misspelt())
    }
}

#[tactic(auto, unfolding(transcript_book::specs::Reading::parse_first_field))]
fn chain_field(fields: &mut Parts<'_>) -> Result<ChainWord, WordFault>
    ensures { Takes (λ w. w) result fields.new (parse_first_field chain_word fields.old) }
{
    chain_word(word(fields)?)
}

fn heights_word(word: &[u8]) -> Result<u32, WordFault>
    ensures { Gives (λ n. n) result (bounded_number 1000001 word.now) }
{
    Ok(read_bounded(1_000_001, word)? as u32)
}

#[tactic(auto, unfolding(transcript_book::specs::Reading::parse_first_field))]
fn heights_field(fields: &mut Parts<'_>) -> Result<u32, WordFault>
    ensures { Takes (λ n. n) result fields.new (parse_first_field (bounded_number 1000001) fields.old) }
{
    heights_word(word(fields)?)
}

#[tactic(auto, unfolding(crate::specs::Chains::chain_words))]
fn chain_words(arcs: u64, fields: &mut Parts<'_>) -> Result<ChainLine, WordFault>
    requires { arcs ≤ 128 }
    ensures exact { Gives (λ l. l) result (chain_words arcs fields.old) }
    ensures below { IfOk result (λ l. l.arc < arcs) }
{
    let tells = chain_field(fields)?;
    let arc = arc_field(0, arcs, fields)?;
    let heights = heights_field(fields)?;
    nothing_more(fields)?;
    Ok(ChainLine {
        tells,
        arc,
        heights,
    })
}

/// What a line behind the ledgers tells, whose arc is below a number.
#[tactic(auto, unfolding(crate::specs::Chains::chain_line_said))]
pub(crate) fn chain_line_said(arcs: u64, line: &[u8]) -> Result<ChainLine, WordFault>
    requires { arcs ≤ 128 }
    ensures exact { Gives (λ l. l) result (chain_line_said arcs line.now) }
    ensures below { IfOk result (λ l. l.arc < arcs) }
{
    chain_words(arcs, &mut Parts::new(b' ', line))
}

/// Whether a line's first word is that of a line behind the ledgers.
#[tactic(auto, unfolding(crate::specs::Chains::is_chain_line))]
pub(crate) fn is_chain_line(line: &[u8]) -> bool
    ensures { result ≡ is_chain_line (separated_parts 32 line.now) }
{
    match Parts::new(b' ', line).next() {
        Some(word) => word == b"now".as_slice() || word == b"margin".as_slice(),
        None => false,
    }
}

/// Notes what the line tells of the ledger's chain, which was not told before.
pub(crate) fn note_chain(ledger: &mut ToldLedger, line: ChainLine) -> Result<(), WordFault>
    ensures exact { Gives (λ _. ledger.new) result (with_chain_line line ledger.old) }
    ensures history { ledger.new.history ≡ ledger.old.history }
{
    match line.tells {
        ChainWord::Now => {
            if ledger.tip.is_some() {
                return Err(misspelt());
            }
            ledger.tip = Some(line.heights);
        }
        ChainWord::Margin => {
            if ledger.margin.is_some() {
                return Err(misspelt());
            }
            ledger.margin = Some(line.heights);
        }
    }
    Ok(())
}
