//! The lines of context.

ghost use Rattle.std.specs.Prelude.{◌≡◌, ◌≤◌, ◌∷◌, MatchOption, true};
ghost use Rattle.std.specs.List.{list_all};
ghost use Rattle.swap_base.specs.Fault.{Gives};
ghost use Rattle.transcript_book.specs.Taking.{Takes};
ghost use Rattle.transcript_book.specs.Reading.{parse_first_field};
ghost use Rattle.party_rows.specs.Lines.{or_bad_line, TakesFirstLine};
ghost use Rattle.party_terms.specs.Context.{parse_context_line, context_arc, nonempty_word, parse_context, is_context_line, is_plain_line, is_printable, check_room, with_context_line};
ghost use Rattle.party_terms.specs.Inside.{IsBehindContext};

use command_input::{HeaderFault, Reason};
use party_rows::{refused, this_word};
use std::alloc::Global;
use swap_base::{ArcId, ByteText, Fault, Listed};
use transcript_book::{Parts, WordFault, bounded_field, misspelt, word};

/// The most lines of context.
const MOST_LINES: usize = 1_024;

/// A line of context: what wallets say of an arc beside the deal.
#[derive(Debug, Drop)]
pub struct ContextLine {
    pub arc: ArcId,
    /// The line as it stands.
    pub line: ByteText,
}

/// Lines of context, and the number of the line behind them.
#[derive(Debug, Drop)]
pub struct Context {
    pub list: Listed<ContextLine>,
    pub next: u32,
}

fn is_printable(byte: u8) -> bool
    ensures { result ≡ is_printable byte }
{
    32 <= byte && byte <= 126
}

fn are_printable(line: &[u8]) -> bool
    ensures { result ≡ list_all is_printable line.now }
{
    line.iter().all(|byte| is_printable(*byte))
}

fn is_plain_line(line: &[u8]) -> bool
    ensures { result ≡ is_plain_line line.now }
{
    line.len() <= 256 && are_printable(line)
}

fn nonempty_word(word: &[u8]) -> Result<(), WordFault>
    ensures { Gives (λ u. u) result (nonempty_word word.now) }
{
    if word.is_empty() {
        Err(misspelt())
    } else {
        Ok(())
    }
}

#[tactic(auto, unfolding(transcript_book::specs::Reading::parse_first_field))]
fn text_field(fields: &mut Parts<'_>) -> Result<(), WordFault>
    ensures { Takes (λ u. u) result fields.new (parse_first_field nonempty_word fields.old) }
{
    nonempty_word(word(fields)?)
}

#[tactic(auto, unfolding(crate::specs::Context::context_arc))]
fn context_arc(arcs: usize, fields: &mut Parts<'_>) -> Result<ArcId, WordFault>
    requires { arcs ≤ 256 }
    ensures { Gives (λ a. a) result (context_arc arcs fields.old) }
{
    this_word(b"about".as_slice(), fields)?;
    let arc = bounded_field(arcs, fields)?;
    text_field(fields)?;
    Ok(arc)
}

/// The arc that a line tells something about.
#[tactic(auto, unfolding(crate::specs::Context::parse_context_line))]
fn parse_context_line(arcs: usize, line: &[u8]) -> Result<ArcId, WordFault>
    requires { arcs ≤ 256 }
    ensures { Gives (λ a. a) result (parse_context_line arcs line.now) }
{
    if is_plain_line(line) {
        context_arc(arcs, &mut Parts::new(b' ', line))
    } else {
        Err(misspelt())
    }
}

/// The arc that the line of that number tells something about.
fn said(alloc: Global, arcs: usize, number: u32, line: &[u8]) -> Result<ArcId, HeaderFault>
    requires { arcs ≤ 256 }
    ensures { Gives (λ a. a) result (or_bad_line number (parse_context_line arcs line.now)) }
{
    match parse_context_line(arcs, line) {
        Ok(arc) => Ok(arc),
        Err(Fault::Refused(_)) => Err(refused(alloc, Reason::BadLine(number))),
        Err(Fault::NoMemory) => Err(Fault::NoMemory),
    }
}

fn check_room(alloc: Global, number: u32, list: &[ContextLine]) -> Result<(), HeaderFault>
    ensures { Gives (λ u. u) result (check_room number list.now) }
{
    if list.len() == MOST_LINES {
        let field = ByteText::from_slice(alloc, b"about".as_slice())?;
        return Err(refused(alloc, Reason::OverLimit(number, field, 1_025)));
    }
    Ok(())
}

/// Adds the line of context of that number.
#[tactic(auto, unfolding(crate::specs::Context::with_context_line))]
fn add_context_line(
    alloc: Global,
    arcs: usize,
    number: u32,
    list: &mut Vec<ContextLine>,
    line: &[u8],
) -> Result<(), HeaderFault>
    requires { arcs ≤ 256 }
    ensures { Gives (λ u. list.new.items) result (with_context_line arcs number list.old.items line.now) }
{
    check_room(alloc, number, list)?;
    let arc = said(alloc, arcs, number, line)?;
    let line = ByteText::from_slice(alloc, line)?;
    list.push(ContextLine { arc, line })?;
    Ok(())
}

/// Whether a line's first word is `about`.
#[tactic(auto, unfolding(crate::specs::Context::is_context_line))]
fn is_context_line(line: &[u8]) -> bool
    ensures { result ≡ is_context_line line.now }
{
    match Parts::new(b' ', line).next() {
        Some(word) => word == b"about".as_slice(),
        None => false,
    }
}

/// Takes the next line where it is one of context.
fn next_context_line<'a>(lines: &mut Parts<'a>) -> Option<&'a [u8]>
    ensures { MatchOption result (IsBehindContext lines.old × (lines.new ≡ lines.old)) (λ l. (lines.old ≡ l.now ∷ lines.new) × (is_context_line l.now ≡ true)) }
{
    match lines.peek() {
        Some(line) if is_context_line(line) => {
            let _ = lines.next();
            Some(line)
        }
        _ => None,
    }
}

/// The lines of context of a deal with this number of arcs. The first has that number; lines that
/// aren't of context stay.
#[tactic(auto, unfolding(crate::specs::Context::parse_context))]
pub(crate) fn read_context(
    alloc: Global,
    arcs: usize,
    first: u32,
    lines: &mut Parts<'_>,
) -> Result<Context, HeaderFault>
    requires { arcs ≤ 256 }
    ensures { TakesFirstLine (λ c. c) result lines.new (parse_context arcs first lines.old) }
{
    let mut list = Vec::new(alloc);
    let mut number = first;
    'lines: while let Some(line) = next_context_line(lines) {
        match add_context_line(alloc, arcs, number, &mut list, line) {
            Ok(()) => number = number.saturating_add(1),
            Err(fault) => return Err(fault),
        }
    }
    Ok(Context {
        list: Listed::new(list),
        next: number,
    })
}
