//! The lines of what a party hands over.

ghost use Rattle.std.specs.Prelude.{◌≡◌};
ghost use Rattle.swap_base.specs.Fault.{Gives};
ghost use Rattle.party_rows.specs.Lines.{first_line, ended_lines, nameless, no_line, short_header, TakesFirstLine};

use command_input::{HeaderFault, Reason, nameless, with_names};
use offer_moves::check_range;
use std::alloc::Global;
use swap_base::{Fault, Listed};
use transcript_book::Parts;

/// The most bytes of a header line.
///
/// The longest that is written of a deal has fewer than half as many: 128 arcs of 75 bytes, 32 rows
/// of 8 keys of 67 bytes, 8 leaders of 110 bytes and 32 parties of 50 bytes come to less than
/// 30,000.
const HEADER_LIMIT: u64 = 65_536;

/// The fault of a reason that speaks of no party by its number.
pub fn refused(alloc: Global, reason: Reason) -> HeaderFault
    ensures { result ≡ Fault.Refused (nameless reason) }
{
    Fault::Refused(nameless(alloc, reason))
}

/// The lines of a text, each ended by a line feed.
#[tactic(auto, unfolding(crate::specs::Lines::ended_lines))]
pub fn ended_lines<'a>(alloc: Global, text: &'a [u8]) -> Result<Parts<'a>, HeaderFault>
    ensures { Gives (λ p. p) result (ended_lines text.now) }
{
    let count = text.len();
    if count == 0 || text[count - 1] != b'\n' {
        return Err(refused(alloc, Reason::CutShort));
    }
    Ok(Parts::new(b'\n', &text[..count - 1]))
}

/// Takes the first of the lines that are to come.
pub fn first_line<'a>(alloc: Global, lines: &mut Parts<'a>) -> Result<&'a [u8], HeaderFault>
    ensures { TakesFirstLine (λ l. l.now) result lines.new (first_line lines.old) }
{
    match lines.next() {
        Some(line) => Ok(line),
        None => Err(refused(alloc, Reason::CutShort)),
    }
}

/// No further line, which would have that number.
pub fn no_line(alloc: Global, number: u32, lines: &mut Parts<'_>) -> Result<(), HeaderFault>
    ensures { Gives (λ u. u) result (no_line number lines.old) }
{
    match lines.next() {
        None => Ok(()),
        Some(_) => Err(refused(alloc, Reason::BadLine(number))),
    }
}

/// The line of a header isn't too long.
#[tactic(auto, using(command_input::proofs::Named::fails), unfolding(crate::specs::Lines::short_header))]
pub fn short_header(alloc: Global, line: u32, text: &[u8]) -> Result<(), HeaderFault>
    ensures { Gives (λ u. u) result (short_header line text.now) }
{
    match check_range(alloc, line, "header", 0, HEADER_LIMIT, text.len() as u64) {
        Ok(()) => Ok(()),
        Err(fault) => Err(with_names(fault, Listed::empty(alloc))),
    }
}
