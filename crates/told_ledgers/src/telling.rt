//! All lines of what a wallet tells of its ledgers.

ghost use Rattle.std.specs.Prelude.{◌≡◌, IfOk, length};
ghost use Rattle.swap_base.specs.Fault.{Gives};
ghost use Rattle.swap_digraph.specs.Deal.{IsWellSized};
ghost use Rattle.ledger_core.specs.Book.{IsLegalBook};
ghost use Rattle.told_ledgers.specs.Telling.{ledgers_told, line_told, unless_bad_line, told_book};

use crate::reader::LedgersReader;
use crate::told_ledger::ToldLedger;
use command_input::{OfferFault, Reason};
use std::alloc::Global;
use swap_base::{Fault, Listed, PartyId, Shared};
use swap_digraph::Deal;
use transcript_book::Parts;

/// Reads the line of that number.
fn push_line(reader: &mut LedgersReader, number: u32, line: &[u8]) -> Result<(), OfferFault>
    ensures { Gives (λ _. reader.new) result (unless_bad_line number (line_told reader.old line.now)) }
{
    match reader.push(line) {
        Ok(()) => Ok(()),
        Err(Fault::Refused(_)) => Err(Fault::Refused(Reason::BadLine(number))),
        Err(Fault::NoMemory) => Err(Fault::NoMemory),
    }
}

/// What these lines, from the first ledger's to the last line, tell a party of each arc's ledger.
/// The first of them has that number in its text.
#[tactic(auto, unfolding(crate::specs::Telling::ledgers_told))]
pub fn read_ledgers(
    alloc: Global,
    deal: &Shared<Deal>,
    me: PartyId,
    first: u32,
    lines: &mut Parts<'_>,
) -> Result<Listed<ToldLedger>, OfferFault>
    requires sized { IsWellSized deal.now }
    ensures exact { Gives (λ t. t) result (ledgers_told deal.now me first lines.old) }
    ensures one_each { IfOk result (λ t. length t ≡ length deal.now.graph.arcs) }
    ensures legal { IfOk result (λ t. IsLegalBook deal.now (told_book t)) }
{
    let mut reader = LedgersReader::new(alloc, deal, me)?;
    let mut number = first;
    'lines: while let Some(line) = lines.next() {
        match push_line(&mut reader, number, line) {
            Ok(()) => number = number.saturating_add(1),
            Err(fault) => return Err(fault),
        }
    }
    reader.finish()
}
