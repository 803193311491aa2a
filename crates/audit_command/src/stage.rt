//! Which line of a transcript stands next.

ghost use Rattle.std.specs.Prelude.{◌≡◌, IfOk};
ghost use Rattle.transcript_book.specs.Stages.{line_read};
ghost use Rattle.audit_command.specs.declared.stage.Stage.TheVariants.{Ledgers};
ghost use Rattle.audit_command.specs.Header.{header_read, IsToldStage};
ghost use Rattle.audit_command.specs.TranscriptReading.{Heads, Turns};
ghost use Rattle.audit_command.specs.Stages.{ledgers_stage, next_stage};

use crate::header::parse_deal_header;
use crate::reason::{TranscriptFault, TranscriptReason};
use std::alloc::Global;
use swap_base::{Fault, TryCopy};
use transcript_book::BookReader;

/// Which line of a transcript stands next.
#[derive(Drop)]
pub enum Stage {
    /// The first line.
    First,
    /// The header line.
    Header,
    /// A line of the ledgers, or the last line.
    Ledgers(BookReader),
    /// None, since a line was bad.
    Bad(TranscriptReason),
}

fn bad_line(number: u32) -> TranscriptFault
    ensures { result ≡ Fault.Refused (TranscriptReason.BadLine number) }
{
    Fault::Refused(TranscriptReason::BadLine(number))
}

/// What stands next after a job's header line.
fn after_header(alloc: Global, line: &[u8]) -> Result<Stage, TranscriptFault>
    ensures heads { Heads result (header_read line.now) }
    ensures told { IfOk result IsToldStage }
{
    match parse_deal_header(alloc, 2, line) {
        Ok(job) => Ok(Stage::Ledgers(BookReader::new(alloc, job)?)),
        Err(Fault::Refused(refusal)) => Err(Fault::Refused(TranscriptReason::Header(refusal))),
        Err(Fault::NoMemory) => Err(Fault::NoMemory),
    }
}

/// Reads a line of the ledgers, or the last line.
fn continue_reading(
    reader: &mut BookReader,
    number: u32,
    line: &[u8],
) -> Result<(), TranscriptFault>
    ensures turns { Turns result (Ledgers reader.old) (Ledgers reader.new) (ledgers_stage number (line_read reader.old line.now)) }
    ensures job { reader.new.job ≡ reader.old.job }
{
    match reader.push(line) {
        Ok(()) => Ok(()),
        Err(Fault::Refused(_)) => Err(bad_line(number)),
        Err(Fault::NoMemory) => Err(Fault::NoMemory),
    }
}

impl Stage {
    /// Reads the line of that number. A line that is bad, or for which memory runs out, changes
    /// nothing.
    #[tactic(auto, unfolding(crate::specs::Stages::next_stage))]
    pub(crate) fn read(
        &mut self,
        alloc: Global,
        number: u32,
        line: &[u8],
    ) -> Result<(), TranscriptFault>
        ensures turns { Turns result self.old self.new (next_stage header_read number self.old line.now) }
        ensures told { IsToldStage self.old → IsToldStage self.new }
    {
        match self {
            Stage::First => {
                if line != b"swap transcript 1".as_slice() {
                    return Err(bad_line(number));
                }
                *self = Stage::Header;
                Ok(())
            }
            Stage::Header => {
                *self = after_header(alloc, line)?;
                Ok(())
            }
            Stage::Ledgers(reader) => continue_reading(reader, number, line),
            Stage::Bad(reason) => Err(Fault::Refused(reason.copy()?)),
        }
    }
}
