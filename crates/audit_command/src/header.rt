//! The header line of a transcript.

ghost use Rattle.std.specs.Prelude.{IfOk};
ghost use Rattle.swap_base.specs.Fault.{Gives};
ghost use Rattle.audit_command.specs.Header.{parse_deal_header, IsTranscriptJob};

use command_input::HeaderFault;
use std::alloc::Global;
use swap_job::{Job, Purpose};
use swap_offer::read_header;

/// The job of a header line of that number, as a transcript has it, or the first reason against it.
/// The line states no strategy.
#[tactic(auto, unfolding(crate::specs::Header::parse_deal_header))]
pub fn parse_deal_header(alloc: Global, number: u32, line: &[u8]) -> Result<Job, HeaderFault>
    ensures exact { Gives (λ j. j) result (parse_deal_header number line.now) }
    ensures told { IfOk result IsTranscriptJob }
{
    let prepared = read_header(alloc, number, line, Purpose::Audit, &[])?;
    Ok(prepared.job)
}
