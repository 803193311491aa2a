//! The job and the book that an input states.

ghost use Rattle.std.specs.Prelude.{◌≡◌, IfOk, IfErr};
ghost use Rattle.audit_command.specs.Header.{IsTranscriptJob};
ghost use Rattle.audit_command.specs.TranscriptReading.{story_at_end, job_story};
ghost use Rattle.audit_command.specs.Output.{to_refusal};
ghost use Rattle.command_input.specs.Faults.{retold};
ghost use Rattle.command_input.specs.Input.{Ends, HasStopped, desk, fresh};
ghost use Rattle.audit_command.specs.Reading.{Concludes, IsStory, IsStoryRefusal};

use crate::input::read_lines;
use crate::reader::TranscriptReader;
use crate::reason::TranscriptReason;
use command_input::{Input, InputFault, Reason, Refusal, nameless};
use ledger_core::Book;
use std::alloc::Global;
use swap_base::Fault;
use swap_io::Source;
use swap_job::Job;

/// The refusal of a text.
fn to_refusal(alloc: Global, reason: TranscriptReason) -> Refusal
    ensures { result ≡ to_refusal reason }
{
    match reason {
        TranscriptReason::BadLine(line) => nameless(alloc, Reason::BadLine(line)),
        TranscriptReason::TooLong => nameless(alloc, Reason::CutShort),
        TranscriptReason::CutShort => nameless(alloc, Reason::CutShort),
        TranscriptReason::Header(refusal) => refusal,
    }
}

/// What the reader of all lines tells, where these bytes stand after the last line feed.
fn conclude(
    alloc: Global,
    reader: TranscriptReader,
    rest: &[u8],
) -> Result<(Job, Book), InputFault<Refusal>>
    ensures exact { Concludes result (story_at_end reader rest.now) }
    ensures told { IfOk result (λ p. IsTranscriptJob p.0) }
{
    match reader.finish(rest) {
        Ok(story) => Ok(story),
        Err(Fault::Refused(reason)) => Err(InputFault::Refused(to_refusal(alloc, reason))),
        Err(Fault::NoMemory) => Err(InputFault::NoMemory),
    }
}

/// The fault with the refusal of a text.
fn refused(alloc: Global, fault: InputFault<TranscriptReason>) -> InputFault<Refusal>
    ensures { result ≡ retold to_refusal fault }
{
    match fault {
        InputFault::Refused(reason) => InputFault::Refused(to_refusal(alloc, reason)),
        InputFault::ReadFault => InputFault::ReadFault,
        InputFault::TooLong => InputFault::TooLong,
        InputFault::NoMemory => InputFault::NoMemory,
    }
}

/// The job and the book that an input's lines state.
pub(crate) fn read_story<S: Source>(
    alloc: Global,
    input: &mut Input,
    source: &mut S,
) -> Result<(Job, Book), InputFault<Refusal>>
    requires { input.old ≡ fresh }
    ensures read { IfOk result (λ p. Ends (IsStory (job_story p)) (desk (S.left source.old) (S.faults source.old) fresh)
        (desk (S.left source.new) (S.faults source.new) input.new)) }
    ensures told { IfOk result (λ p. IsTranscriptJob p.0) }
    ensures stops { IfErr result (HasStopped IsStoryRefusal (desk (S.left source.old) (S.faults source.old) fresh)
        (desk (S.left source.new) (S.faults source.new) input.new)) }
{
    let mut reader = TranscriptReader::new(alloc);
    match read_lines(input, source, &mut reader) {
        Ok(()) => conclude(alloc, reader, input.text()),
        Err(fault) => Err(refused(alloc, input.stop(source, fault))),
    }
}
