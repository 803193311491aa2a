//! A transcript in memory.

ghost use Rattle.std.specs.Prelude.{IfOk};
ghost use Rattle.swap_base.specs.Fault.{Gives};
ghost use Rattle.audit_command.specs.Header.{header_read, IsTranscriptJob};
ghost use Rattle.audit_command.specs.Laws.{IsWholeText};
ghost use Rattle.audit_command.specs.TranscriptReading.{job_story, transcript_read};

use crate::reader::TranscriptReader;
use crate::reason::TranscriptFault;
use ledger_core::Book;
use memchr::memchr;
use std::alloc::Global;
use swap_job::Job;

/// The job and the book that a transcript states.
pub fn read_transcript(alloc: Global, bytes: &[u8]) -> Result<(Job, Book), TranscriptFault>
    ensures exact { Gives job_story result (transcript_read header_read bytes.now) }
    ensures whole { IfOk result (λ p. IsWholeText header_read bytes.now (job_story p)) }
    ensures told { IfOk result (λ p. IsTranscriptJob p.0) }
{
    let mut reader = TranscriptReader::new(alloc);
    let mut at = 0;
    'lines: while let Some(end) = memchr(b'\n', &bytes[at..]) {
        match reader.push(&bytes[at..at + end]) {
            Ok(()) => at += end + 1,
            Err(fault) => return Err(fault),
        }
    }
    reader.finish(&bytes[at..])
}
