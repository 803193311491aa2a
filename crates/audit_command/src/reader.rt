//! The reader of a transcript's lines.

ghost use Rattle.std.specs.Prelude.{◌≡◌, IfOk, MatchOption, Ok, Err};
ghost use Rattle.swap_base.specs.Fault.{Gives};
ghost use Rattle.audit_command.specs.Header.{header_read, IsTranscriptJob};
ghost use Rattle.audit_command.specs.TranscriptReading.{ReadsTranscriptLine, Story, story_at_end, story_without_rest, job_story, story_so_far, unless_long};
ghost use Rattle.audit_command.specs.Stages.{no_lines, with_line};

use crate::reason::{TranscriptFault, TranscriptReason};
use crate::stage::Stage;
use command_input::INPUT_LIMIT;
use ledger_core::Book;
use std::alloc::Global;
use std::marker::Model;
use swap_base::{Fault, TryCopy};
use swap_job::Job;
use transcript_book::BookReader;

/// Reads a transcript line by line. It keeps the book that the lines state, and none of their text.
#[derive(Drop)]
pub struct TranscriptReader {
    stage: Stage,
    lines: u32,
    bytes: u64,
    alloc: Global,
}

impl Model for TranscriptReader {
    ghost use Rattle.audit_command.specs.Stages.{Progress};

    ghost Value = { Progress };

    ghost view = { λ r. record { stage = r.stage; lines = r.lines; bytes = r.bytes } };

    ghost use Rattle.audit_command.specs.Header.{IsToldStage};

    ghost invariant = { λ r. IsToldStage r.stage };
}

impl TranscriptReader {
    /// No line was read yet.
    pub fn new(alloc: Global) -> TranscriptReader
        ensures { result ≡ no_lines }
    {
        TranscriptReader {
            stage: Stage::First,
            lines: 0,
            bytes: 0,
            alloc,
        }
    }

    /// Reads a line, which a line feed ended. After a refusal each later line gives the same one;
    /// want of memory changes nothing.
    pub fn push(&mut self, line: &[u8]) -> Result<(), TranscriptFault>
        ensures { ReadsTranscriptLine result self.old self.new (with_line header_read self.old line.now) }
    {
        let number = self.lines.saturating_add(1);
        let answer = match self.stage.read(self.alloc, number, line) {
            Ok(()) => Ok(()),
            Err(Fault::NoMemory) => return Err(Fault::NoMemory),
            Err(Fault::Refused(reason)) => {
                self.stage = Stage::Bad(reason.copy()?);
                Err(Fault::Refused(reason))
            }
        };
        self.lines = number;
        self.bytes = self.bytes.saturating_add(line.len() as u64 + 1);
        answer
    }

    /// The job and the book that the transcript states, where these bytes stand after the last line
    /// feed.
    pub fn finish(self, rest: &[u8]) -> Result<(Job, Book), TranscriptFault>
        ensures exact { Gives job_story result (story_at_end self rest.now) }
        ensures told { IfOk result (λ p. IsTranscriptJob p.0) }
    {
        let lines = self.lines;
        let bytes = self.bytes.saturating_add(rest.len() as u64);
        match self.stage {
            Stage::Bad(reason) => Err(Fault::Refused(reason)),
            Stage::Ledgers(reader) => told(reader, lines, bytes, rest),
            _ => Err(Fault::Refused(cut_or_long(bytes))),
        }
    }
}

/// Why a transcript without its last line gives no book.
fn cut_or_long(bytes: u64) -> TranscriptReason
    ensures { unless_long {A = Story} bytes (Err TranscriptReason.CutShort) ≡ Err result }
{
    if bytes > INPUT_LIMIT as u64 {
        TranscriptReason::TooLong
    } else {
        TranscriptReason::CutShort
    }
}

/// Why ledgers that were read are no whole transcript, if they aren't.
#[tactic(auto, using(crate::proofs::LastLine::with_more, crate::proofs::LastLine::too_long, crate::proofs::LastLine::without_more, crate::proofs::LastLine::not_over))]
fn wrong_at_end(
    reader: &BookReader,
    lines: u32,
    bytes: u64,
    rest: &[u8],
) -> Option<TranscriptReason>
    ensures { MatchOption result (story_without_rest lines bytes reader.now rest.now ≡ Ok (story_so_far reader.now))
        (λ r. story_without_rest lines bytes reader.now rest.now ≡ Err r) }
{
    if !reader.is_finished() {
        Some(cut_or_long(bytes))
    } else if !rest.is_empty() {
        Some(TranscriptReason::BadLine(lines.saturating_add(1)))
    } else if bytes > INPUT_LIMIT as u64 {
        Some(TranscriptReason::TooLong)
    } else {
        None
    }
}

/// The job and the book of the ledgers that were read.
fn told(
    reader: BookReader,
    lines: u32,
    bytes: u64,
    rest: &[u8],
) -> Result<(Job, Book), TranscriptFault>
    requires { IsTranscriptJob reader.job }
    ensures exact { Gives job_story result (story_without_rest lines bytes reader rest.now) }
    ensures told { IfOk result (λ p. IsTranscriptJob p.0) }
{
    match wrong_at_end(&reader, lines, bytes, rest) {
        Some(reason) => Err(Fault::Refused(reason)),
        None => Ok(reader.into_book()),
    }
}
