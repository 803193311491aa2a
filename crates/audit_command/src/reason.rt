//! Why a text is no transcript.

use crate::copied::copy_refusal;
use command_input::Refusal;
use swap_base::{Fault, NoMemory, TryCopy};

/// Why a text is no transcript. Lines are counted from 1.
#[derive(Drop)]
pub enum TranscriptReason {
    /// The first line that doesn't have the form of the next line, or that doesn't fit the deal.
    BadLine(u32),
    /// More bytes than an input may have, where no line is bad.
    TooLong,
    /// The last line isn't there, where no line is bad.
    CutShort,
    /// What is wrong with the header line.
    Header(Refusal),
}

impl TryCopy for TranscriptReason {
    fn copy(&self) -> Result<TranscriptReason, NoMemory> {
        match self {
            TranscriptReason::BadLine(line) => Ok(TranscriptReason::BadLine(*line)),
            TranscriptReason::TooLong => Ok(TranscriptReason::TooLong),
            TranscriptReason::CutShort => Ok(TranscriptReason::CutShort),
            TranscriptReason::Header(refusal) => {
                Ok(TranscriptReason::Header(copy_refusal(refusal)?))
            }
        }
    }
}

/// Why a text gives no book: a reason, or want of memory.
pub type TranscriptFault = Fault<TranscriptReason>;
