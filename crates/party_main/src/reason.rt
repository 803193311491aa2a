//! Why the program `party` writes nothing.

ghost use Rattle.std.specs.Prelude.{◌≡◌, IfOk};
ghost use Rattle.command_input.specs.StandardError.{refusal_text};
ghost use Rattle.party_main.specs.Reasons.{answer_fault, answer_line, deal_fault, deal_line, header_fault, judge_fault, judge_line, not_agreed_line, reason_line};

use command_input::{HeaderFault, Refusal, refusal_text};
use party_judge::{JudgeFault, JudgeReason};
use party_notes::{AnswerFault, AnswerReason};
use party_rows::{DealFault, DealReason};
use run_texts::put_digits;
use std::alloc::Global;
use swap_base::{ByteText, Digest, Fault, NoMemory, Piece, put};

/// Why nothing is written.
#[derive(Debug, Drop)]
pub enum PartyReason {
    /// As a job's header is refused, or against a line.
    Header(Refusal),
    /// Why no deal is made.
    Deal(DealReason),
    /// Why nothing is answered.
    Next(AnswerReason),
    /// Why nothing is judged.
    Judge(JudgeReason),
}

/// Why nothing is written: a reason, or want of memory.
pub type PartyFault = Fault<PartyReason>;

pub(crate) fn header_fault(fault: HeaderFault) -> PartyFault
    ensures { result ≡ header_fault fault }
{
    match fault {
        Fault::Refused(refusal) => Fault::Refused(PartyReason::Header(refusal)),
        Fault::NoMemory => Fault::NoMemory,
    }
}

pub(crate) fn deal_fault(fault: DealFault) -> PartyFault
    ensures { result ≡ deal_fault fault }
{
    match fault {
        Fault::Refused(reason) => Fault::Refused(PartyReason::Deal(reason)),
        Fault::NoMemory => Fault::NoMemory,
    }
}

pub(crate) fn answer_fault(fault: AnswerFault) -> PartyFault
    ensures { result ≡ answer_fault fault }
{
    match fault {
        Fault::Refused(reason) => Fault::Refused(PartyReason::Next(reason)),
        Fault::NoMemory => Fault::NoMemory,
    }
}

pub(crate) fn judge_fault(fault: JudgeFault) -> PartyFault
    ensures { result ≡ judge_fault fault }
{
    match fault {
        Fault::Refused(reason) => Fault::Refused(PartyReason::Judge(reason)),
        Fault::NoMemory => Fault::NoMemory,
    }
}

// ---- lines

fn refusal_line(alloc: Global, refusal: &Refusal) -> Result<ByteText, NoMemory>
    ensures { IfOk result (λ t. t ≡ refusal_text refusal.now.names refusal.now.reason) }
{
    refusal_text(alloc, &refusal.reason, refusal.names.as_slice())
}

fn no_row(alloc: Global, name: &[u8]) -> Result<ByteText, NoMemory>
    ensures { IfOk result (λ t. t ≡ deal_line (DealReason.NoRow name.now)) }
{
    let mut line = Vec::new(alloc);
    put(
        &mut line,
        &[
            Piece::Text("swap: refused: NoRow "),
            Piece::Bytes(name),
            Piece::Text("\n"),
        ],
    )?;
    Ok(ByteText::new(line))
}

fn deal_line(alloc: Global, reason: &DealReason) -> Result<ByteText, NoMemory>
    ensures { IfOk result (λ t. t ≡ deal_line reason.now) }
{
    match reason {
        DealReason::Refused(refusal) => refusal_line(alloc, refusal),
        DealReason::NoRow(name) => no_row(alloc, name.as_slice()),
    }
}

fn not_agreed(alloc: Global, digest: &Digest) -> Result<ByteText, NoMemory>
    ensures { IfOk result (λ t. t ≡ not_agreed_line digest.now) }
{
    let mut line = Vec::new(alloc);
    put(&mut line, &[Piece::Text("swap: refused: NotAgreed ")])?;
    put_digits(&mut line, digest.as_slice())?;
    put(&mut line, &[Piece::Text("\n")])?;
    Ok(ByteText::new(line))
}

fn answer_line(alloc: Global, reason: &AnswerReason) -> Result<ByteText, NoMemory>
    ensures { IfOk result (λ t. t ≡ answer_line reason.now) }
{
    match reason {
        AnswerReason::Refused(refusal) => refusal_line(alloc, refusal),
        AnswerReason::NotAgreed(digest) => not_agreed(alloc, digest),
    }
}

fn judge_line(alloc: Global, reason: &JudgeReason) -> Result<ByteText, NoMemory>
    ensures { IfOk result (λ t. t ≡ judge_line reason.now) }
{
    match reason {
        JudgeReason::Refused(refusal) => refusal_line(alloc, refusal),
        JudgeReason::NotAgreed(digest) => not_agreed(alloc, digest),
    }
}

/// The line that tells why nothing is written.
pub fn reason_line(alloc: Global, reason: &PartyReason) -> Result<ByteText, NoMemory>
    ensures { IfOk result (λ t. t ≡ reason_line reason.now) }
{
    match reason {
        PartyReason::Header(refusal) => refusal_line(alloc, refusal),
        PartyReason::Deal(reason) => deal_line(alloc, reason),
        PartyReason::Next(reason) => answer_line(alloc, reason),
        PartyReason::Judge(reason) => judge_line(alloc, reason),
    }
}
