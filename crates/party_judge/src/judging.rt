//! A text is judged.

ghost use Rattle.std.specs.Prelude.{IfOk};
ghost use Rattle.swap_base.specs.Fault.{Gives};
ghost use Rattle.ledger_core.specs.WellFormed.{IsWellFormed};
ghost use Rattle.audit_command.specs.Output.{judged, refused_reply, story};
ghost use Rattle.audit_command.specs.Promised.{IsSoundAudit};
ghost use Rattle.party_terms.specs.Inside.{inside_agreed, IsAgreedJob};
ghost use Rattle.party_judge.specs.Faults.{by_refusal};
ghost use Rattle.party_judge.specs.Harmless.{AreWeighed};
ghost use Rattle.party_judge.specs.Inside.{written};
ghost use Rattle.party_judge.specs.Output.{agreed_judgement, book_judgement, judge_output, lines_judgement};
ghost use Rattle.party_judge.specs.Promised.{IsAgreedJudgement, IsBookJudgement, IsJudgement, IsLinesJudgement};

use crate::agreements::read_agreements;
use crate::form::Form;
use crate::ledgers::read_ledgers;
use crate::reason::{JudgeFault, JudgeReason, refusal_fault};
use crate::text::judgement_in;
use command_input::{Reason, nameless};
use ledger_core::Book;
use outcome_rules::Report;
use party_rows::ended_lines;
use party_terms::{Agreed, read_agreed};
use std::alloc::Global;
use swap_auditor::audit_book;
use swap_base::{ByteText, Digest, Fault};
use swap_job::Job;
use transcript_book::Parts;

/// What is judged: the text, and whether anything was found.
#[derive(Debug, Drop)]
pub struct Judgement {
    pub text: ByteText,
    pub found: bool,
}

/// The report of a book if the replay gives all its stated replies, or the first stated reply that
/// it doesn't give.
#[tactic(auto, unfolding(audit_command::specs::Output::judged))]
fn judged(alloc: Global, job: &Job, book: &Book) -> Result<Report, JudgeFault>
    requires told { IsAgreedJob job.now }
    requires formed { IsWellFormed job.now.deal book.now.histories }
    ensures exact { Gives (λ r. r) result (by_refusal (judged (story job.now book.now.histories))) }
    ensures sound { IfOk result (IsSoundAudit (story job.now book.now.histories)) }
    ensures weighed { IfOk result (AreWeighed job.now.deal book.now.histories) }
{
    match audit_book(alloc, &job.deal, &job.conforming, book) {
        Ok(report) => Ok(report),
        Err(Fault::Refused(bad)) => {
            let reason = Reason::BadReply(bad.arc, bad.entry, bad.stated, bad.replayed);
            Err(Fault::Refused(JudgeReason::Refused(nameless(alloc, reason))))
        }
        Err(Fault::NoMemory) => Err(Fault::NoMemory),
    }
}

/// What is written of a job and its book.
#[tactic(auto, unfolding(crate::specs::Output::book_judgement))]
fn book_judgement(
    alloc: Global,
    form: Form,
    digest: &Digest,
    job: &Job,
    book: &Book,
) -> Result<Judgement, JudgeFault>
    requires told { IsAgreedJob job.now }
    requires formed { IsWellFormed job.now.deal book.now.histories }
    ensures exact { Gives written result (book_judgement form digest.now (job.now, book.now.histories)) }
    ensures promised { IfOk result (λ j. IsBookJudgement form digest.now job.now book.now.histories (written j)) }
{
    let report = judged(alloc, job, book)?;
    Ok(Judgement {
        text: judgement_in(alloc, form, job, digest, book, &report)?,
        found: !report.findings.is_empty(),
    })
}

/// What is written of what was agreed on, by the lines behind it.
#[tactic(auto, unfolding(crate::specs::Output::agreed_judgement))]
fn agreed_judgement(
    alloc: Global,
    form: Form,
    agreed: Agreed,
    lines: &mut Parts<'_>,
) -> Result<Judgement, JudgeFault>
    requires told { IsAgreedJob agreed.job }
    ensures exact { Gives written result (agreed_judgement form (inside_agreed agreed, lines.old)) }
    ensures promised { IfOk result (λ j. IsAgreedJudgement form (inside_agreed agreed) lines.old (written j)) }
{
    let Agreed {
        job,
        digest,
        next,
        ..
    } = agreed;
    let first = read_agreements(alloc, job.names.as_slice(), &digest, next, lines)?;
    match read_ledgers(alloc, job, first, lines) {
        Ok((job, book)) => book_judgement(alloc, form, &digest, &job, &book),
        Err(fault) => Err(refusal_fault(fault)),
    }
}

/// What is written of lines.
#[tactic(auto, unfolding(crate::specs::Output::lines_judgement))]
fn lines_judgement(
    alloc: Global,
    form: Form,
    lines: &mut Parts<'_>,
) -> Result<Judgement, JudgeFault>
    ensures exact { Gives written result (lines_judgement form lines.old) }
    ensures promised { IfOk result (λ j. IsLinesJudgement form lines.old (written j)) }
{
    match read_agreed(alloc, 1, lines) {
        Ok(agreed) => agreed_judgement(alloc, form, agreed, lines),
        Err(fault) => Err(refusal_fault(fault)),
    }
}

/// Judges a text: the header line of a deal, as a transcript has it; lines of context; a line
/// `agreed NAME DIGEST` for each party that told its digest; and all ledgers, as a transcript has
/// them, up to its last line. It answers which deal it is, the digest of what stands there, the
/// report that an audit writes, and for each finding whether it is final and whether it is
/// harmless, in either form. Or the first reason against the text: with a digest that isn't that of the header and
/// its context, `NotAgreed`.
#[tactic(auto, unfolding(crate::specs::Output::judge_output))]
pub fn judge(alloc: Global, form: Form, text: &[u8]) -> Result<Judgement, JudgeFault>
    ensures exact { Gives written result (judge_output form text.now) }
    ensures promised { IfOk result (λ j. IsJudgement form text.now (written j)) }
{
    match ended_lines(alloc, text) {
        Ok(lines) => {
            let mut lines = lines;
            lines_judgement(alloc, form, &mut lines)
        }
        Err(fault) => Err(refusal_fault(fault)),
    }
}
