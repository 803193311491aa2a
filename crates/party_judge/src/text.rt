//! The text of a judgement.

ghost use Rattle.std.specs.Prelude.{◌≡◌, ◌≤◌, ◌++◌, IfOk, OnOk, length};
ghost use Rattle.swap_digraph.specs.Deal.{IsWellSized};
ghost use Rattle.ledger_core.specs.Book.{IsLegalBook};
ghost use Rattle.run_texts.specs.Report.{report as report_of};
ghost use Rattle.party_terms.specs.Text.{digest_lines};
ghost use Rattle.party_judge.specs.Output.{judgement_in, judgement_text};

use crate::form::Form;
use crate::json::judgement_json;
use crate::marks::put_marks;
use ledger_core::Book;
use outcome_rules::Report;
use run_texts::{put_digits, report_text};
use std::alloc::Global;
use swap_base::{ByteText, Digest, NoMemory, Piece, put};
use swap_job::Job;

#[tactic(auto, unfolding(party_terms::specs::Text::digest_lines))]
fn put_digests(out: &mut Vec<u8>, id: &Digest, agreed: &Digest) -> Result<(), NoMemory>
    ensures { OnOk result (out.new.items ≡ out.old.items ++ digest_lines id.now agreed.now) }
{
    put(out, &[Piece::Text("deal ")])?;
    put_digits(out, id.as_slice())?;
    put(out, &[Piece::Text("\nagree ")])?;
    put_digits(out, agreed.as_slice())?;
    put(out, &[Piece::Text("\n")])
}

/// The report of the book, as an audit writes it.
fn put_report(
    alloc: Global,
    out: &mut Vec<u8>,
    job: &Job,
    book: &Book,
    report: &Report,
) -> Result<(), NoMemory>
    requires sized { IsWellSized job.now.deal }
    requires legal { IsLegalBook job.now.deal book.now.histories }
    requires parties { length report.now.outcomes ≤ 256 }
    ensures { OnOk result (out.new.items ≡ out.old.items ++ report_of job.now book.now.histories report.now) }
{
    let text = report_text(alloc, job, book, report)?;
    out.extend_from_slice(text.as_slice())?;
    Ok(())
}

/// The lines of a judgement, where this digest was agreed on.
#[tactic(auto, unfolding(crate::specs::Output::judgement_text))]
fn judgement_text(
    alloc: Global,
    job: &Job,
    digest: &Digest,
    book: &Book,
    report: &Report,
) -> Result<ByteText, NoMemory>
    requires sized { IsWellSized job.now.deal }
    requires legal { IsLegalBook job.now.deal book.now.histories }
    requires parties { length report.now.outcomes ≤ 256 }
    ensures { IfOk result (λ t. t ≡ judgement_text job.now digest.now book.now.histories report.now) }
{
    let mut out = Vec::new(alloc);
    put_digests(&mut out, &job.deal.id, digest)?;
    put_report(alloc, &mut out, job, book, report)?;
    put_marks(
        &mut out,
        &job.deal,
        report.ended,
        report.findings.as_slice(),
    )?;
    Ok(ByteText::new(out))
}

/// The text of a judgement in that form.
#[tactic(auto, unfolding(crate::specs::Output::judgement_in))]
pub(crate) fn judgement_in(
    alloc: Global,
    form: Form,
    job: &Job,
    digest: &Digest,
    book: &Book,
    report: &Report,
) -> Result<ByteText, NoMemory>
    requires sized { IsWellSized job.now.deal }
    requires legal { IsLegalBook job.now.deal book.now.histories }
    requires parties { length report.now.outcomes ≤ 256 }
    ensures { IfOk result (λ t. t ≡ judgement_in form job.now digest.now book.now.histories report.now) }
{
    match form {
        Form::Lines => judgement_text(alloc, job, digest, book, report),
        Form::Json => judgement_json(alloc, job, digest, book, report),
    }
}
