//! The judgement of a job's book.

ghost use Rattle.std.specs.Prelude.{◌≡◌, IfOk};
ghost use Rattle.swap_base.specs.Fault.{Gives};
ghost use Rattle.ledger_core.specs.WellFormed.{IsWellFormed};
ghost use Rattle.audit_command.specs.Header.{IsTranscriptJob};
ghost use Rattle.audit_command.specs.Output.{judged, refused_reply, story};
ghost use Rattle.audit_command.specs.Promised.{IsSoundAudit};

use command_input::{Reason, Refusal, nameless};
use ledger_core::Book;
use outcome_rules::Report;
use std::alloc::Global;
use swap_auditor::{BadReply, audit_book};
use swap_base::Fault;
use swap_job::Job;

fn refused_reply(alloc: Global, bad: BadReply) -> Refusal
    ensures { result ≡ refused_reply bad }
{
    nameless(
        alloc,
        Reason::BadReply(bad.arc, bad.entry, bad.stated, bad.replayed),
    )
}

/// The report of a book if the replay gives all its stated replies, or the first stated reply that
/// it doesn't give.
#[tactic(auto, unfolding(crate::specs::Output::judged))]
pub(crate) fn judge(alloc: Global, job: &Job, book: &Book) -> Result<Report, Fault<Refusal>>
    requires told { IsTranscriptJob job.now }
    requires formed { IsWellFormed job.now.deal book.now.histories }
    ensures exact { Gives (λ r. r) result (judged (story job.now book.now.histories)) }
    ensures sound { IfOk result (IsSoundAudit (story job.now book.now.histories)) }
{
    match audit_book(alloc, &job.deal, &job.conforming, book) {
        Ok(report) => Ok(report),
        Err(Fault::Refused(bad)) => Err(Fault::Refused(refused_reply(alloc, bad))),
        Err(Fault::NoMemory) => Err(Fault::NoMemory),
    }
}
