//! The summary of the run of the job that a number gives.

ghost use Rattle.std.specs.Prelude.{◌≡◌, ◌≤◌, IfOk, OnOk, length};
ghost use Rattle.swap_digraph.specs.Deal.{IsWellSized};
ghost use Rattle.ledger_core.specs.Book.{IsLegalBook};
ghost use Rattle.swap_rules.specs.Outcome.{IsEnded};
ghost use Rattle.swap_run.specs.Laws.{IsKept};
ghost use Rattle.swap_world.specs.Cast.{job_cast};
ghost use Rattle.swap_gen.specs.Drawn.{generated};
ghost use Rattle.made_jobs.specs.Summary.{summary};
ghost use Rattle.made_jobs.specs.Generating.{generated_book, generated_summary, is_found};

use crate::played::played;
use crate::summary_lines::summary_text;
use ledger_core::Book;
use outcome_rules::build_report;
use std::alloc::Global;
use swap_base::{ByteText, NoMemory};
use swap_gen::Generator;
use swap_job::Job;

/// The summary of a run, and whether something is found.
#[derive(Debug, Drop)]
pub struct Summary {
    pub text: ByteText,
    pub found: bool,
}

/// The summary of a job's book after `events` events.
fn summed(alloc: Global, job: &Job, events: u32, book: &Book) -> Result<Summary, NoMemory>
    requires sized { IsWellSized job.now.deal }
    requires conforming { length job.now.conforming ≡ job.now.deal.graph.n }
    requires legal { IsLegalBook job.now.deal book.now.histories }
    ensures text { IfOk result (λ s. s.text ≡ summary job.now events book.now.histories) }
    ensures found { IfOk result (λ s. s.found ≡ is_found job.now book.now.histories) }
{
    let report = build_report(alloc, &job.deal, &job.conforming, book)?;
    let outcomes = report.outcomes.as_slice();
    let count = report.findings.len();
    let text = summary_text(alloc, &job.deal, events, book, outcomes, count)?;
    let found = count != 0;
    Ok(Summary { text, found })
}

/// The summary of the run of a number's job, after `events` events and the fair finish.
pub fn summarize(alloc: Global, seed: u32, parties: u8, events: u32) -> Result<Summary, NoMemory>
    requires low { 2 ≤ parties }
    requires high { parties ≤ 24 }
    ensures text { IfOk result (λ s. s.text ≡ generated_summary seed parties events) }
    ensures found { IfOk result (λ s. s.found ≡ is_found (generated seed parties) (generated_book seed parties events)) }
    // Whatever is drawn, every party keeps its conduct, and every ledger ends.
    ensures kept { OnOk result (IsKept (job_cast (generated seed parties)) (generated_book seed parties events)) }
    ensures ended { OnOk result (IsEnded (generated seed parties).deal (generated_book seed parties events)) }
{
    let (mut generator, wallets) = Generator::with_wallets(alloc, seed, parties)?;
    let book = played(alloc, &mut generator, wallets, events)?;
    let summary = summed(alloc, generator.job(), events, &book)?;
    Ok(summary)
}
