//! The reports of the swaps.

ghost use Rattle.std.specs.Prelude.{◌≡◌, ◌+◌, ◌++◌, ◌<◌, ◌≤◌, length, IfOk, OnOk};
ghost use Rattle.swap_base.specs.Text.{lines};
ghost use Rattle.swap_digraph.specs.Deal.{IsWellSized};
ghost use Rattle.ledger_core.specs.Book.{IsLegalBook};
ghost use Rattle.outcome_rules.specs.Report.{build_report};
ghost use Rattle.swap_io.specs.Handed.{Hands};
ghost use Rattle.swap_many.specs.Value.{many_kept};
ghost use Rattle.many_text.specs.ManyText.{swap_book, finding_count, kept_report, swap_line, kept_swap_text};
ghost use Rattle.many_text.specs.Shown.{AreShown, IsShownSwap};

use ledger_core::Book;
use outcome_rules::{Report, build_report};
use run_texts::hand_report;
use std::alloc::Global;
use swap_base::{NoMemory, Piece, put};
use swap_io::{Sink, TextFault};
use swap_job::Job;
use swap_many::ManyWorld;

fn put_swap(out: &mut Vec<u8>, number: u64) -> Result<(), NoMemory>
    ensures { OnOk result (out.new.items ≡ out.old.items ++ swap_line number) }
{
    put(
        out,
        &[
            Piece::Text("swap "),
            Piece::Number(number),
            Piece::Text("\n"),
        ],
    )
}

/// The book of a swap, and its report.
#[tactic(auto, using(crate::proofs::Counts::few_told))]
fn told_swap(
    alloc: Global,
    number: u8,
    job: &Job,
    world: &ManyWorld,
) -> Result<(Book, Report), NoMemory>
    requires here { number < length world.now.worlds }
    requires shown { IsShownSwap world.now number job.now }
    ensures book { IfOk result (λ t. t.0.histories ≡ swap_book (many_kept world.now) number) }
    ensures report { IfOk result (λ t. t.1 ≡ kept_report (many_kept world.now) number job.now) }
    ensures sized { IfOk result (λ t. IsWellSized job.now.deal) }
    ensures legal { IfOk result (λ t. IsLegalBook job.now.deal t.0.histories) }
    ensures parties { IfOk result (λ t. length t.1.outcomes ≤ 256) }
{
    let deal = world.deal(number);
    let book = world.copy_book(alloc, number)?;
    let report = build_report(alloc, deal, &job.conforming, &book)?;
    Ok((book, report))
}

/// A swap of the world, handed on, and how many findings its report tells.
fn write_numbered_swap<K: Sink>(
    alloc: Global,
    sink: &mut K,
    out: &mut Vec<u8>,
    number: u8,
    job: &Job,
    world: &ManyWorld,
) -> Result<u64, TextFault>
    requires here { number < length world.now.worlds }
    requires shown { IsShownSwap world.now number job.now }
    ensures hands { Hands (K.taken sink.old) (K.taken sink.new) (K.faults sink.old) (K.faults sink.new) out.old.items out.new.items
        (kept_swap_text (many_kept world.now) number job.now) result }
    ensures count { IfOk result (λ n. n ≡ length (kept_report (many_kept world.now) number job.now).findings) }
{
    put_swap(out, number as u64)?;
    let (book, report) = told_swap(alloc, number, job, world)?;
    hand_report(sink, out, job, &book, &report)?;
    Ok(report.findings.len() as u64)
}

/// The sum of two counts. As many findings as no number counts lie in no memory.
fn sum(count: u64, found: u64) -> Result<u64, NoMemory>
    ensures { IfOk result (λ n. n ≡ count + found) }
{
    count.checked_add(found).ok_or(NoMemory)
}

/// All swaps of the world, handed on, and how many findings their reports tell.
pub(crate) fn write_swaps<K: Sink>(
    alloc: Global,
    sink: &mut K,
    out: &mut Vec<u8>,
    jobs: &[Job],
    world: &ManyWorld,
) -> Result<u64, TextFault>
    requires shown { AreShown world.now jobs.now }
    ensures hands { Hands (K.taken sink.old) (K.taken sink.new) (K.faults sink.old) (K.faults sink.new) out.old.items out.new.items
        (lines (kept_swap_text (many_kept world.now)) 0 jobs.now) result }
    ensures count { IfOk result (λ n. n ≡ finding_count (many_kept world.now) 0 jobs.now) }
{
    let mut count: u64 = 0;
    let all = world.swaps();
    'each: for swap in 0..all {
        let found = write_numbered_swap(alloc, sink, out, swap, &jobs[swap as usize], world)?;
        count = sum(count, found)?;
    }
    Ok(count)
}
