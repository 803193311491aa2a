//! The text of a summary.

ghost use Rattle.std.specs.Prelude.{◌≡◌, ◌++◌, ◌<◌, ◌≤◌, ℕ, IfOk, OnOk, length};
ghost use Rattle.swap_digraph.specs.Deal.{IsWellSized};
ghost use Rattle.ledger_core.specs.Book.{history, IsLegalBook};
ghost use Rattle.made_jobs.specs.Summary.{found_line, outcome_line, run_line, size_line, outcome_summary};

use crate::counts::{ended_so, entry_count, refused_count};
use ledger_core::{Book, EntryList};
use std::alloc::Global;
use swap_base::{ByteText, NoMemory, Piece, put};
use swap_digraph::Deal;
use swap_rules::Outcome;

#[tactic(auto, unfolding(crate::specs::Summary::size_line))]
fn put_size(out: &mut Vec<u8>, deal: &Deal) -> Result<(), NoMemory>
    ensures { OnOk result (out.new.items ≡ out.old.items ++ size_line deal.now) }
{
    put(
        out,
        &[
            Piece::Text("parties "),
            Piece::Number(deal.graph.n() as u64),
            Piece::Text(" arcs "),
            Piece::Number(deal.graph.arcs().len() as u64),
            Piece::Text(" leaders "),
            Piece::Number(deal.leaders.len() as u64),
            Piece::Text("\n"),
        ],
    )
}

#[tactic(auto, unfolding(crate::specs::Summary::run_line))]
fn put_run(out: &mut Vec<u8>, events: u32, histories: &[EntryList]) -> Result<(), NoMemory>
    requires few { length histories.now ≤ 128 }
    requires short { (a : ℕ) → a < length histories.now → length (history histories.now a) ≤ 20064 }
    ensures { OnOk result (out.new.items ≡ out.old.items ++ run_line events histories.now) }
{
    put(
        out,
        &[
            Piece::Text("events "),
            Piece::Number(events as u64),
            Piece::Text(" entries "),
            Piece::Number(entry_count(histories)),
            Piece::Text(" refused "),
            Piece::Number(refused_count(histories)),
            Piece::Text("\n"),
        ],
    )
}

#[tactic(auto, unfolding(crate::specs::Summary::outcome_line))]
fn put_outcomes(out: &mut Vec<u8>, outcomes: &[Outcome]) -> Result<(), NoMemory>
    ensures { OnOk result (out.new.items ≡ out.old.items ++ outcome_line outcomes.now) }
{
    put(
        out,
        &[
            Piece::Text("Deal "),
            Piece::Number(ended_so(Outcome::Deal, outcomes) as u64),
            Piece::Text(" NoDeal "),
            Piece::Number(ended_so(Outcome::NoDeal, outcomes) as u64),
            Piece::Text(" FreeRide "),
            Piece::Number(ended_so(Outcome::FreeRide, outcomes) as u64),
            Piece::Text(" Discount "),
            Piece::Number(ended_so(Outcome::Discount, outcomes) as u64),
            Piece::Text(" Underwater "),
            Piece::Number(ended_so(Outcome::Underwater, outcomes) as u64),
            Piece::Text("\n"),
        ],
    )
}

#[tactic(auto, unfolding(crate::specs::Summary::found_line))]
fn put_found(out: &mut Vec<u8>, found: usize) -> Result<(), NoMemory>
    ensures { OnOk result (out.new.items ≡ out.old.items ++ found_line found) }
{
    put(
        out,
        &[
            Piece::Text("findings "),
            Piece::Number(found as u64),
            Piece::Text("\n"),
        ],
    )
}

/// The summary of a deal's run: its number of events, its book, how the parties ended, and the
/// number of findings.
#[tactic(auto, using(crate::proofs::Short::are_few, crate::proofs::Short::are_short), unfolding(crate::specs::Summary::outcome_summary))]
pub fn summary_text(
    alloc: Global,
    deal: &Deal,
    events: u32,
    book: &Book,
    outcomes: &[Outcome],
    found: usize,
) -> Result<ByteText, NoMemory>
    requires sized { IsWellSized deal.now }
    requires legal { IsLegalBook deal.now book.now.histories }
    ensures { IfOk result (λ t. t ≡ outcome_summary deal.now events book.now.histories outcomes.now found) }
{
    let mut out = Vec::new(alloc);
    put(&mut out, &[Piece::Text("swap summary 1\n")])?;
    put_size(&mut out, deal)?;
    put_run(&mut out, events, book.histories.as_slice())?;
    put_outcomes(&mut out, outcomes)?;
    put_found(&mut out, found)?;
    Ok(ByteText::new(out))
}
