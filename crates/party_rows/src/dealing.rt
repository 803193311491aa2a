//! What `deal` writes: a deal's header line of everybody's rows.

ghost use Rattle.std.specs.Prelude.{◌≡◌, ◌<◌, IfOk, IfSome, length, []};
ghost use Rattle.swap_base.specs.Fault.{Gives};
ghost use Rattle.party_rows.specs.Dealt.{IsDealtText};
ghost use Rattle.party_rows.specs.Inside.{inside_dealing, IsDealing};
ghost use Rattle.party_rows.specs.Keys.{deal_output, parse_dealing_lines, parse_dealing, deal_from_rows};
ghost use Rattle.party_rows.specs.Rows.{first_missing};

use crate::dealt::dealt_text;
use crate::lines::{ended_lines, first_line};
use crate::offer::offer;
use crate::reason::{DealFault, DealReason, deal_fault_by_refusal};
use crate::row::Row;
use crate::rows::parse_rows;
use command_input::HeaderFault;
use std::alloc::Global;
use swap_base::{ByteText, Fault, Listed};
use swap_job::Job;
use transcript_book::Parts;

/// A job, and the rows that were told for it, a place for each party.
#[derive(Debug, Drop)]
pub struct Dealing {
    pub job: Job,
    pub rows: Listed<Option<Row>>,
}

#[tactic(auto, unfolding(crate::specs::Keys::parse_dealing_lines))]
fn parse_dealing_lines(alloc: Global, lines: &mut Parts<'_>) -> Result<Dealing, HeaderFault>
    ensures exact { Gives inside_dealing result (parse_dealing_lines lines.old) }
    ensures dealing { IfOk result IsDealing }
{
    let text = first_line(alloc, lines)?;
    let job = offer(alloc, 1, text)?;
    let rows = parse_rows(alloc, &job, 2, lines)?;
    Ok(Dealing { job, rows })
}

/// The job and the rows of a text.
#[tactic(auto, unfolding(crate::specs::Keys::parse_dealing))]
fn parse_dealing(alloc: Global, text: &[u8]) -> Result<Dealing, HeaderFault>
    ensures exact { Gives inside_dealing result (parse_dealing text.now) }
    ensures dealing { IfOk result IsDealing }
{
    let mut lines = ended_lines(alloc, text)?;
    parse_dealing_lines(alloc, &mut lines)
}

/// The first party without a row.
fn first_missing(rows: &[Option<Row>]) -> Option<usize>
    ensures exact { result ≡ first_missing rows.now }
    ensures below { IfSome result (λ p. p < length rows.now) }
{
    rows.iter().position(|row| row.is_none())
}

/// The deal's line, where each party has a row.
#[tactic(auto, unfolding(crate::specs::Keys::deal_from_rows))]
fn deal_from_rows(alloc: Global, said: Dealing) -> Result<ByteText, DealFault>
    requires { IsDealing said }
    ensures exact { Gives (λ t. t) result (deal_from_rows (inside_dealing said)) }
    ensures dealt { IfOk result IsDealtText }
{
    let Dealing { job, rows } = said;
    match first_missing(rows.as_slice()) {
        None => Ok(dealt_text(alloc, rows.as_slice(), job)?),
        Some(party) => {
            let name = job.names.as_slice()[party].copy()?;
            Err(Fault::Refused(DealReason::NoRow(name)))
        }
    }
}

/// The header line of the deal that a plain offer and a row for each of its parties make, as a
/// transcript has it: by a text of lines, each ended by a line feed, the offer's first, then the
/// rows in any order. Or the first reason against the text.
#[tactic(auto, unfolding(crate::specs::Keys::deal_output))]
pub fn deal(alloc: Global, text: &[u8]) -> Result<ByteText, DealFault>
    ensures exact { Gives (λ t. t) result (deal_output text.now) }
    ensures dealt { IfOk result IsDealtText }
{
    match parse_dealing(alloc, text) {
        Ok(said) => deal_from_rows(alloc, said),
        Err(fault) => Err(deal_fault_by_refusal(fault)),
    }
}
