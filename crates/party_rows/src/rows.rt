//! The rows of an offer's parties.

ghost use Rattle.std.specs.Prelude.{◌≡◌, ◌<◌, IfOk, None, replicate};
ghost use Rattle.swap_base.specs.Fault.{Gives};
ghost use Rattle.party_rows.specs.Lines.{or_bad_line};
ghost use Rattle.party_rows.specs.Inside.{IsOffered};
ghost use Rattle.party_rows.specs.Row.{parse_row as row_of_line};
ghost use Rattle.party_rows.specs.Rows.{check_first, count_hashlocks, hashlocks_wanted, keys_wanted, right_hashlock, right_keys, parse_rows};
ghost use Rattle.party_rows.specs.Rows.{with_party_row, with_row, with_rows, AreDealRows};

use crate::lines::refused;
use crate::names::party_named;
use crate::row::{NamedRow, Row, parse_row};
use command_input::{HeaderFault, Reason, with_names};
use due_calls::leads_one;
use offer_moves::check_range;
use std::alloc::Global;
use swap_base::{ByteText, Fault, Listed, NoMemory, PartyId};
use swap_digraph::{Deal, Mode};
use swap_job::Job;
use transcript_book::Parts;

/// What the line of that number says.
fn said(alloc: Global, line: u32, text: &[u8]) -> Result<NamedRow, HeaderFault>
    ensures { Gives (λ r. r) result (or_bad_line line (row_of_line text.now)) }
{
    match parse_row(alloc, text) {
        Ok(row) => Ok(row),
        Err(Fault::Refused(_)) => Err(refused(alloc, Reason::BadLine(line))),
        Err(Fault::NoMemory) => Err(Fault::NoMemory),
    }
}

/// It is the first row of its party.
fn check_first(
    alloc: Global,
    line: u32,
    name: &ByteText,
    before: &Option<Row>,
) -> Result<(), HeaderFault>
    ensures { Gives (λ u. u) result (check_first line name.now before.now) }
{
    match before {
        None => Ok(()),
        Some(_) => {
            let name = name.copy()?;
            Err(refused(alloc, Reason::Duplicate(line, name)))
        }
    }
}

fn count_hashlocks(row: &Row) -> u64
    ensures { result ≡ count_hashlocks row.now.hashlock }
{
    match row.hashlock {
        None => 0,
        Some(_) => 1,
    }
}

fn hashlocks_wanted(leads: bool) -> u64
    ensures { result ≡ hashlocks_wanted leads }
{
    if leads { 1 } else { 0 }
}

/// The row has a hashlock exactly where its party leads.
#[tactic(auto, using(command_input::proofs::Named::fails), unfolding(crate::specs::Rows::right_hashlock))]
fn right_hashlock(alloc: Global, line: u32, leads: bool, row: &Row) -> Result<(), HeaderFault>
    ensures { Gives (λ u. u) result (right_hashlock line leads row.now) }
{
    let wanted = hashlocks_wanted(leads);
    match check_range(
        alloc,
        line,
        "hashlock",
        wanted,
        wanted,
        count_hashlocks(row),
    ) {
        Ok(()) => Ok(()),
        Err(fault) => Err(with_names(fault, Listed::empty(alloc))),
    }
}

fn keys_wanted(deal: &Deal) -> u64
    ensures { result ≡ keys_wanted deal.now.mode deal.now }
{
    match deal.mode {
        Mode::Timelocks => 0,
        Mode::Hashkeys => deal.leaders.len() as u64,
    }
}

/// The row has a key for each lock, with timelocks none.
#[tactic(auto, using(command_input::proofs::Named::fails), unfolding(crate::specs::Rows::right_keys))]
fn right_keys(alloc: Global, line: u32, deal: &Deal, row: &Row) -> Result<(), HeaderFault>
    ensures { Gives (λ u. u) result (right_keys line deal.now row.now) }
{
    let wanted = keys_wanted(deal);
    match check_range(alloc, line, "keys", wanted, wanted, row.keys.len() as u64) {
        Ok(()) => Ok(()),
        Err(fault) => Err(with_names(fault, Listed::empty(alloc))),
    }
}

/// Adds the row of a party, which the line of that number gives.
#[tactic(auto, unfolding(crate::specs::Rows::with_party_row))]
fn add_party_row(
    alloc: Global,
    job: &Job,
    line: u32,
    rows: &mut Vec<Option<Row>>,
    party: PartyId,
    said: NamedRow,
) -> Result<(), HeaderFault>
    requires party { party < job.now.deal.graph.n }
    requires rows { AreDealRows job.now.deal rows.old.items }
    ensures exact { Gives (λ u. rows.new.items) result (with_party_row job.now line rows.old.items party said) }
    ensures rows { AreDealRows job.now.deal rows.new.items }
{
    let NamedRow { name, row } = said;
    check_first(alloc, line, &name, &rows[party as usize])?;
    right_hashlock(alloc, line, leads_one(&job.deal, party), &row)?;
    right_keys(alloc, line, &job.deal, &row)?;
    rows[party as usize] = Some(row);
    Ok(())
}

/// Adds the row that the line of that number gives.
#[tactic(auto, unfolding(crate::specs::Rows::with_row))]
fn add_row(
    alloc: Global,
    job: &Job,
    line: u32,
    rows: &mut Vec<Option<Row>>,
    text: &[u8],
) -> Result<(), HeaderFault>
    requires offered { IsOffered job.now }
    requires rows { AreDealRows job.now.deal rows.old.items }
    ensures exact { Gives (λ u. rows.new.items) result (with_row job.now line rows.old.items text.now) }
    ensures rows { AreDealRows job.now.deal rows.new.items }
{
    let said = said(alloc, line, text)?;
    let party = party_named(alloc, line, job.names.as_slice(), said.name.as_slice())?;
    add_party_row(alloc, job, line, rows, party, said)
}

/// Adds the rows that lines give. The first line has that number.
fn add_rows(
    alloc: Global,
    job: &Job,
    first: u32,
    rows: &mut Vec<Option<Row>>,
    lines: &mut Parts<'_>,
) -> Result<(), HeaderFault>
    requires offered { IsOffered job.now }
    requires rows { AreDealRows job.now.deal rows.old.items }
    ensures exact { Gives (λ u. rows.new.items) result (with_rows job.now first rows.old.items lines.old) }
    ensures rows { AreDealRows job.now.deal rows.new.items }
{
    let mut line = first;
    'lines: while let Some(text) = lines.next() {
        match add_row(alloc, job, line, rows, text) {
            Ok(()) => line = line.saturating_add(1),
            Err(fault) => return Err(fault),
        }
    }
    Ok(())
}

fn no_rows(alloc: Global, parties: u8) -> Result<Vec<Option<Row>>, NoMemory>
    ensures { IfOk result (λ v. v.items ≡ replicate parties None) }
{
    let mut rows = Vec::new(alloc);
    'parties: for _party in 0..parties {
        rows.push(None)?;
    }
    Ok(rows)
}

/// The rows that lines give, a place for each party.
#[tactic(auto, unfolding(crate::specs::Rows::parse_rows))]
pub(crate) fn parse_rows(
    alloc: Global,
    job: &Job,
    line: u32,
    lines: &mut Parts<'_>,
) -> Result<Listed<Option<Row>>, HeaderFault>
    requires { IsOffered job.now }
    ensures exact { Gives (λ l. l) result (parse_rows job.now line lines.old) }
    ensures rows { IfOk result (λ l. AreDealRows job.now.deal l) }
{
    let mut rows = no_rows(alloc, job.deal.graph.n())?;
    add_rows(alloc, job, line, &mut rows, lines)?;
    Ok(Listed::new(rows))
}
