//! A deal with what its parties' rows give.

ghost use Rattle.std.specs.Prelude.{◌≡◌, IfOk, None, map};
ghost use Rattle.std.specs.List.{range_with_len};
ghost use Rattle.swap_rules.specs.Accepted.{IsAccepted};
ghost use Rattle.swap_offer.specs.Proposed.{IsProposed};
ghost use Rattle.party_rows.specs.Dealt.{all_told_keys, dealt, dealt_deal, dealt_line, told_hashlock, told_keys, IsDealtText};
ghost use Rattle.party_rows.specs.Inside.{IsOffered};
ghost use Rattle.party_rows.specs.Rows.{first_missing, AreDealRows};

use crate::row::Row;
use hashkey_path::deal_digest;
use offer_text::write_deal;
use std::alloc::Global;
use swap_base::{ByteText, Digest, Listed, NoMemory, PartyId, Piece, TryCopy, put};
use swap_digraph::{Deal, Mode};
use swap_gen::all_timelocks;
use swap_job::{Job, Purpose};

/// The hashlock in a leader's row.
fn told_hashlock(rows: &[Option<Row>], leader: PartyId) -> Digest
    ensures { result ≡ told_hashlock rows.now leader }
{
    match rows.get(leader as usize) {
        Some(Some(row)) => match row.hashlock {
            Some(hashlock) => hashlock,
            None => [0; 32],
        },
        _ => [0; 32],
    }
}

fn told_hashlocks(
    alloc: Global,
    rows: &[Option<Row>],
    leaders: &[PartyId],
) -> Result<Listed<Digest>, NoMemory>
    ensures { IfOk result (λ l. l ≡ map (told_hashlock rows.now) leaders.now) }
{
    let mut hashlocks = Vec::new(alloc);
    for leader in leaders {
        hashlocks.push(told_hashlock(rows, *leader))?;
    }
    Ok(Listed::new(hashlocks))
}

/// The keys in a party's row.
fn told_keys(
    alloc: Global,
    rows: &[Option<Row>],
    party: PartyId,
) -> Result<Listed<Digest>, NoMemory>
    ensures { IfOk result (λ l. l ≡ told_keys rows.now party) }
{
    match rows.get(party as usize) {
        Some(Some(row)) => row.keys.copy(),
        _ => Ok(Listed::empty(alloc)),
    }
}

fn each_keys(
    alloc: Global,
    rows: &[Option<Row>],
    parties: u8,
) -> Result<Listed<Listed<Digest>>, NoMemory>
    ensures { IfOk result (λ l. l ≡ map (told_keys rows.now) (range_with_len 0 parties)) }
{
    let mut keys = Vec::new(alloc);
    'parties: for party in 0..parties {
        keys.push(told_keys(alloc, rows, party)?)?;
    }
    Ok(Listed::new(keys))
}

/// The keys of each party; none with timelocks.
fn all_told_keys(
    alloc: Global,
    rows: &[Option<Row>],
    deal: &Deal,
) -> Result<Listed<Listed<Digest>>, NoMemory>
    ensures { IfOk result (λ l. l ≡ all_told_keys deal.now.mode rows.now deal.now.graph.n) }
{
    match deal.mode {
        Mode::Timelocks => Ok(Listed::empty(alloc)),
        Mode::Hashkeys => each_keys(alloc, rows, deal.graph.n()),
    }
}

/// The deal with what the rows give.
#[tactic(auto, unfolding(crate::specs::Dealt::dealt_deal))]
fn dealt_deal(alloc: Global, rows: &[Option<Row>], proposed: Deal) -> Result<Deal, NoMemory>
    requires proposed { IsProposed proposed }
    requires rows { AreDealRows proposed rows.now }
    requires all { first_missing rows.now ≡ None }
    ensures exact { IfOk result (λ d. d ≡ dealt_deal rows.now proposed) }
    ensures accepted { IfOk result IsAccepted }
{
    let mut deal = proposed;
    deal.hashlocks = told_hashlocks(alloc, rows, deal.leaders.as_slice())?;
    deal.keys = all_told_keys(alloc, rows, &deal)?;
    deal.timelocks = all_timelocks(alloc, &deal)?;
    deal.id = deal_digest(&deal);
    Ok(deal)
}

/// The job with its deal made by rows, as a transcript shows it.
fn dealt(alloc: Global, rows: &[Option<Row>], job: Job) -> Result<Job, NoMemory>
    requires offered { IsOffered job }
    requires rows { AreDealRows job.deal rows.now }
    requires all { first_missing rows.now ≡ None }
    ensures exact { IfOk result (λ j. j ≡ dealt rows.now job) }
    ensures accepted { IfOk result (λ j. IsAccepted j.deal) }
{
    Ok(Job {
        purpose: Purpose::Audit,
        deal: dealt_deal(alloc, rows, job.deal)?,
        names: job.names,
        roles: job.roles,
        conforming: job.conforming,
        seeds: job.seeds,
        finish: job.finish,
    })
}

/// The header line of the job that rows make, with a line feed.
#[tactic(auto, unfolding(crate::specs::Dealt::dealt_line))]
pub(crate) fn dealt_text(
    alloc: Global,
    rows: &[Option<Row>],
    job: Job,
) -> Result<ByteText, NoMemory>
    requires offered { IsOffered job }
    requires rows { AreDealRows job.deal rows.now }
    requires all { first_missing rows.now ≡ None }
    ensures exact { IfOk result (λ t. t ≡ dealt_line (dealt rows.now job)) }
    ensures dealt { IfOk result IsDealtText }
{
    let made = dealt(alloc, rows, job)?;
    let line = write_deal(alloc, &made)?;
    let mut text = Vec::new(alloc);
    put(
        &mut text,
        &[Piece::Bytes(line.as_slice()), Piece::Text("\n")],
    )?;
    Ok(ByteText::new(text))
}
