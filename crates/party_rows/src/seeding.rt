//! What `keys` writes: a party's row of its seed.

ghost use Rattle.swap_base.specs.Fault.{Gives};
ghost use Rattle.party_rows.specs.Inside.{IsOffered};
ghost use Rattle.party_rows.specs.Keys.{keys_from_lines, keys_output, own_row_output, row_from_lines, row_of_name};

use crate::digests::seed_line;
use crate::lines::{ended_lines, first_line, no_line};
use crate::names::party_named;
use crate::offer::offer;
use crate::row::seeded_row;
use crate::row_line::row_line;
use command_input::HeaderFault;
use std::alloc::Global;
use swap_base::{ByteText, Digest};
use swap_job::Job;
use transcript_book::Parts;

/// The line of the row that a seed gives the party of that name.
#[tactic(auto, unfolding(crate::specs::Keys::row_of_name))]
fn row_of_name(
    alloc: Global,
    name: &[u8],
    seed: &Digest,
    job: &Job,
) -> Result<ByteText, HeaderFault>
    requires { IsOffered job.now }
    ensures { Gives (λ t. t) result (row_of_name name.now seed.now job.now) }
{
    let party = party_named(alloc, 2, job.names.as_slice(), name)?;
    let row = seeded_row(alloc, seed, party, &job.deal)?;
    Ok(row_line(alloc, name, &row)?)
}

/// The line of the row by the lines behind that of the seed, which are the offer's line and no
/// other.
#[tactic(auto, unfolding(crate::specs::Keys::row_from_lines))]
fn row_from_lines(
    alloc: Global,
    name: &[u8],
    seed: &Digest,
    lines: &mut Parts<'_>,
) -> Result<ByteText, HeaderFault>
    ensures { Gives (λ t. t) result (row_from_lines name.now seed.now lines.old) }
{
    let text = first_line(alloc, lines)?;
    let job = offer(alloc, 2, text)?;
    no_line(alloc, 3, lines)?;
    row_of_name(alloc, name, seed, &job)
}

#[tactic(auto, unfolding(crate::specs::Keys::keys_from_lines))]
fn keys_from_lines(
    alloc: Global,
    name: &[u8],
    lines: &mut Parts<'_>,
) -> Result<ByteText, HeaderFault>
    ensures { Gives (λ t. t) result (keys_from_lines name.now lines.old) }
{
    let seed = seed_line(alloc, 1, lines)?;
    row_from_lines(alloc, name, &seed, lines)
}

/// The row of the party of that name, by a text of two lines, each ended by a line feed: `seed`
/// with the 64 digits of its seed, and a plain offer that tells nobody's seed. Or the first reason
/// against the text.
///
/// A seed is for one swap: its keys sign once, and a party that signs in two swaps with one seed
/// lets others sign in its name.
#[tactic(auto, unfolding(crate::specs::Keys::keys_output))]
pub fn keys(alloc: Global, name: &[u8], text: &[u8]) -> Result<ByteText, HeaderFault>
    ensures exact { Gives (λ t. t) result (keys_output name.now text.now) }
{
    let mut lines = ended_lines(alloc, text)?;
    keys_from_lines(alloc, name, &mut lines)
}

/// The row of the party of that name, by its seed and a text of one line, which is the offer's and
/// has the number 2.
#[tactic(auto, unfolding(crate::specs::Keys::own_row_output))]
pub fn own_row(
    alloc: Global,
    name: &[u8],
    seed: &Digest,
    text: &[u8],
) -> Result<ByteText, HeaderFault>
    ensures exact { Gives (λ t. t) result (own_row_output name.now seed.now text.now) }
{
    let mut lines = ended_lines(alloc, text)?;
    row_from_lines(alloc, name, seed, &mut lines)
}
