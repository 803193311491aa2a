//! A party's row: what its seed gives a deal, and what a line says of it.

ghost use Rattle.std.specs.Prelude.{◌≡◌, ◌≤◌, IfOk, length, map};
ghost use Rattle.std.specs.List.{range_with_len};
ghost use Rattle.swap_base.specs.Fault.{Gives};
ghost use Rattle.hash_signature.specs.Signature.{derive_public_key};
ghost use Rattle.transcript_book.specs.Taking.{Takes};
ghost use Rattle.transcript_book.specs.Reading.{lower_hex_digest, parse_each_word, parse_first_field, listed_field};
ghost use Rattle.party_rows.specs.Row.{seeded_hashlock, hashlock_said, seeded_keys, name_said, seeded_row, parse_row, row_said};

use crate::digests::this_word;
use due_calls::leads_one;
use hash_signature::{derive_secret, hashed_value, keygen};
use offer_header::is_name;
use std::alloc::Global;
use swap_base::{ByteText, Digest, Listed, NoMemory, PartyId};
use swap_digraph::{Deal, Mode};
use transcript_book::{Parts, WordFault, lower_hex_digest, misspelt, nothing_more, word};

/// What a party's seed gives a deal.
#[derive(Debug, Drop)]
pub struct Row {
    /// The hashlock of the lock that the party leads, if it leads one.
    pub hashlock: Option<Digest>,
    /// The party's public key for each lock; none with timelocks.
    pub keys: Listed<Digest>,
}

/// A row with the name of its party.
#[derive(Debug, Drop)]
pub struct NamedRow {
    pub name: ByteText,
    pub row: Row,
}

// ---- what a seed gives

fn seeded_hashlock(leads: bool, seed: &Digest) -> Option<Digest>
    ensures { result ≡ seeded_hashlock leads seed.now }
{
    if leads {
        Some(hashed_value(&derive_secret(seed)))
    } else {
        None
    }
}

/// The public keys that its seed gives a party, one for each lock.
fn public_keys(
    alloc: Global,
    seed: &Digest,
    party: PartyId,
    locks: u8,
) -> Result<Listed<Digest>, NoMemory>
    ensures { IfOk result (λ l. l ≡ map (derive_public_key seed.now party) (range_with_len 0 locks)) }
{
    let mut keys = Vec::new(alloc);
    'locks: for lock in 0..locks {
        let (_, public) = keygen(alloc, seed, party, lock)?;
        keys.push(public)?;
    }
    Ok(Listed::new(keys))
}

fn seeded_keys(
    alloc: Global,
    seed: &Digest,
    party: PartyId,
    deal: &Deal,
) -> Result<Listed<Digest>, NoMemory>
    requires { length deal.now.leaders ≤ 8 }
    ensures { IfOk result (λ l. l ≡ seeded_keys deal.now.mode seed.now party deal.now) }
{
    match deal.mode {
        Mode::Timelocks => Ok(Listed::empty(alloc)),
        Mode::Hashkeys => public_keys(alloc, seed, party, deal.leaders.len() as u8),
    }
}

/// The row that its seed gives a party.
#[tactic(auto, unfolding(crate::specs::Row::seeded_row))]
pub(crate) fn seeded_row(
    alloc: Global,
    seed: &Digest,
    party: PartyId,
    deal: &Deal,
) -> Result<Row, NoMemory>
    requires { length deal.now.leaders ≤ 8 }
    ensures { IfOk result (λ r. r ≡ seeded_row seed.now party deal.now) }
{
    Ok(Row {
        hashlock: seeded_hashlock(leads_one(deal, party), seed),
        keys: seeded_keys(alloc, seed, party, deal)?,
    })
}

// ---- what a line says

fn name_said(alloc: Global, word: &[u8]) -> Result<ByteText, WordFault>
    ensures { Gives (λ n. n) result (name_said word.now) }
{
    if is_name(word) {
        Ok(ByteText::from_slice(alloc, word)?)
    } else {
        Err(misspelt())
    }
}

#[tactic(auto, unfolding(transcript_book::specs::Reading::parse_first_field))]
fn name_field(alloc: Global, fields: &mut Parts<'_>) -> Result<ByteText, WordFault>
    ensures { Takes (λ n. n) result fields.new (parse_first_field name_said fields.old) }
{
    name_said(alloc, word(fields)?)
}

fn hashlock_said(word: &[u8]) -> Result<Option<Digest>, WordFault>
    ensures { Gives (λ o. o) result (hashlock_said word.now) }
{
    if word == b"-".as_slice() {
        return Ok(None);
    }
    Ok(Some(lower_hex_digest(word)?))
}

#[tactic(auto, unfolding(transcript_book::specs::Reading::parse_first_field))]
fn hashlock_field(fields: &mut Parts<'_>) -> Result<Option<Digest>, WordFault>
    ensures { Takes (λ o. o) result fields.new (parse_first_field hashlock_said fields.old) }
{
    hashlock_said(word(fields)?)
}

fn each_digest(alloc: Global, parts: &mut Parts<'_>) -> Result<Listed<Digest>, WordFault>
    ensures { Gives (λ l. l) result (parse_each_word lower_hex_digest parts.old) }
{
    let mut list = Vec::new(alloc);
    while let Some(word) = parts.next() {
        list.push(lower_hex_digest(word)?)?;
    }
    Ok(Listed::new(list))
}

/// The digests that a word says, with commas between them.
fn parse_digests(alloc: Global, word: &[u8]) -> Result<Listed<Digest>, WordFault>
    ensures { Gives (λ l. l) result (listed_field lower_hex_digest word.now) }
{
    if word == b"-".as_slice() {
        return Ok(Listed::empty(alloc));
    }
    each_digest(alloc, &mut Parts::new(b',', word))
}

#[tactic(auto, unfolding(transcript_book::specs::Reading::parse_first_field))]
fn digests_field(alloc: Global, fields: &mut Parts<'_>) -> Result<Listed<Digest>, WordFault>
    ensures { Takes (λ l. l) result fields.new (parse_first_field (listed_field lower_hex_digest) fields.old) }
{
    parse_digests(alloc, word(fields)?)
}

#[tactic(auto, unfolding(crate::specs::Row::row_said))]
fn row_said(alloc: Global, fields: &mut Parts<'_>) -> Result<NamedRow, WordFault>
    ensures { Gives (λ r. r) result (row_said fields.old) }
{
    this_word(b"row".as_slice(), fields)?;
    let name = name_field(alloc, fields)?;
    let hashlock = hashlock_field(fields)?;
    let keys = digests_field(alloc, fields)?;
    nothing_more(fields)?;
    Ok(NamedRow {
        name,
        row: Row { hashlock, keys },
    })
}

/// The name and its row that a line says.
#[tactic(auto, unfolding(crate::specs::Row::parse_row))]
pub(crate) fn parse_row(alloc: Global, line: &[u8]) -> Result<NamedRow, WordFault>
    ensures { Gives (λ r. r) result (parse_row line.now) }
{
    row_said(alloc, &mut Parts::new(b' ', line))
}
