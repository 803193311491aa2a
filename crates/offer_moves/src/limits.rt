//! Numbers in their ranges, and values in hexadecimal.

ghost use Rattle.std.specs.Prelude.{◌≡◌, ◌<◌, ◌^◌, codes};
ghost use Rattle.swap_base.specs.Fault.{Gives};
ghost use Rattle.offer_moves.specs.FieldLimits.{to_digest, ranged_number};
ghost use Rattle.offer_moves.specs.Lists.{collected_results};
ghost use Rattle.offer_moves.specs.Limits.{number_below_count, optional_most, kept, limited_locks, optional_locks, parse_sig};

use crate::field_limits::{check_range, ranged_number};
use crate::hexadecimal::parse_digest;
use crate::text::TextRef;
use command_input::{OfferFault, over_limit, wrong_hex};
use escrow_core::LockList;
use hash_signature::Sig;
use hashkey_path::SigList;
use hex::FromHex;
use std::alloc::Global;
use swap_base::{Digest, Listed};

/// A number that is below a count, kept in a byte.
#[tactic(auto, unfolding(crate::specs::Limits::number_below_count))]
pub fn number_below_count(
    alloc: Global,
    line: u32,
    field: &str,
    count: usize,
    number: u64,
) -> Result<u8, OfferFault>
    ensures { Gives (λ n. n) result (number_below_count line field.now count number) }
{
    if number < count as u64 {
        return Ok((number % 256) as u8);
    }
    Err(over_limit(alloc, line, field.as_bytes(), number))
}

/// A number of up to a million, where there is one.
pub fn optional_most(
    alloc: Global,
    line: u32,
    field: &str,
    number: Option<u64>,
) -> Result<Option<u32>, OfferFault>
    ensures { Gives (λ o. o) result (optional_most line field.now 1000000 number) }
{
    match number {
        None => Ok(None),
        Some(number) => Ok(Some(ranged_number(alloc, line, field, 0, 1_000_000, number)?)),
    }
}

/// Units, at most 10^12.
#[tactic(auto, unfolding(crate::specs::FieldLimits::ranged_number))]
pub fn units(alloc: Global, line: u32, field: &str, number: u64) -> Result<u64, OfferFault>
    ensures { Gives (λ n. n) result (ranged_number line field.now 0 1000000000000 number) }
{
    check_range(alloc, line, field, 0, 1_000_000_000_000, number)?;
    Ok(number)
}

/// Units, where there are any.
pub fn optional_units(
    alloc: Global,
    line: u32,
    field: &str,
    number: Option<u64>,
) -> Result<Option<u64>, OfferFault>
    ensures { Gives (λ o. o) result (optional_most line field.now 1000000000000 number) }
{
    match number {
        None => Ok(None),
        Some(number) => Ok(Some(units(alloc, line, field, number)?)),
    }
}

#[tactic(auto, using(crate::proofs::Lists::goes_on, crate::proofs::Lists::ends, crate::proofs::Lists::is_done))]
fn list_digests(
    alloc: Global,
    line: u32,
    texts: &[TextRef<'_>],
) -> Result<Listed<Digest>, OfferFault>
    ensures { Gives (λ l. l) result (collected_results (to_digest line (codes "locks")) texts.now) }
{
    let mut digests = Vec::new(alloc);
    for text in texts {
        digests.push(parse_digest(alloc, line, "locks", text.as_slice())?)?;
    }
    Ok(Listed::new(digests))
}

/// The digests, as many as a contract may have.
fn kept(digests: &[Digest]) -> LockList
    ensures { result ≡ kept digests.now }
{
    if digests.len() <= 8 {
        return LockList::from_slice(digests);
    }
    LockList::new()
}

/// One digest for each lock.
#[tactic(auto, unfolding(crate::specs::Limits::limited_locks))]
fn limited_locks(
    alloc: Global,
    line: u32,
    count: usize,
    texts: &[TextRef<'_>],
) -> Result<LockList, OfferFault>
    ensures { Gives (λ l. l) result (limited_locks line count texts.now) }
{
    let count = count as u64;
    check_range(alloc, line, "locks", count, count, texts.len() as u64)?;
    let digests = list_digests(alloc, line, texts)?;
    Ok(kept(digests.as_slice()))
}

/// One digest for each lock, where they are given.
pub fn optional_locks(
    alloc: Global,
    line: u32,
    count: usize,
    texts: &Option<Listed<TextRef<'_>>>,
) -> Result<Option<LockList>, OfferFault>
    ensures { Gives (λ o. o) result (optional_locks line count texts.now) }
{
    match texts {
        None => Ok(None),
        Some(texts) => Ok(Some(limited_locks(alloc, line, count, texts.as_slice())?)),
    }
}

/// A signature.
#[tactic(auto, unfolding(crate::specs::Limits::parse_sig))]
fn parse_sig(alloc: Global, line: u32, text: &[u8]) -> Result<Sig, OfferFault>
    ensures { Gives (λ s. s) result (parse_sig line text.now) }
{
    match <[u8; 2144] as FromHex>::from_hex(text) {
        Ok(bytes) => Ok(Sig::from_bytes(&bytes)),
        Err(_) => Err(wrong_hex(alloc, line, b"sigs")),
    }
}

/// Signatures.
#[tactic(auto, using(crate::proofs::Lists::goes_on, crate::proofs::Lists::ends, crate::proofs::Lists::is_done))]
pub fn parse_sigs(alloc: Global, line: u32, texts: &[TextRef<'_>]) -> Result<SigList, OfferFault>
    ensures { Gives (λ l. l) result (collected_results (parse_sig line) texts.now) }
{
    let mut sigs = Vec::new(alloc);
    for text in texts {
        sigs.push(parse_sig(alloc, line, text.as_slice())?)?;
    }
    Ok(Listed::new(sigs))
}
