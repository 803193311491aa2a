//! Events of chains: ticks, payments and sweeps.

ghost use Rattle.std.specs.Prelude.{◌≡◌, ◌<◌, ◌≤◌, [], ℕ, length, slice_index_or, IfOk};
ghost use Rattle.swap_base.specs.Fault.{Gives};
ghost use Rattle.transcript_book.specs.Taking.{Takes};
ghost use Rattle.transcript_book.specs.Reading.{parse_first_field};
ghost use Rattle.many_lines.specs.Fields.{read_account, parse_heights, parse_payment_fields, parse_payment, parse_sweep_fields, parse_chain_tick, parse_units};

use crate::number::parse_units;
use swap_base::{ByteText, Listed, find_place};
use transcript_book::{
    Parts, WordFault, bounded_field, misspelt, nothing_more, read_bounded, word,
};

/// A payment on a chain, from one account to another, by their places.
#[derive(Clone, Copy, Debug, PartialEq, Eq)]
pub struct Payment {
    pub chain: u8,
    pub from: u8,
    pub to: u8,
    pub units: u64,
}

fn parse_heights(word: &[u8]) -> Result<u32, WordFault>
    ensures exact { Gives (λ n. n) result (parse_heights word.now) }
    ensures some { IfOk result (λ n. 1 ≤ n) }
    ensures few { IfOk result (λ n. n ≤ 1000000) }
{
    let n = read_bounded(1_000_001, word)?;
    if n < 1 {
        return Err(misspelt());
    }
    Ok(n as u32)
}

#[tactic(auto, unfolding(transcript_book::specs::Reading::parse_first_field))]
fn heights_field(fields: &mut Parts<'_>) -> Result<u32, WordFault>
    ensures exact { Takes (λ n. n) result fields.new (parse_first_field parse_heights fields.old) }
    ensures some { IfOk result (λ n. 1 ≤ n) }
    ensures few { IfOk result (λ n. n ≤ 1000000) }
{
    parse_heights(word(fields)?)
}

/// A tick of a chain, by the fields after the first: the chain, which is below the number of
/// chains, and by how many heights.
#[tactic(auto, unfolding(crate::specs::Fields::parse_chain_tick))]
pub fn read_tick(chains: usize, fields: &mut Parts<'_>) -> Result<(u8, u32), WordFault>
    requires { chains ≤ 256 }
    ensures exact { Gives (λ t. t) result (parse_chain_tick chains fields.old) }
    ensures chain { IfOk result (λ t. t.0 < chains) }
    ensures some { IfOk result (λ t. 1 ≤ t.1) }
    ensures few { IfOk result (λ t. t.1 ≤ 1000000) }
{
    let chain = bounded_field(chains, fields)?;
    let by = heights_field(fields)?;
    nothing_more(fields)?;
    Ok((chain, by))
}

fn read_account(names: &[ByteText], name: &[u8]) -> Result<u8, WordFault>
    requires { length names.now ≤ 256 }
    ensures exact { Gives (λ x. x) result (read_account names.now name.now) }
    ensures known { IfOk result (λ x. x < length names.now) }
{
    match find_place(names, name) {
        Some(place) => Ok(place as u8),
        None => Err(misspelt()),
    }
}

#[tactic(auto, unfolding(transcript_book::specs::Reading::parse_first_field))]
fn account_field(names: &[ByteText], fields: &mut Parts<'_>) -> Result<u8, WordFault>
    requires { length names.now ≤ 256 }
    ensures exact { Takes (λ x. x) result fields.new (parse_first_field (read_account names.now) fields.old) }
    ensures known { IfOk result (λ x. x < length names.now) }
{
    read_account(names, word(fields)?)
}

#[tactic(auto, unfolding(transcript_book::specs::Reading::parse_first_field))]
fn units_field(fields: &mut Parts<'_>) -> Result<u64, WordFault>
    ensures { Takes (λ n. n) result fields.new (parse_first_field parse_units fields.old) }
{
    parse_units(word(fields)?)
}

/// A payment on a chain with accounts of these names, by the fields after its number.
#[tactic(auto, unfolding(crate::specs::Fields::parse_payment))]
fn parse_payment(
    chain: u8,
    names: &[ByteText],
    fields: &mut Parts<'_>,
) -> Result<Payment, WordFault>
    requires { length names.now ≤ 256 }
    ensures exact { Gives (λ p. p) result (parse_payment chain names.now fields.old) }
    ensures chain { IfOk result (λ p. p.chain ≡ chain) }
    ensures from { IfOk result (λ p. p.from < length names.now) }
    ensures to { IfOk result (λ p. p.to < length names.now) }
{
    let from = account_field(names, fields)?;
    let to = account_field(names, fields)?;
    let units = units_field(fields)?;
    nothing_more(fields)?;
    Ok(Payment {
        chain,
        from,
        to,
        units,
    })
}

/// A payment, by the names of each chain's accounts and the fields after the first.
#[tactic(auto, unfolding(crate::specs::Fields::parse_payment_fields))]
pub fn read_payment(
    names: &[Listed<ByteText>],
    fields: &mut Parts<'_>,
) -> Result<Payment, WordFault>
    requires chains { length names.now ≤ 256 }
    requires accounts { (i : ℕ) → i < length names.now → length (slice_index_or names.now i []) ≤ 256 }
    ensures exact { Gives (λ p. p) result (parse_payment_fields names.now fields.old) }
    ensures chain { IfOk result (λ p. p.chain < length names.now) }
    ensures from { IfOk result (λ p. p.from < length (slice_index_or names.now p.chain [])) }
    ensures to { IfOk result (λ p. p.to < length (slice_index_or names.now p.chain [])) }
{
    let chain = bounded_field(names.len(), fields)?;
    parse_payment(chain, names[chain as usize].as_slice(), fields)
}

/// A sweep, by the fields after the first: a swap and its arc.
#[tactic(auto, unfolding(crate::specs::Fields::parse_sweep_fields))]
pub fn read_sweep(fields: &mut Parts<'_>) -> Result<(u8, u8), WordFault>
    ensures { Gives (λ s. s) result (parse_sweep_fields fields.old) }
{
    let swap = bounded_field(256, fields)?;
    let arc = bounded_field(256, fields)?;
    nothing_more(fields)?;
    Ok((swap, arc))
}
