//! What the fields of a line say, or that the line has another form.

ghost use Rattle.std.specs.Prelude.{◌<◌, ◌≤◌, [], ℕ, length, slice_index_or, IfOk};
ghost use Rattle.swap_base.specs.Fault.{Gives};
ghost use Rattle.transcript_book.specs.Reading.{bounded_number};
ghost use Rattle.many_lines.specs.Fields.{history_accounts, parse_chain_list, parse_finish_fields, parse_payment_fields, parse_sweep_fields, parse_chain_tick};
ghost use Rattle.many_lines.specs.Below.{AreChainsBelow, IsBoundedChain};
ghost use Rattle.many_lines.specs.Heading.{by_fields};

use crate::accounts::{ChainAccounts, read_accounts};
use crate::chain_list::{read_chains, read_finish};
use crate::fault::by_field;
use crate::payment::{Payment, read_payment, read_sweep, read_tick};
use command_input::HeaderFault;
use std::alloc::Global;
use swap_base::{ByteText, Listed};
use swap_job::Finish;
use transcript_book::{Parts, read_bounded};

/// The accounts of a chain.
#[tactic(auto, using(crate::proofs::Failing::fails))]
pub(crate) fn collect_accounts(
    alloc: Global,
    line: u32,
    fields: &mut Parts<'_>,
) -> Result<ChainAccounts, HeaderFault>
    ensures exact { Gives (λ a. a) result (by_fields line (history_accounts fields.old)) }
    ensures whole { IfOk result (λ a. IsBoundedChain a.names a.units) }
{
    match read_accounts(alloc, fields) {
        Ok(accounts) => Ok(accounts),
        Err(fault) => Err(by_field(alloc, line, fault)),
    }
}

/// The chains of a swap's arcs, one for each arc.
#[tactic(auto, using(crate::proofs::Failing::fails))]
pub(crate) fn parse_chains(
    alloc: Global,
    line: u32,
    count: usize,
    fields: &mut Parts<'_>,
) -> Result<Listed<u8>, HeaderFault>
    requires { count ≤ 256 }
    ensures exact { Gives (λ l. l) result (by_fields line (parse_chain_list count fields.old)) }
    ensures below { IfOk result (λ l. AreChainsBelow count l) }
{
    match read_chains(alloc, count, fields) {
        Ok(chains) => Ok(chains),
        Err(fault) => Err(by_field(alloc, line, fault)),
    }
}

/// The finish.
#[tactic(auto, using(crate::proofs::Failing::fails))]
pub(crate) fn parse_finish(
    alloc: Global,
    line: u32,
    fields: &mut Parts<'_>,
) -> Result<Finish, HeaderFault>
    ensures { Gives (λ f. f) result (by_fields line (parse_finish_fields fields.old)) }
{
    match read_finish(fields) {
        Ok(finish) => Ok(finish),
        Err(fault) => Err(by_field(alloc, line, fault)),
    }
}

/// A tick of a chain, which is below the number of chains.
#[tactic(auto, using(crate::proofs::Failing::fails))]
pub(crate) fn parse_tick(
    alloc: Global,
    line: u32,
    chains: usize,
    fields: &mut Parts<'_>,
) -> Result<(u8, u32), HeaderFault>
    requires { chains ≤ 256 }
    ensures exact { Gives (λ t. t) result (by_fields line (parse_chain_tick chains fields.old)) }
    ensures chain { IfOk result (λ t. t.0 < chains) }
    ensures some { IfOk result (λ t. 1 ≤ t.1) }
    ensures few { IfOk result (λ t. t.1 ≤ 1000000) }
{
    match read_tick(chains, fields) {
        Ok(tick) => Ok(tick),
        Err(fault) => Err(by_field(alloc, line, fault)),
    }
}

/// A payment, by the names of each chain's accounts.
#[tactic(auto, using(crate::proofs::Failing::fails))]
pub(crate) fn read_chain_payment(
    alloc: Global,
    line: u32,
    names: &[Listed<ByteText>],
    fields: &mut Parts<'_>,
) -> Result<Payment, HeaderFault>
    requires chains { length names.now ≤ 256 }
    requires accounts { (i : ℕ) → i < length names.now → length (slice_index_or names.now i []) ≤ 256 }
    ensures exact { Gives (λ p. p) result (by_fields line (parse_payment_fields names.now fields.old)) }
    ensures chain { IfOk result (λ p. p.chain < length names.now) }
    ensures from { IfOk result (λ p. p.from < length (slice_index_or names.now p.chain [])) }
    ensures to { IfOk result (λ p. p.to < length (slice_index_or names.now p.chain [])) }
{
    match read_payment(names, fields) {
        Ok(payment) => Ok(payment),
        Err(fault) => Err(by_field(alloc, line, fault)),
    }
}

/// A sweep.
#[tactic(auto, using(crate::proofs::Failing::fails))]
pub(crate) fn parse_sweep(
    alloc: Global,
    line: u32,
    fields: &mut Parts<'_>,
) -> Result<(u8, u8), HeaderFault>
    ensures { Gives (λ s. s) result (by_fields line (parse_sweep_fields fields.old)) }
{
    match read_sweep(fields) {
        Ok(sweep) => Ok(sweep),
        Err(fault) => Err(by_field(alloc, line, fault)),
    }
}

/// The number of a swap, which is below the number of swaps.
#[tactic(auto, using(crate::proofs::Failing::fails))]
pub(crate) fn parse_swap(
    alloc: Global,
    line: u32,
    swaps: usize,
    word: &[u8],
) -> Result<u64, HeaderFault>
    ensures exact { Gives (λ n. n) result (by_fields line (bounded_number swaps word.now)) }
    ensures below { IfOk result (λ n. n < swaps) }
{
    match read_bounded(swaps as u64, word) {
        Ok(swap) => Ok(swap),
        Err(fault) => Err(by_field(alloc, line, fault)),
    }
}
