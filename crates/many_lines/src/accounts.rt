//! The accounts of a chain.

ghost use Rattle.std.specs.Prelude.{◌≡◌, IfOk, OnOk};
ghost use Rattle.swap_base.specs.Fault.{Gives};
ghost use Rattle.many_lines.specs.Fields.{account_added, history_accounts, further_accounts, may_add};
ghost use Rattle.many_lines.specs.Below.{AreFew, IsBoundedChain};

use crate::number::parse_units;
use offer_header::{is_known, is_name};
use std::alloc::Global;
use swap_base::{ByteText, Listed};
use transcript_book::{Parts, WordFault, misspelt};

/// The most accounts of a chain.
const MOST_ACCOUNTS: usize = 64;

/// The accounts of a chain: their names, and the units that each has at first.
#[derive(Debug, Drop)]
pub struct ChainAccounts {
    pub names: Listed<ByteText>,
    pub units: Listed<u64>,
}

fn may_add(names: &[ByteText], name: &[u8]) -> bool
    ensures { result ≡ may_add names.now name.now }
{
    names.len() < MOST_ACCOUNTS && is_name(name) && !is_known(names, name)
}

/// One more account.
#[tactic(auto, using(crate::proofs::Pairs::low_more), unfolding(crate::specs::Fields::account_added))]
fn add_account(
    alloc: Global,
    accounts: &mut ChainAccounts,
    name: &[u8],
    word: &[u8],
) -> Result<(), WordFault>
    ensures exact { Gives (λ _. accounts.new) result (account_added accounts.old name.now word.now) }
    ensures few { OnOk result (AreFew accounts.old → AreFew accounts.new) }
{
    if !may_add(accounts.names.as_slice(), name) {
        return Err(misspelt());
    }
    let units = parse_units(word)?;
    accounts.names.push(ByteText::from_slice(alloc, name)?)?;
    accounts.units.push(units)?;
    Ok(())
}

/// The accounts that the next fields say, each a name with its units.
fn add_accounts(
    alloc: Global,
    accounts: &mut ChainAccounts,
    fields: &mut Parts<'_>,
) -> Result<(), WordFault>
    ensures exact { Gives (λ _. accounts.new) result (further_accounts accounts.old fields.old) }
    ensures few { OnOk result (AreFew accounts.old → AreFew accounts.new) }
{
    while let Some(name) = fields.next() {
        let Some(word) = fields.next() else {
            return Err(misspelt());
        };
        add_account(alloc, accounts, name, word)?;
    }
    Ok(())
}

/// The accounts of a chain, by the fields after the first.
#[tactic(auto, unfolding(crate::specs::Fields::history_accounts))]
pub fn read_accounts(alloc: Global, fields: &mut Parts<'_>) -> Result<ChainAccounts, WordFault>
    ensures exact { Gives (λ a. a) result (history_accounts fields.old) }
    ensures whole { IfOk result (λ a. IsBoundedChain a.names a.units) }
{
    let mut accounts = ChainAccounts {
        names: Listed::empty(alloc),
        units: Listed::empty(alloc),
    };
    add_accounts(alloc, &mut accounts, fields)?;
    if accounts.names.len() < 2 {
        return Err(misspelt());
    }
    Ok(accounts)
}
