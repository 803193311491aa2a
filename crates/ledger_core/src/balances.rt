//! The units of a ledger after its entries.

ghost use Rattle.std.specs.Prelude.{◌≡◌, ◌<◌, ◌≤◌, ◌+◌, length};
ghost use Rattle.swap_digraph.specs.Deal.{IsWellSized};
ghost use Rattle.ledger_core.specs.History.{accepted, accounts, is_party, moved, IsLegal};
ghost use Rattle.ledger_core.specs.Ledger.{CanMove};
ghost use Rattle.ledger_core.specs.Runs.{expand};

use crate::accounts::Accounts;
use crate::entry::{Entry, Sender, What};
use crate::entry_list::EntryList;
use crate::make_reply::updated_accounts;
use crate::runs::Item;
use swap_base::ArcId;
use swap_digraph::Deal;

/// Whether the sender is the arc's party.
fn is_party(deal: &Deal, arc: ArcId, sender: Sender) -> bool
    requires { arc < length deal.now.graph.arcs }
    ensures { result ≡ is_party deal.now arc sender }
{
    match sender {
        Sender::Party(party) => party == deal.graph.arcs()[arc as usize].from,
        Sender::Clock => false,
    }
}

/// The accounts after an entry, from those before it.
fn next_accounts(deal: &Deal, arc: ArcId, accounts: Accounts, entry: &Entry) -> Accounts
    requires arc { arc < length deal.now.graph.arcs }
    requires funds { CanMove accounts (is_party deal.now arc entry.now.sender) (accepted entry.now) }
    requires bound { accounts.party + accounts.counterparty + accounts.held ≤ 1000000000000 }
    ensures { result ≡ moved deal.now arc accounts entry.now.sender (accepted entry.now) }
{
    let from_party = is_party(deal, arc, entry.sender);
    let party = deal.graph.arcs()[arc as usize].from;
    match &entry.what {
        What::Call(call) => updated_accounts(party, accounts, from_party, call, entry.reply),
        What::Tick(_) => accounts,
    }
}

/// The balances and the held amount of the arc's ledger after the entries of these items, in units.
fn collect_accounts(deal: &Deal, arc: ArcId, items: &[Item]) -> Accounts
    requires sized { IsWellSized deal.now }
    requires arc { arc < length deal.now.graph.arcs }
    requires legal { IsLegal deal.now arc (expand items.now) }
    ensures { result ≡ accounts deal.now arc (expand items.now) }
{
    let mut accounts = Accounts {
        party: deal.amounts.as_slice()[arc as usize],
        counterparty: 0,
        held: 0,
    };
    for item in items {
        accounts = match item {
            Item::One(entry) => next_accounts(deal, arc, accounts, entry),
            Item::Ticks(_) => accounts,
        };
    }
    accounts
}

/// The balances and the held amount of the arc's ledger after these entries, in units.
pub fn history_accounts(deal: &Deal, arc: ArcId, list: &EntryList) -> Accounts
    requires sized { IsWellSized deal.now }
    requires arc { arc < length deal.now.graph.arcs }
    requires legal { IsLegal deal.now arc list.now }
    ensures { result ≡ accounts deal.now arc list.now }
{
    // Ticks move no units.
    let (items, _) = list.parts();
    collect_accounts(deal, arc, items)
}
