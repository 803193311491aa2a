//! Replies of a ledger by its contract and its balances, and what an accepted call leaves of these.

ghost use Rattle.std.specs.Prelude.{◌≡◌, ◌+◌, ◌<◌, ◌≤◌, ◌==◌, IsTrue, length, nat_lt, if◌then◌else◌};
ghost use Rattle.swap_digraph.specs.Deal.{IsWellSized};
ghost use Rattle.ledger_core.specs.History.{accepted_call, moved_accounts, transferred, fit};
ghost use Rattle.ledger_core.specs.CallSignatures.{is_known_call};
ghost use Rattle.ledger_core.specs.Ledger.{reply_by_contract, next_contract, CanMove, IsHistoryContract};

use crate::accounts::Accounts;
use crate::entry::{Call, What};
use escrow_core::{Contract, Reply, Terms};
use swap_base::{ArcId, PartyId, Shared};
use swap_digraph::Deal;

/// The reply to a publish, which makes the contract where it is accepted.
fn publish(
    deal: &Deal,
    arc: ArcId,
    contract: &mut Option<Contract>,
    balance: u64,
    sender: PartyId,
    terms: &Terms,
) -> Reply
    requires sized { IsWellSized deal.now }
    requires arc { arc < length deal.now.graph.arcs }
    requires fits { IsTrue (fit deal.now arc (Call.Publish terms.now)) }
    ensures reply { result ≡ reply_by_contract deal.now arc contract.old 0 balance sender (Call.Publish terms.now) }
    ensures contract { contract.new ≡ next_contract deal.now arc contract.old (accepted_call (What.Call (Call.Publish terms.now)) result) }
{
    if sender != deal.graph.arcs()[arc as usize].from {
        return Reply::NotParty;
    }
    if contract.is_some() {
        return Reply::AlreadyPublished;
    }
    if balance < terms.amount {
        return Reply::NoFunds(balance);
    }
    *contract = Some(Contract::new(deal, arc, *terms));
    Reply::Accepted
}

/// The reply to a transfer.
fn transfer(balance: u64, units: u64) -> Reply
    ensures { result ≡ (if nat_lt balance units then Reply.NoFunds balance else Reply.Accepted) }
{
    if balance < units {
        return Reply::NoFunds(balance);
    }
    Reply::Accepted
}

/// A call as a party makes it: its sender, what it asks, and how many of the last signatures of its
/// hashkey were verified before.
#[derive(Clone, Copy)]
pub(crate) struct MadeCall<'a> {
    pub sender: PartyId,
    pub call: &'a Call,
    pub verified: usize,
}

/// The reply to a call of a sender that hasn't too many entries and has that balance. Where it is
/// accepted, the contract changes with it.
pub(crate) fn make_reply(
    deal: &Shared<Deal>,
    arc: ArcId,
    contract: &mut Option<Contract>,
    height: u32,
    balance: u64,
    made: &MadeCall<'_>,
) -> Reply
    requires sized { IsWellSized deal.now }
    requires arc { arc < length deal.now.graph.arcs }
    requires contract { IsHistoryContract deal.now arc contract.old }
    requires fits { IsTrue (fit deal.now arc made.now.call.now) }
    requires known { IsTrue (is_known_call made.now.verified deal.now made.now.call.now) }
    ensures reply { result ≡ reply_by_contract deal.now arc contract.old height balance made.now.sender made.now.call.now }
    ensures contract { contract.new ≡ next_contract deal.now arc contract.old (accepted_call (What.Call made.now.call.now) result) }
{
    let sender = made.sender;
    match made.call {
        Call::Publish(terms) => publish(deal, arc, contract, balance, sender, terms),
        Call::Unlock(key) => match contract {
            None => Reply::NoContract,
            Some(contract) => contract.unlock(deal, height, sender, key, made.verified),
        },
        Call::Claim => match contract {
            None => Reply::NoContract,
            Some(contract) => contract.claim(sender),
        },
        Call::Refund => match contract {
            None => Reply::NoContract,
            Some(contract) => contract.refund(deal, height, sender),
        },
        Call::Transfer(_, units) => transfer(balance, *units),
    }
}

/// The accounts after a call with that reply, made by the arc's party where `from_party`.
pub(crate) fn updated_accounts(
    party: PartyId,
    accounts: Accounts,
    from_party: bool,
    call: &Call,
    reply: Reply,
) -> Accounts
    requires funds { CanMove accounts from_party (accepted_call (What.Call call.now) reply) }
    requires bound { accounts.party + accounts.counterparty + accounts.held ≤ 1000000000000 }
    ensures { result ≡ moved_accounts party accounts from_party (accepted_call (What.Call call.now) reply) }
{
    if reply != Reply::Accepted {
        return accounts;
    }
    let mut after = accounts;
    match call {
        Call::Publish(terms) => {
            after.party -= terms.amount;
            after.held += terms.amount;
        }
        Call::Unlock(_) => {}
        Call::Claim => {
            after.counterparty += accounts.held;
            after.held = 0;
        }
        Call::Refund => {
            after.party += accounts.held;
            after.held = 0;
        }
        Call::Transfer(to, units) => return transferred(accounts, from_party, *to == party, *units),
    }
    after
}

/// The accounts after units went from one balance to another.
fn transferred(accounts: Accounts, from_party: bool, to_party: bool, units: u64) -> Accounts
    requires funds { units ≤ (if from_party then accounts.party else accounts.counterparty) }
    requires bound { accounts.party + accounts.counterparty + accounts.held ≤ 1000000000000 }
    ensures { result ≡ transferred accounts from_party to_party units }
{
    let mut after = accounts;
    if from_party && !to_party {
        after.party -= units;
        after.counterparty += units;
    }
    if !from_party && to_party {
        after.party += units;
        after.counterparty -= units;
    }
    after
}

/// One more where the test holds.
pub(crate) fn one_more_where(test: bool, n: u32) -> u32
    requires { IsTrue test → n < 20000 }
    ensures { result ≡ n + (if test then 1 else 0) }
{
    if test { n + 1 } else { n }
}
