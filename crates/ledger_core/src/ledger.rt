//! The ledger of one arc.

ghost use Rattle.std.specs.Prelude.{◌≡◌, ◌≢◌, ◌<◌, ◌≤◌, ◌+◌, ◌==◌, ◌||◌, ◌&&◌, [], IsTrue, length, drop, is_some, is_none, OnOk, OnErr, IfOk};
ghost use Rattle.swap_digraph.specs.Deal.{party, counterparty, IsWellSized, touches};
ghost use Rattle.ledger_core.specs.History.{height, held, balance, accounts, published, settled, fit, is_full, history_reply, reply_to_tick, IsLegal};
ghost use Rattle.ledger_core.specs.CallSignatures.{is_known_call};
ghost use Rattle.ledger_core.specs.Ledger.{call_entry, tick_entry, HasEntryAdded, AreKept, AddUp};

use crate::accounts::Accounts;
use crate::entry::{Call, Entry, Sender, What};
use crate::entry_list::EntryList;
use crate::ledger_history::LedgerHistory;
use crate::make_reply::{MadeCall, make_reply, one_more_where, updated_accounts};
use escrow_core::{Contract, Reply};
use std::alloc::Global;
use std::marker::Model;
use swap_base::{ArcId, NoMemory, PartyId, Shared, TryCopy};
use swap_digraph::Deal;

/// A ledger: its history, and beside it the height, the accounts, the contract and how many entries
/// each sender has.
#[derive(Debug, Drop)]
pub struct Ledger {
    deal: Shared<Deal>,
    arc: ArcId,
    party: PartyId,
    counterparty: PartyId,
    history: LedgerHistory,
    height: u32,
    accounts: Accounts,
    contract: Option<Contract>,
    party_calls: u32,
    counterparty_calls: u32,
    ticks: u32,
}

impl Model for Ledger {
    ghost use Rattle.ledger_core.specs.Value.{LedgerState};

    ghost Value = { LedgerState };

    ghost use Rattle.ledger_core.specs.Inside.{make_ledger, IsKeptLedger};

    ghost view = { make_ledger };

    ghost invariant = { IsKeptLedger };
}

impl Ledger {
    /// A ledger at height 0 without entries. The arc's party holds the amount. It is one more
    /// holder of the deal.
    pub fn new(alloc: Global, deal: &Shared<Deal>, arc: ArcId) -> Result<Ledger, NoMemory>
        requires sized { IsWellSized deal.now }
        requires arc { arc < length deal.now.graph.arcs }
        ensures { IfOk result (λ l. l ≡ record { deal = deal.now; arc = arc; history = []; spare = 0 }) }
    {
        let ends = deal.graph.arcs()[arc as usize];
        let amount = deal.amounts.as_slice()[arc as usize];
        Ok(Ledger {
            deal: deal.copy()?,
            arc,
            party: ends.from,
            counterparty: ends.to,
            history: LedgerHistory::new(alloc),
            height: 0,
            accounts: Accounts {
                party: amount,
                counterparty: 0,
                held: 0,
            },
            contract: None,
            party_calls: 0,
            counterparty_calls: 0,
            ticks: 0,
        })
    }

    /// Makes room for a further entry. Want of memory leaves everything as it was.
    pub fn reserve(&mut self) -> Result<(), NoMemory>
        ensures ok { OnOk result (0 < self.new.spare) }
        ensures err { OnErr result (self.new ≡ self.old) }
        ensures deal { self.new.deal ≡ self.old.deal }
        ensures arc { self.new.arc ≡ self.old.arc }
        ensures history { self.new.history ≡ self.old.history }
        ensures spare { self.old.spare ≤ self.new.spare }
    {
        self.history.reserve()?;
        Ok(())
    }

    /// Whether the sender has as many entries as a ledger takes.
    fn is_full(&self, p: PartyId) -> bool
        requires { IsTrue (touches self.now.deal p self.now.arc) }
        ensures { result ≡ is_full self.now.history p }
    {
        let calls = if p == self.party {
            self.party_calls
        } else {
            self.counterparty_calls
        };
        calls >= 32
    }

    /// Makes a call at the present height, and answers with the reply that the table gives. The
    /// last `verified` signatures of its hashkey were verified before, and aren't verified here. It
    /// takes no memory.
    pub fn apply(&mut self, sender: PartyId, call: Call, verified: usize) -> Reply
        requires spare { 0 < self.old.spare }
        requires of_the_two { IsTrue (touches self.old.deal sender self.old.arc) }
        requires fits { IsTrue (fit self.old.deal self.old.arc call) }
        requires known { IsTrue (is_known_call verified self.old.deal call) }
        ensures reply { result ≡ history_reply self.old.deal self.old.arc self.old.history sender call }
        ensures full { result ≡ Reply.SenderFull → self.new ≡ self.old }
        ensures kept { result ≢ Reply.SenderFull → HasEntryAdded self.old (call_entry sender (height self.old.history) call result) self.new }
        ensures refused { result ≢ Reply.Accepted → AreKept self.old.deal self.old.arc self.old.history self.new.history }
        ensures spare { self.old.spare ≤ self.new.spare + 1 }
        ensures legal { IsLegal self.new.deal self.new.arc self.new.history }
    {
        if self.is_full(sender) {
            return Reply::SenderFull;
        }
        let balance = self.balance(sender);
        let from_party = sender == self.party;
        let made = MadeCall {
            sender,
            call: &call,
            verified,
        };
        let reply = make_reply(
            &self.deal,
            self.arc,
            &mut self.contract,
            self.height,
            balance,
            &made,
        );
        self.accounts = updated_accounts(self.party, self.accounts, from_party, &call, reply);
        self.party_calls = one_more_where(from_party, self.party_calls);
        self.counterparty_calls = one_more_where(
            sender == self.counterparty,
            self.counterparty_calls,
        );
        let entry = Entry {
            sender: Sender::Party(sender),
            height: self.height,
            what: What::Call(call),
            reply,
        };
        self.history.push(entry);
        reply
    }

    /// Raises the height by k. It takes no memory.
    pub fn tick(&mut self, k: u32) -> Reply
        requires spare { 0 < self.old.spare }
        requires some { 1 ≤ k }
        requires below { k ≤ 1000000 }
        ensures reply { result ≡ reply_to_tick self.old.history k }
        ensures full { result ≡ Reply.ClockFull → self.new ≡ self.old }
        ensures kept { result ≡ Reply.Accepted → HasEntryAdded self.old (tick_entry k (height self.old.history + k) Reply.Accepted) self.new }
        ensures spare { self.old.spare ≤ self.new.spare + 1 }
        ensures legal { IsLegal self.new.deal self.new.arc self.new.history }
    {
        if self.ticks >= 20000 || self.height + k > 1000000 {
            return Reply::ClockFull;
        }
        self.height += k;
        self.ticks += 1;
        self.history.tick(k, self.height);
        Reply::Accepted
    }

    /// The entries, oldest first.
    pub fn history(&self) -> &LedgerHistory
        ensures value { result.now.list ≡ self.now.history }
        ensures legal { IsLegal self.now.deal self.now.arc result.now.list }
        ensures units { AddUp self.now.deal self.now.arc result.now.list }
    {
        &self.history
    }

    /// How many entries there are.
    pub fn len(&self) -> u32
        ensures { result ≡ length self.now.history }
    {
        self.history.len() as u32
    }

    /// The entries, without taking memory.
    pub fn into_history(self) -> EntryList
        ensures value { result ≡ self.history }
        ensures legal { IsLegal self.deal self.arc result }
    {
        EntryList::from_history(self.history)
    }

    /// The sum of the ticks.
    pub fn height(&self) -> u32
        ensures value { result ≡ height self.now.history }
        ensures low { result ≤ 1000000 }
    {
        self.height
    }

    /// The balance of one of the arc's two parties, in units.
    pub fn balance(&self, p: PartyId) -> u64
        requires { IsTrue (touches self.now.deal p self.now.arc) }
        ensures { result ≡ balance self.now.deal self.now.arc self.now.history p }
    {
        if p == self.party {
            self.accounts.party
        } else {
            self.accounts.counterparty
        }
    }

    /// The units that the contract holds.
    pub fn held(&self) -> u64
        ensures { result ≡ held self.now.history }
    {
        self.accounts.held
    }

    /// Both balances and the held amount, in units.
    pub fn accounts(&self) -> Accounts
        ensures { result ≡ accounts self.now.deal self.now.arc self.now.history }
    {
        self.accounts
    }

    /// Whether a publish was accepted.
    pub fn is_published(&self) -> bool
        ensures { result ≡ is_some (published self.now.history) }
    {
        self.contract.is_some()
    }

    /// Whether what was published is neither claimed nor refunded.
    pub fn is_unsettled(&self) -> bool
        ensures { result ≡ (is_some (published self.now.history) && is_none (settled self.now.history)) }
    {
        match &self.contract {
            Some(contract) => !contract.is_settled(),
            None => false,
        }
    }

    pub fn arc(&self) -> ArcId
        ensures value { result ≡ self.now.arc }
        ensures below { result < length self.now.deal.graph.arcs }
    {
        self.arc
    }

    /// The deal that the ledger was made for.
    pub fn deal(&self) -> &Deal
        ensures value { result.now ≡ self.now.deal }
        ensures sized { IsWellSized result.now }
    {
        &self.deal
    }

    /// A copy of the entries from k on.
    pub fn copy_tail(&self, k: usize) -> Result<EntryList, NoMemory>
        requires { k ≤ length self.now.history }
        ensures { IfOk result (λ l. l ≡ drop k self.now.history) }
    {
        Ok(EntryList::from_history(self.history.copy_tail(k)?))
    }
}
