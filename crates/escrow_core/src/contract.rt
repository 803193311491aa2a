//! The contract of an arc.

ghost use Rattle.std.specs.Prelude.{◌≡◌, ◌≢◌, ◌≤◌, ◌<◌, IsTrue, length};
ghost use Rattle.swap_digraph.specs.declared.deal.Deal.{Deal};
ghost use Rattle.swap_digraph.specs.Deal.{IsWellSized};
ghost use Rattle.hashkey_path.specs.LastSignatures.{is_last_signed};
ghost use Rattle.escrow_core.specs.Table.{first_row, unlock_rows, claim_rows, refund_rows};
ghost use Rattle.escrow_core.specs.Value.{AreFitting, IsDealContract, is_lock_open, new_contract, with_opened, with_settled};
ghost use Rattle.escrow_core.specs.ContractRows.{own_claim_rows};

use crate::decisions::{first_closed, key_reply};
use crate::reply::Reply;
use crate::terms::Terms;
use crate::times::refund_expiry;
use hashkey_path::Hashkey;
use std::marker::Model;
use swap_base::{ArcId, LockId, PartyId};
use swap_digraph::Deal;

/// The contract of an arc: its terms, the locks that are opened, and whether it is settled. It is
/// kept in place, and none of its calls takes memory.
#[derive(Clone, Copy, Debug)]
pub struct Contract {
    arc: ArcId,
    from: PartyId,
    to: PartyId,
    terms: Terms,
    opened: [bool; 8],
    settled: bool,
}

impl Model for Contract {
    ghost use Rattle.escrow_core.specs.Value.{ContractState};

    ghost Value = { ContractState };

    ghost use Rattle.escrow_core.specs.Inside.{inside_state, HasPlaces, contract_inside, contract_inside_ok};

    ghost view = { inside_state };

    ghost invariant = { HasPlaces };

    ghost inverse = { contract_inside };

    ghost inverse_ok = { contract_inside_ok };
}

impl Contract {
    /// The contract of an arc with these terms, where nothing is opened or settled.
    pub fn new(deal: &Deal, arc: ArcId, terms: Terms) -> Contract
        requires sized { IsWellSized deal.now }
        requires arc { arc < length deal.now.graph.arcs }
        requires fitting { AreFitting deal.now terms }
        ensures value { result ≡ new_contract deal.now arc terms }
        ensures made { IsDealContract deal.now result }
    {
        let ends = deal.graph.arcs()[arc as usize];
        Contract {
            arc,
            from: ends.from,
            to: ends.to,
            terms,
            opened: [false; 8],
            settled: false,
        }
    }

    /// The arc's number.
    pub fn arc(&self) -> ArcId
        ensures { result ≡ self.now.arc }
    {
        self.arc
    }

    /// The terms that were published.
    pub fn terms(&self) -> &Terms
        ensures { result.now ≡ self.now.terms }
    {
        &self.terms
    }

    /// Whether the lock is opened.
    pub fn is_open(&self, lock: LockId) -> bool
        requires { lock < length self.now.opened }
        ensures { result ≡ is_lock_open self.now lock }
    {
        self.opened[lock as usize]
    }

    /// Whether a claim or a refund was accepted.
    pub fn is_settled(&self) -> bool
        ensures { result ≡ self.now.settled }
    {
        self.settled
    }

    /// Whether each lock is opened, by number.
    fn opened(&self) -> &[bool]
        ensures opened { result.now ≡ self.now.opened }
        ensures few { length result.now ≤ 8 }
    {
        &self.opened[..self.terms.locks.len() as usize]
    }

    fn unlock_reply(
        &self,
        deal: &Deal,
        height: u32,
        sender: PartyId,
        key: &Hashkey,
        verified: usize,
    ) -> Reply
        requires sized { IsWellSized deal.now }
        requires of_the_deal { IsDealContract deal.now self.now }
        requires lock { key.now.lock < length deal.now.leaders }
        requires known { IsTrue (is_last_signed verified deal.now key.now) }
        ensures { result ≡ first_row (unlock_rows deal.now self.now.arc self.now.terms (is_lock_open self.now) self.now.settled height sender key.now) }
    {
        if self.is_settled() {
            return Reply::Settled;
        }
        if sender != self.counterparty_id() {
            return Reply::NotCounterparty;
        }
        if self.is_open(key.lock) {
            return Reply::AlreadyUnlocked;
        }
        key_reply(deal, self.arc(), self.terms(), height, key, verified)
    }

    fn claim_reply(&self, sender: PartyId) -> Reply
        ensures { result ≡ first_row (own_claim_rows self.now sender) }
    {
        if self.is_settled() {
            return Reply::Settled;
        }
        if sender != self.counterparty_id() {
            return Reply::NotCounterparty;
        }
        match first_closed(self.opened()) {
            Some(lock) => Reply::StillLocked(lock as u8),
            None => Reply::Accepted,
        }
    }

    fn refund_reply(&self, deal: &Deal, height: u32, sender: PartyId) -> Reply
        requires sized { IsWellSized deal.now }
        requires of_the_deal { IsDealContract deal.now self.now }
        ensures { result ≡ first_row (refund_rows deal.now self.now.arc self.now.terms (is_lock_open self.now) self.now.settled height sender) }
    {
        if self.is_settled() {
            return Reply::Settled;
        }
        if sender != self.party_id() {
            return Reply::NotParty;
        }
        if first_closed(self.opened()).is_none() {
            return Reply::NothingLocked;
        }
        let first = refund_expiry(deal, self.arc(), self.terms(), self.opened()) + 1;
        if (height as u64) < first {
            return Reply::NotExpired(first);
        }
        Reply::Accepted
    }

    /// The party, which the arc leaves.
    fn party_id(&self) -> PartyId
        ensures { result ≡ self.now.from }
    {
        self.from
    }

    /// The counterparty, which the arc enters.
    fn counterparty_id(&self) -> PartyId
        ensures { result ≡ self.now.to }
    {
        self.to
    }

    /// Opens the hashkey's lock, where the table accepts it. The last `verified` signatures were
    /// verified before, and aren't verified here.
    pub fn unlock(
        &mut self,
        deal: &Deal,
        height: u32,
        sender: PartyId,
        key: &Hashkey,
        verified: usize,
    ) -> Reply
        requires sized { IsWellSized deal.now }
        requires of_the_deal { IsDealContract deal.now self.old }
        requires lock { key.now.lock < length deal.now.leaders }
        requires known { IsTrue (is_last_signed verified deal.now key.now) }
        ensures reply { result ≡ first_row (unlock_rows deal.now self.old.arc self.old.terms (is_lock_open self.old) self.old.settled height sender key.now) }
        ensures accepted { result ≡ Reply.Accepted → self.new ≡ with_opened self.old key.now.lock }
        ensures refused { result ≢ Reply.Accepted → self.new ≡ self.old }
        ensures kept { IsDealContract deal.now self.new }
    {
        let reply = self.unlock_reply(deal, height, sender, key, verified);
        match reply {
            Reply::Accepted => self.opened[key.lock as usize] = true,
            _ => {}
        }
        reply
    }

    /// Settles the contract for its counterparty, where the table accepts it.
    pub fn claim(&mut self, sender: PartyId) -> Reply
        ensures reply { (d : Deal) → IsDealContract d self.old → result ≡ first_row (claim_rows d self.old.arc (is_lock_open self.old) self.old.settled sender) }
        ensures accepted { result ≡ Reply.Accepted → self.new ≡ with_settled self.old }
        ensures refused { result ≢ Reply.Accepted → self.new ≡ self.old }
        ensures kept { (d : Deal) → IsDealContract d self.old → IsDealContract d self.new }
    {
        let reply = self.claim_reply(sender);
        match reply {
            Reply::Accepted => self.settled = true,
            _ => {}
        }
        reply
    }

    /// Settles the contract for its party, where the table accepts it.
    pub fn refund(&mut self, deal: &Deal, height: u32, sender: PartyId) -> Reply
        requires sized { IsWellSized deal.now }
        requires of_the_deal { IsDealContract deal.now self.old }
        ensures reply { result ≡ first_row (refund_rows deal.now self.old.arc self.old.terms (is_lock_open self.old) self.old.settled height sender) }
        ensures accepted { result ≡ Reply.Accepted → self.new ≡ with_settled self.old }
        ensures refused { result ≢ Reply.Accepted → self.new ≡ self.old }
        ensures kept { IsDealContract deal.now self.new }
    {
        let reply = self.refund_reply(deal, height, sender);
        match reply {
            Reply::Accepted => self.settled = true,
            _ => {}
        }
        reply
    }
}
