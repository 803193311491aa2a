//! A chain: its clock and its free accounts.

ghost use Rattle.std.specs.Prelude.{◌≡◌, ◌≤◌, ◌<◌, ◌+◌, ◌^◌, IsTrue, length, sum_by, false};
ghost use Rattle.swap_many.specs.Accounts.{ChainState, account_units};
ghost use Rattle.swap_many.specs.Chains.{has_no_tick, is_accepted_deed, paid, plus, reply_to_payment, chain_tick_reply};
ghost use Rattle.swap_many.specs.Kept.{later};

use crate::many_reply::ManyReply;
use escrow_core::Reply;
use std::marker::Model;

/// The height of a chain, how often it ticked, and the units that are free in each of its accounts.
#[derive(Drop)]
pub(crate) struct Chain {
    height: u32,
    ticks: u32,
    free: Vec<u64>,
}

impl Model for Chain {
    ghost use Rattle.swap_many.specs.Accounts.{ChainState};

    ghost Value = { ChainState };

    ghost use Rattle.swap_many.specs.Accounts.{inside_chain, IsSafeChain};

    ghost view = { inside_chain };

    ghost invariant = { IsSafeChain };
}

impl Chain {
    /// A chain before any tick, with these free accounts.
    pub(crate) fn new(free: Vec<u64>) -> Chain
        requires few { sum_by (λ u. u) free.items ≤ 10 ^ 18 }
        ensures { result ≡ record { clock = record { height = 0; ticks = 0 }; free = free.items } }
    {
        Chain {
            height: 0,
            ticks: 0,
            free,
        }
    }

    /// The height.
    pub(crate) fn height(&self) -> u32
        ensures { result ≡ self.now.clock.height }
    {
        self.height
    }

    /// The free units of an account.
    pub(crate) fn free(&self, account: u8) -> u64
        requires { account < length self.now.free }
        ensures { result ≡ account_units self.now.free account }
    {
        self.free[account as usize]
    }

    /// Ticks by k heights, unless the clock is full.
    pub(crate) fn tick(&mut self, k: u32) -> ManyReply
        requires below { k ≤ 1000000 }
        ensures reply { result ≡ chain_tick_reply self.old.clock.ticks self.old.clock.height k }
        ensures full { IsTrue (has_no_tick self.old.clock.ticks self.old.clock.height k) → self.new ≡ self.old }
        ensures ticked { has_no_tick self.old.clock.ticks self.old.clock.height k ≡ false
            → self.new ≡ record self.old { clock = later self.old.clock k } }
    {
        if self.ticks >= 20000 || self.height + k > 1000000 {
            return ManyReply::Plain(Reply::ClockFull);
        }
        self.height += k;
        self.ticks += 1;
        ManyReply::Plain(Reply::Accepted)
    }

    /// Pays units from one free account to another, where the first has them.
    pub(crate) fn pay(&mut self, from: u8, to: u8, units: u64) -> ManyReply
        requires from { from < length self.old.free }
        requires to { to < length self.old.free }
        ensures reply { result ≡ reply_to_payment (account_units self.old.free from) units }
        ensures refused { is_accepted_deed (reply_to_payment (account_units self.old.free from) units) ≡ false → self.new ≡ self.old }
        ensures paid { IsTrue (is_accepted_deed (reply_to_payment (account_units self.old.free from) units))
            → account_units self.new.free ≡ paid (account_units self.old.free) from to units }
        ensures clock { self.new.clock ≡ self.old.clock }
        ensures count { length self.new.free ≡ length self.old.free }
        ensures sum { sum_by (λ u. u) self.new.free ≡ sum_by (λ u. u) self.old.free }
    {
        let have = self.free[from as usize];
        if have < units {
            return ManyReply::Plain(Reply::NoFunds(have));
        }
        self.free[from as usize] = have - units;
        self.free[to as usize] += units;
        ManyReply::Plain(Reply::Accepted)
    }

    /// Puts units into a free account.
    pub(crate) fn put_back(&mut self, account: u8, units: u64)
        requires account { account < length self.old.free }
        requires few { sum_by (λ u. u) self.old.free + units ≤ 10 ^ 18 }
        ensures units { account_units self.new.free ≡ plus (account_units self.old.free) account units }
        ensures clock { self.new.clock ≡ self.old.clock }
        ensures count { length self.new.free ≡ length self.old.free }
        ensures sum { sum_by (λ u. u) self.new.free ≡ sum_by (λ u. u) self.old.free + units }
    {
        self.free[account as usize] += units;
    }
}
