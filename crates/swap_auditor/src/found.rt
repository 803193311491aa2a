//! Hashkeys whose signatures were found valid, so that each nested signature is verified once.

ghost use Rattle.std.specs.Prelude.{◌≡◌, ◌≤◌, IsTrue, IfOk, length, true};
ghost use Rattle.swap_digraph.specs.Deal.{IsWellSized};
ghost use Rattle.hashkey_path.specs.LastSignatures.{is_last_signed};
ghost use Rattle.ledger_core.specs.CallSignatures.{is_known_call};
ghost use Rattle.swap_auditor.specs.Found.{IsSigned, TellsSignatures, SharesLast};

use crate::same_reply::is_after_check;
use escrow_core::Reply;
use hash_signature::same_sigs;
use hashkey_path::Hashkey;
use ledger_core::Call;
use std::alloc::Global;
use std::marker::Model;
use swap_base::{Digest, NoMemory, PartyId, Shared, TryCopy};
use swap_digraph::Deal;

/// Hashkeys whose every signature was found valid under a deal. Contracts see the deal alone.
#[derive(Debug, Drop)]
pub struct Found {
    deal: Shared<Deal>,
    keys: Vec<Shared<Hashkey>>,
}

impl Model for Found {
    ghost use Rattle.swap_digraph.specs.declared.deal.Deal.{Deal};

    ghost Value = { Deal };

    ghost use Rattle.swap_auditor.specs.Found.{inside_deal, AreSigned};

    ghost view = { inside_deal };

    ghost invariant = { AreSigned };
}

/// How many of the last vertices of both paths are the same.
fn shared_vertices(one: &[PartyId], other: &[PartyId]) -> usize
    ensures within { result ≤ length one.now }
    ensures within_other { result ≤ length other.now }
{
    let mut n: usize = 0;
    while n < one.len() && n < other.len() && one[one.len() - 1 - n] == other[other.len() - 1 - n] {
        n += 1;
    }
    n
}

fn same_path(one: &[PartyId], other: &[PartyId]) -> bool
    ensures { result ≡ true → one.now ≡ other.now }
{
    one == other
}

fn same_secret(one: &Digest, other: &Digest) -> bool
    ensures { result ≡ true → one.now ≡ other.now }
{
    one == other
}

/// Whether both have the same lock and secret, and the same last n vertices and signatures.
fn shares_last(one: &Hashkey, other: &Hashkey, n: usize) -> bool
    ensures { result ≡ true → SharesLast n one.now other.now }
{
    let count = one.sigs.len();
    let other_count = other.sigs.len();
    count == one.path.len()
        && other_count == other.path.len()
        && n <= count
        && n <= other_count
        && one.lock == other.lock
        && same_secret(&one.secret, &other.secret)
        && same_path(
            &one.path.as_slice()[count - n..],
            &other.path.as_slice()[other_count - n..],
        )
        && same_sigs(
            &one.sigs.as_slice()[count - n..],
            &other.sigs.as_slice()[other_count - n..],
        )
}

impl Found {
    /// No hashkeys yet, for that deal.
    pub fn new(alloc: Global, deal: &Shared<Deal>) -> Result<Found, NoMemory>
        requires { IsWellSized deal.now }
        ensures { IfOk result (λ f. f ≡ deal.now) }
    {
        Ok(Found {
            deal: deal.copy()?,
            keys: Vec::new(alloc),
        })
    }

    /// How many of the hashkey's last signatures were found valid.
    fn known_key(&self, key: &Hashkey) -> usize
        ensures { IsTrue (is_last_signed result self.now key.now) }
    {
        let mut most = 0;
        for found in &self.keys {
            let shared = shared_vertices(key.path.as_slice(), found.path.as_slice());
            if most < shared && shares_last(key, found, shared) {
                most = shared;
            }
        }
        most
    }

    /// How many of the last signatures of the hashkey that the call presents, if it does, were
    /// found valid.
    pub(crate) fn known_signature_count(&self, call: &Call) -> usize
        ensures { IsTrue (is_known_call result self.now call.now) }
    {
        match call {
            Call::Unlock(key) => self.known_key(key),
            _ => 0,
        }
    }

    /// Keeps the hashkey, which the reply tells to be valid.
    fn keep(&mut self, key: &Shared<Hashkey>) -> Result<(), NoMemory>
        requires { IsSigned self.old key.now }
        ensures { self.new ≡ self.old }
    {
        self.keys.push(key.copy()?)?;
        Ok(())
    }

    /// Keeps the hashkey of a call if the reply tells that its signatures are valid. The last
    /// `verified` of them were verified before.
    pub(crate) fn note(
        &mut self,
        call: &Call,
        reply: Reply,
        verified: usize,
    ) -> Result<(), NoMemory>
        requires { TellsSignatures self.old call.now reply }
        ensures { self.new ≡ self.old }
    {
        match call {
            Call::Unlock(key) => {
                if is_after_check(reply) && verified < key.sigs.len() {
                    self.keep(key)
                } else {
                    Ok(())
                }
            }
            _ => Ok(()),
        }
    }
}
