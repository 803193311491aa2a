//! What a party signs with.

ghost use Rattle.std.specs.Prelude.{◌≡◌, ◌<◌, ◌≤◌, map, length, replicate, slice_set, Some, None, IfOk, OnErr, IsSome, is_some};
ghost use Rattle.std.specs.List.{range_with_len};
ghost use Rattle.swap_digraph.specs.Deal.{IsWellSized};
ghost use Rattle.swap_digraph.specs.Deal.{path_limit};
ghost use Rattle.party_wallet.specs.Value.{signed_hashkey};
ghost use Rattle.party_wallet.specs.Fits.{fits_deal, has_ready, find_public_key, find_wrong_lock, wrong_lock};
ghost use Rattle.party_wallet.specs.Keys.{empty_wallet, new_wallet, party_public, unspent, own_key, onto_key, with_recorded, with_signed};

use crate::fitting::fits_stated;
use crate::held::{onto_held, own_held};
use crate::signed::Signed;
use crate::wallet_key::unspent;
use hash_signature::OneTimeKey;
use hashkey_path::Hashkey;
use std::alloc::Global;
use std::marker::Model;
use std::mem;
use swap_base::{Digest, Listed, LockId, NoMemory, PartyId, Shared, TryCopy};
use swap_digraph::{Deal, Mode};

/// A party's keys, one for each lock of a deal with hashkeys, and the hashkeys that it made. A
/// lock's key is spent by the one hashkey that is made for it, which stays.
#[derive(Drop)]
pub struct Wallet {
    mode: Mode,
    seed: Digest,
    party: PartyId,
    /// The keys that stand ready: those of the locks for which nothing is signed.
    keys: Vec<Option<OneTimeKey>>,
    publics: Vec<Option<Digest>>,
    signed: Signed,
}

/// Keys by lock, and their public keys.
#[derive(Drop)]
struct Keys {
    keys: Vec<Option<OneTimeKey>>,
    publics: Vec<Option<Digest>>,
}

impl Model for Wallet {
    ghost use Rattle.party_wallet.specs.Value.{WalletState};

    ghost Value = { WalletState };

    ghost use Rattle.party_wallet.specs.Inside.{inside_wallet, IsKeptWallet};

    ghost view = { inside_wallet };

    ghost invariant = { IsKeptWallet };
}

fn derived_keys(
    alloc: Global,
    mode: Mode,
    seed: &Digest,
    party: PartyId,
    locks: u8,
) -> Result<Keys, NoMemory>
    ensures keys { IfOk result (λ k. k.keys.items ≡ map (unspent mode seed.now party) (range_with_len 0 locks)) }
    ensures publics { IfOk result (λ k. k.publics.items ≡ map (party_public mode seed.now party) (range_with_len 0 locks)) }
{
    let mut keys = Vec::new(alloc);
    let mut publics = Vec::new(alloc);
    'locks: for lock in 0..locks {
        let (key, public) = unspent(alloc, mode, seed, party, lock)?;
        keys.push(key)?;
        publics.push(public)?;
    }
    Ok(Keys { keys, publics })
}

fn none_signed(alloc: Global, locks: u8) -> Result<Signed, NoMemory>
    ensures { IfOk result (λ s. s.keys ≡ replicate locks None) }
{
    let mut keys = Vec::new(alloc);
    'locks: for _lock in 0..locks {
        keys.push(None)?;
    }
    Ok(Signed {
        keys: Listed::new(keys),
    })
}

/// Notes the hashkey that was signed for a lock. It takes no memory.
fn keep(signed: &mut Signed, alloc: Global, lock: LockId, hashkey: Shared<Hashkey>)
    requires { lock < length signed.old.keys }
    ensures { signed.new.keys ≡ slice_set signed.old.keys lock (Some hashkey) }
{
    let mut keys = mem::replace(&mut signed.keys, Listed::empty(alloc)).into_vec();
    keys[lock as usize] = Some(hashkey);
    signed.keys = Listed::new(keys);
}

impl Wallet {
    /// The keys that a party's seed gives it for a number of locks, with nothing signed.
    pub fn new(
        alloc: Global,
        mode: Mode,
        seed: &Digest,
        me: PartyId,
        locks: u8,
    ) -> Result<Wallet, NoMemory>
        requires { locks ≤ 8 }
        ensures { IfOk result (λ w. w ≡ empty_wallet mode seed.now me locks) }
    {
        let Keys { keys, publics } = derived_keys(alloc, mode, seed, me, locks)?;
        Ok(Wallet {
            mode,
            seed: *seed,
            party: me,
            keys,
            publics,
            signed: none_signed(alloc, locks)?,
        })
    }

    /// The keys that a party's seed gives it for a deal, with nothing signed.
    pub fn for_deal(
        alloc: Global,
        seed: &Digest,
        me: PartyId,
        deal: &Deal,
    ) -> Result<Wallet, NoMemory>
        requires { IsWellSized deal.now }
        ensures { IfOk result (λ w. w ≡ new_wallet seed.now me deal.now) }
    {
        Wallet::new(alloc, deal.mode, seed, me, deal.leaders.len() as u8)
    }

    /// Keeps a hashkey that was signed before for a lock, and spends the lock's key. It takes no
    /// memory.
    fn restore(&mut self, lock: LockId, hashkey: Shared<Hashkey>)
        requires { lock < length self.old.signed }
        ensures { self.new ≡ with_signed self.old lock hashkey }
    {
        let alloc = *self.keys.allocator();
        self.keys[lock as usize] = None;
        keep(&mut self.signed, alloc, lock, hashkey);
    }

    /// A wallet with the hashkeys that were signed before. The key of each of their locks is spent.
    pub fn restored(self, recorded: &[Option<Shared<Hashkey>>]) -> Result<Wallet, NoMemory>
        requires few { length recorded.now ≤ 8 }
        requires places { length self.signed ≡ length recorded.now }
        requires unsigned { self.signed ≡ replicate (length self.signed) None }
        ensures value { IfOk result (λ w. w ≡ with_recorded self recorded.now) }
    {
        let mut wallet = self;
        'locks: for lock in 0..recorded.len() as u8 {
            let Some(hashkey) = &recorded[lock as usize] else {
                continue;
            };
            wallet.restore(lock, hashkey.copy()?);
        }
        Ok(wallet)
    }

    /// The wallet of the same party with just the recorded hashkeys. The key of each of their locks
    /// is spent.
    pub fn resumed(
        &self,
        alloc: Global,
        recorded: &[Option<Shared<Hashkey>>],
    ) -> Result<Wallet, NoMemory>
        requires places { length recorded.now ≡ length self.now.signed }
        ensures value { IfOk result (λ w. w ≡ with_recorded self.now recorded.now) }
    {
        let locks = self.keys.len() as u8;
        let wallet = Wallet::new(alloc, self.mode, &self.seed, self.party, locks)?;
        wallet.restored(recorded)
    }

    /// The least lock for which a new wallet lacks what the deal states of its party.
    pub fn wrong_lock(&self, deal: &Deal) -> Option<LockId>
        requires sized { IsWellSized deal.now }
        requires party { self.now.party < deal.now.graph.n }
        requires new { self.now ≡ new_wallet self.now.seed self.now.party deal.now }
        ensures { result ≡ wrong_lock deal.now self.now.party self.now.seed }
    {
        self.mismatched_lock(deal, self.party)
    }

    /// Whether it has an unspent key of the party for the lock.
    fn has_ready(&self, party: PartyId, lock: LockId) -> bool
        ensures { result ≡ has_ready self.now party lock }
    {
        self.party == party && (lock as usize) < self.signed.keys.len() && !self.is_signed(lock)
    }

    /// The public key of the party for the lock, where it has the key unspent.
    fn find_public_key(&self, party: PartyId, lock: LockId) -> Option<Digest>
        ensures { result ≡ find_public_key self.now party lock }
    {
        if self.has_ready(party, lock) {
            self.public_key(lock)
        } else {
            None
        }
    }

    fn fits_deal(&self, deal: &Deal, party: PartyId, lock: LockId) -> bool
        requires sized { IsWellSized deal.now }
        requires party { party < deal.now.graph.n }
        requires lock { lock < length deal.now.leaders }
        ensures { result ≡ fits_deal deal.now party self.now lock }
    {
        let public = self.find_public_key(party, lock);
        fits_stated(deal, party, &self.seed, lock, &public)
    }

    /// The least lock for which the wallet lacks what the deal states of the party. The wallet may
    /// be of any party and deal, and may have signed anything.
    pub fn mismatched_lock(&self, deal: &Deal, party: PartyId) -> Option<LockId>
        requires sized { IsWellSized deal.now }
        requires party { party < deal.now.graph.n }
        ensures wrong { result ≡ find_wrong_lock deal.now party self.now }
        ensures fits { result ≡ None → wrong_lock deal.now party self.now.seed ≡ None }
    {
        let count = deal.leaders.len() as u8;
        'locks: for lock in 0..count {
            if !self.fits_deal(deal, party, lock) {
                return Some(lock);
            }
        }
        None
    }

    /// A new wallet of the party for the deal, with the same seed.
    pub fn renewed_wallet(
        &self,
        alloc: Global,
        deal: &Deal,
        party: PartyId,
    ) -> Result<Wallet, NoMemory>
        requires { IsWellSized deal.now }
        ensures { IfOk result (λ w. w ≡ new_wallet self.now.seed party deal.now) }
    {
        Wallet::for_deal(alloc, &self.seed, party, deal)
    }

    /// The public key for a lock; timelocks ask for none.
    pub fn public_key(&self, lock: LockId) -> Option<Digest>
        requires { lock < length self.now.signed }
        ensures { result ≡ party_public self.now.mode self.now.seed self.now.party lock }
    {
        self.publics[lock as usize]
    }

    pub fn party(&self) -> PartyId
        ensures { result ≡ self.now.party }
    {
        self.party
    }

    /// The hashkeys that were signed, by lock.
    pub fn signed(&self) -> &Signed
        ensures { result.now.keys ≡ self.now.signed }
    {
        &self.signed
    }

    /// Whether a hashkey was signed for a lock.
    pub fn is_signed(&self, lock: LockId) -> bool
        requires { lock < length self.now.signed }
        ensures { result ≡ is_some (signed_hashkey self.now.signed lock) }
    {
        self.signed.keys.as_slice()[lock as usize].is_some()
    }

    /// A copy of the hashkey that was signed for a lock.
    pub fn copy_signed(&self, lock: LockId) -> Result<Shared<Hashkey>, NoMemory>
        requires lock { lock < length self.now.signed }
        requires signed { IsSome (signed_hashkey self.now.signed lock) }
        ensures { IfOk result (λ k. signed_hashkey self.now.signed lock ≡ Some k) }
    {
        match &self.signed.keys.as_slice()[lock as usize] {
            Some(hashkey) => hashkey.copy(),
            None => unreachable!(),
        }
    }

    /// Makes the party's own hashkey for a lock that it leads, keeps it, and answers a copy. Want
    /// of memory leaves everything as it was: the key has signed nothing.
    pub fn sign_own(
        &mut self,
        alloc: Global,
        deal: &Deal,
        lock: LockId,
    ) -> Result<Shared<Hashkey>, NoMemory>
        requires mode { self.old.mode ≡ deal.now.mode }
        requires party { self.old.party < deal.now.graph.n }
        requires lock { lock < length self.old.signed }
        requires unsigned { signed_hashkey self.old.signed lock ≡ None }
        ensures value { IfOk result (λ k. k ≡ own_key deal.now.mode deal.now self.old.party self.old.seed lock) }
        ensures kept { IfOk result (λ k. self.new ≡ with_signed self.old lock k) }
        ensures err { OnErr result (self.new ≡ self.old) }
    {
        let slot = &mut self.keys[lock as usize];
        let (kept, answer) = own_held(alloc, deal, self.party, &self.seed, lock, slot)?;
        keep(&mut self.signed, alloc, lock, kept);
        Ok(answer)
    }

    /// Makes the party's hashkey that goes on from another, keeps it, and answers a copy. Want of
    /// memory leaves everything as it was: the key has signed nothing.
    pub fn sign_extension(
        &mut self,
        alloc: Global,
        deal: &Deal,
        inner: &Hashkey,
    ) -> Result<Shared<Hashkey>, NoMemory>
        requires mode { self.old.mode ≡ deal.now.mode }
        requires party { self.old.party < deal.now.graph.n }
        requires lock { inner.now.lock < length self.old.signed }
        requires unsigned { signed_hashkey self.old.signed inner.now.lock ≡ None }
        requires few { length inner.now.path < path_limit deal.now }
        requires paired { length inner.now.sigs ≡ length inner.now.path }
        ensures value { IfOk result (λ k. k ≡ onto_key deal.now.mode deal.now self.old.party self.old.seed inner.now) }
        ensures kept { IfOk result (λ k. self.new ≡ with_signed self.old inner.now.lock k) }
        ensures err { OnErr result (self.new ≡ self.old) }
    {
        let slot = &mut self.keys[inner.lock as usize];
        let (kept, answer) = onto_held(alloc, deal, self.party, inner, slot)?;
        keep(&mut self.signed, alloc, inner.lock, kept);
        Ok(answer)
    }
}
