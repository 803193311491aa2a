//! The wallets of a job's parties, made before its deal, which states their public keys: so each
//! key is made once.

ghost use Rattle.std.specs.Prelude.{◌≡◌, ◌≤◌, ◌<◌, ◌++◌, ◌∷◌, IfOk, OnOk, [], Some, length, map};
ghost use Rattle.std.specs.List.{range_with_len};
ghost use Rattle.swap_digraph.specs.declared.deal.Mode.TheVariants.{Hashkeys};
ghost use Rattle.hash_signature.specs.Signature.{derive_public_key};
ghost use Rattle.party_wallet.specs.Keys.{empty_wallet, new_wallet};
ghost use Rattle.swap_gen.specs.Made.{all_keys, seed_keys, seed_or_zeros};
ghost use Rattle.swap_gen.specs.Owned.{inside_wallets};
ghost use Rattle.swap_gen.specs.Drawn.{generated};
ghost use Rattle.swap_gen.specs.Events.{first_place};

use crate::draws::Draws;
use crate::making::fill;
use crate::plain::plain_job;
use crate::seeds::seed_or_zeros;
use party_wallet::Wallet;
use std::alloc::Global;
use swap_base::{Digest, Listed, LockId, NoMemory, PartyId};
use swap_job::Job;

/// A wallet for each party, and the public keys of each.
#[derive(Drop)]
struct KeyedWallets {
    wallets: Vec<Option<Wallet>>,
    keys: Vec<Listed<Digest>>,
}

/// The job of a number, with the wallets of its parties.
#[derive(Drop)]
pub(crate) struct MadeJob {
    pub job: Job,
    pub wallets: Vec<Option<Wallet>>,
}

/// The public key for a lock of a wallet with which nothing is signed.
fn wallet_public_key(wallet: &Wallet, locks: u8, lock: LockId) -> Digest
    requires new { wallet.now ≡ empty_wallet Hashkeys wallet.now.seed wallet.now.party locks }
    requires lock { lock < locks }
    ensures { result ≡ derive_public_key wallet.now.seed wallet.now.party lock }
{
    match wallet.public_key(lock) {
        Some(key) => key,
        None => unreachable!(),
    }
}

/// The public keys of a wallet with which nothing is signed, one for each lock.
fn wallet_public_keys(alloc: Global, wallet: &Wallet, locks: u8) -> Result<Listed<Digest>, NoMemory>
    requires { wallet.now ≡ empty_wallet Hashkeys wallet.now.seed wallet.now.party locks }
    ensures { IfOk result (λ l. l ≡ map (derive_public_key wallet.now.seed wallet.now.party) (range_with_len 0 locks)) }
{
    let mut keys = Vec::new(alloc);
    'locks: for lock in 0..locks {
        keys.push(wallet_public_key(wallet, locks, lock))?;
    }
    Ok(Listed::new(keys))
}

/// Adds the wallet of a party, and its public keys.
fn add(alloc: Global, made: &mut KeyedWallets, job: &Job, p: PartyId) -> Result<(), NoMemory>
    requires mode { job.now.deal.mode ≡ Hashkeys }
    requires few { length job.now.deal.leaders ≤ 8 }
    ensures wallets { OnOk result (made.new.wallets.items ≡ made.old.wallets.items ++ Some (new_wallet (seed_or_zeros job.now.seeds p) p job.now.deal) ∷ []) }
    ensures keys { OnOk result (made.new.keys.items ≡ made.old.keys.items ++ seed_keys job.now.seeds job.now.deal p ∷ []) }
{
    let seed = seed_or_zeros(job.seeds.as_slice(), p);
    let locks = job.deal.leaders.len() as u8;
    let wallet = Wallet::new(alloc, job.deal.mode, &seed, p, locks)?;
    made.keys.push(wallet_public_keys(alloc, &wallet, locks)?)?;
    made.wallets.push(Some(wallet))?;
    Ok(())
}

/// The wallets of a job's parties, and their public keys.
fn prepared_wallets(alloc: Global, job: &Job) -> Result<KeyedWallets, NoMemory>
    requires mode { job.now.deal.mode ≡ Hashkeys }
    requires few { length job.now.deal.leaders ≤ 8 }
    ensures wallets { IfOk result (λ m. m.wallets.items
        ≡ map (λ p. Some (new_wallet (seed_or_zeros job.now.seeds p) p job.now.deal)) (range_with_len 0 job.now.deal.graph.n)) }
    ensures keys { IfOk result (λ m. m.keys.items ≡ all_keys Hashkeys job.now.seeds job.now.deal) }
{
    let mut made = KeyedWallets {
        wallets: Vec::new(alloc),
        keys: Vec::new(alloc),
    };
    'parties: for p in 0..job.deal.graph.n() {
        add(alloc, &mut made, job, p)?;
    }
    Ok(made)
}

/// The job of a number with this number of parties, and their wallets. The draws then stand at the
/// first event.
pub(crate) fn made_job(
    alloc: Global,
    draws: &mut Draws,
    seed: u32,
    parties: u8,
) -> Result<MadeJob, NoMemory>
    requires low { 2 ≤ parties }
    requires high { parties ≤ 24 }
    requires seed { draws.old.seed ≡ seed }
    requires place { draws.old.place ≡ 0 }
    ensures job { IfOk result (λ m. m.job ≡ generated seed parties) }
    ensures wallets { IfOk result (λ m. m.wallets.items ≡ inside_wallets (generated seed parties)) }
    ensures draws { OnOk result (draws.new ≡ record draws.old { place = first_place seed parties }) }
{
    let mut job = plain_job(alloc, draws, seed, parties)?;
    let KeyedWallets { wallets, keys } = prepared_wallets(alloc, &job)?;
    fill(
        alloc,
        &mut job.deal,
        job.seeds.as_slice(),
        Listed::new(keys),
    )?;
    Ok(MadeJob { job, wallets })
}
