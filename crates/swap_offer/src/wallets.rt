//! The seeds and the wallets of parties.

ghost use Rattle.std.specs.Prelude.{◌≡◌, ◌<◌, IfOk, nat_eq, option_map};
ghost use Rattle.std.specs.List.{list_any, range_with_len};
ghost use Rattle.swap_base.specs.Lists.{first_given_answer};
ghost use Rattle.swap_base.specs.Fault.{Gives};
ghost use Rattle.swap_digraph.specs.Deal.{IsWellSized};
ghost use Rattle.command_input.specs.declared.reason.Reason.TheVariants.{WrongWallet};
ghost use Rattle.party_wallet.specs.Fits.{wrong_lock};
ghost use Rattle.party_wallet.specs.Keys.{new_wallet};
ghost use Rattle.party_wallet.specs.Wallets.{job_wallet, new_wallets};
ghost use Rattle.swap_offer.specs.Checks.{unless_wrong};
ghost use Rattle.swap_offer.specs.Job.{IsWholeJob};
ghost use Rattle.swap_offer.specs.Wallets.{crafts, role_crafts, is_crafter, needs_seed, no_seed, seeded, wrong_wallet, fitting, walleted, prepared_wallets};

use command_input::{OfferFault, Reason};
use party_wallet::Wallet;
use std::alloc::Global;
use swap_base::{Digest, Fault, PartyId};
use swap_digraph::Deal;
use swap_job::{Job, Move, Purpose, Role};

/// Whether a party is among those that make a hashkey.
fn is_listed(p: PartyId, via: &[PartyId]) -> bool
    ensures { result ≡ list_any (nat_eq p) via.now }
{
    for v in via {
        if p == *v {
            return true;
        }
    }
    false
}

fn crafts(p: PartyId, mv: &Move) -> bool
    ensures { result ≡ crafts p mv.now }
{
    match mv {
        Move::Craft { via, .. } => is_listed(p, via.as_slice()),
        _ => false,
    }
}

fn crafts_in_one(p: PartyId, moves: &[Move]) -> bool
    ensures { result ≡ list_any (crafts p) moves.now }
{
    for mv in moves {
        if crafts(p, mv) {
            return true;
        }
    }
    false
}

fn role_crafts(p: PartyId, role: &Role) -> bool
    ensures { result ≡ role_crafts p role.now }
{
    match role {
        Role::Script(moves) => crafts_in_one(p, moves.as_slice()),
        _ => false,
    }
}

/// Whether a party crafts a hashkey in a script.
fn is_crafter(job: &Job, p: PartyId) -> bool
    ensures { result ≡ is_crafter job.now p }
{
    for role in job.roles.as_slice() {
        if role_crafts(p, role) {
            return true;
        }
    }
    false
}

fn needs_seed(job: &Job, p: PartyId) -> bool
    requires whole { IsWholeJob job.now }
    requires known { p < job.now.deal.graph.n }
    ensures { result ≡ needs_seed job.now.purpose job.now p }
{
    match job.purpose {
        Purpose::Run | Purpose::Race => job.conforming.as_slice()[p as usize] || is_crafter(job, p),
        Purpose::Make => true,
        Purpose::Check | Purpose::Audit => false,
    }
}

fn no_seed(job: &Job, p: PartyId) -> Option<Reason>
    requires whole { IsWholeJob job.now }
    requires known { p < job.now.deal.graph.n }
    ensures { result ≡ no_seed job.now p }
{
    if needs_seed(job, p) && job.seeds.as_slice()[p as usize].is_none() {
        Some(Reason::NoSeed(p))
    } else {
        None
    }
}

/// The reason against the first party whose seed is needed and isn't there.
fn first_without_seed(job: &Job) -> Option<Reason>
    requires whole { IsWholeJob job.now }
    ensures { result ≡ first_given_answer (no_seed job.now) (range_with_len 0 job.now.deal.graph.n) }
{
    for p in 0..job.deal.graph.n() {
        let reason = no_seed(job, p);
        if reason.is_some() {
            return reason;
        }
    }
    None
}

/// The seeds that the job's purpose needs are there.
#[tactic(auto, unfolding(crate::specs::Wallets::seeded))]
pub(crate) fn check_seeds(job: &Job) -> Result<(), OfferFault>
    requires whole { IsWholeJob job.now }
    ensures { Gives (λ u. u) result (seeded job.now) }
{
    match first_without_seed(job) {
        None => Ok(()),
        Some(reason) => Err(Fault::Refused(reason)),
    }
}

/// The wallet that a seed gives a party, or the reason against it.
fn with_seed(alloc: Global, deal: &Deal, p: PartyId, seed: &Digest) -> Result<Wallet, OfferFault>
    requires sized { IsWellSized deal.now }
    requires known { p < deal.now.graph.n }
    ensures fits { Gives (λ _. tt) result (unless_wrong (option_map (WrongWallet p) (wrong_lock deal.now p seed.now))) }
    ensures made { IfOk result (λ w. w ≡ new_wallet seed.now p deal.now) }
{
    let wallet = Wallet::for_deal(alloc, seed, p, deal)?;
    match wallet.wrong_lock(deal) {
        None => Ok(wallet),
        Some(lock) => Err(Fault::Refused(Reason::WrongWallet(p, lock))),
    }
}

/// The wallet of a party that conforms and has a seed, or the reason against it.
fn job_wallet(alloc: Global, job: &Job, p: PartyId) -> Result<Option<Wallet>, OfferFault>
    requires whole { IsWholeJob job.now }
    requires known { p < job.now.deal.graph.n }
    ensures fits { Gives (λ _. tt) result (unless_wrong (wrong_wallet job.now p)) }
    ensures made { IfOk result (λ o. o ≡ job_wallet job.now.deal job.now.conforming job.now.seeds p) }
{
    if !job.conforming.as_slice()[p as usize] {
        return Ok(None);
    }
    match &job.seeds.as_slice()[p as usize] {
        None => Ok(None),
        Some(seed) => Ok(Some(with_seed(alloc, &job.deal, p, seed)?)),
    }
}

/// The wallet of each conforming party with a seed, or the refusal of the first seed that isn't the
/// deal's.
#[tactic(auto, unfolding(crate::specs::Wallets::fitting))]
fn new_wallets(alloc: Global, job: &Job) -> Result<Vec<Option<Wallet>>, OfferFault>
    requires whole { IsWholeJob job.now }
    ensures fit { Gives (λ _. tt) result (fitting job.now) }
    ensures made { IfOk result (λ v. v.items ≡ new_wallets job.now.deal job.now.conforming job.now.seeds) }
{
    let mut wallets = Vec::new(alloc);
    'parties: for p in 0..job.deal.graph.n() {
        let wallet = job_wallet(alloc, job, p)?;
        wallets.push(wallet)?;
    }
    Ok(wallets)
}

/// Makes the wallet of each party that conforms and has a seed, one at a time, and lets it go.
#[tactic(auto, unfolding(crate::specs::Wallets::fitting))]
fn check_wallets(alloc: Global, job: &Job) -> Result<(), OfferFault>
    requires whole { IsWholeJob job.now }
    ensures { Gives (λ u. u) result (fitting job.now) }
{
    'parties: for p in 0..job.deal.graph.n() {
        job_wallet(alloc, job, p)?;
    }
    Ok(())
}

/// The wallets that the job's purpose needs, where the seeds give what the deal states of them.
#[tactic(auto, unfolding(crate::specs::Wallets::walleted))]
pub(crate) fn prepared_wallets(alloc: Global, job: &Job) -> Result<Vec<Option<Wallet>>, OfferFault>
    requires whole { IsWholeJob job.now }
    ensures fit { Gives (λ _. tt) result (walleted job.now) }
    ensures made { IfOk result (λ v. v.items ≡ prepared_wallets job.now.purpose job.now) }
{
    match job.purpose {
        Purpose::Run | Purpose::Race => new_wallets(alloc, job),
        Purpose::Check => {
            check_wallets(alloc, job)?;
            Ok(Vec::new(alloc))
        }
        Purpose::Make | Purpose::Audit => Ok(Vec::new(alloc)),
    }
}
