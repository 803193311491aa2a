//! What acts for each party of a job, and the first of its wallets that is wrong.

ghost use Rattle.std.specs.Prelude.{◌≡◌, ◌<◌, ◌++◌, ◌∷◌, [], None, IfOk, IfSome, OnOk, length};
ghost use Rattle.swap_digraph.specs.Deal.{IsWellSized};
ghost use Rattle.party_wallet.specs.Wallets.{job_wallet, new_wallets};
ghost use Rattle.swap_world.specs.Actors.{job_actor, by_role, team, mismatched_lock, AllFit, IsFirstWrong};

use crate::player::Player;
use party_machine::Machine;
use party_wallet::Wallet;
use std::alloc::Global;
use swap_base::{Fault, LockId, NoMemory, PartyId, TryCopy};
use swap_digraph::Deal;
use swap_job::{Job, MoveList, Role};
use swap_run::Planner;

/// A conforming party's seed doesn't give what the deal states of the party for that lock.
#[derive(Clone, Copy, Debug, PartialEq, Eq)]
pub struct WrongWallet {
    pub party: PartyId,
    pub lock: LockId,
}

/// Why a job gives no world and no race: a wallet, or want of memory.
pub type WorldFault = Fault<WrongWallet>;

/// The least lock for which a party's wallet lacks what the deal states, if the party has a wallet.
fn find_wrong_lock(job: &Job, p: PartyId, wallet: &Option<Wallet>) -> Option<LockId>
    requires sized { IsWellSized job.now.deal }
    requires party { p < job.now.deal.graph.n }
    requires wallet { wallet.now ≡ job_wallet job.now.deal job.now.conforming job.now.seeds p }
    ensures { result ≡ mismatched_lock job.now p }
{
    match wallet {
        Some(wallet) => wallet.wrong_lock(&job.deal),
        None => None,
    }
}

/// The first conforming party whose seed isn't the deal's, and the least lock for which it isn't.
pub fn wrong_wallet(job: &Job, wallets: &[Option<Wallet>]) -> Option<WrongWallet>
    requires sized { IsWellSized job.now.deal }
    requires wallets { wallets.now ≡ new_wallets job.now.deal job.now.conforming job.now.seeds }
    ensures first { IfSome result (IsFirstWrong job.now) }
    ensures fit { result ≡ None → AllFit job.now }
{
    'parties: for p in 0..job.deal.graph.n() {
        if let Some(lock) = find_wrong_lock(job, p, &wallets[p as usize]) {
            return Some(WrongWallet { party: p, lock });
        }
    }
    None
}

/// What acts for a party without a wallet: its script, its strategy, or its own calls alone.
fn by_role(alloc: Global, deal: &Deal, role: &Role) -> Result<Player<()>, NoMemory>
    ensures { IfOk result (λ x. x ≡ by_role deal.now role.now) }
{
    match role {
        Role::Script(moves) => Ok(Player::Planned(Planner::new(alloc, deal, moves.copy()?)?)),
        Role::Strategy(_) => Ok(Player::Planned(Planner::new(
            alloc,
            deal,
            MoveList::empty(alloc),
        )?)),
        _ => Ok(Player::Manual),
    }
}

/// What acts for a party of the job, by its wallet or else by its role.
fn new_player(
    alloc: Global,
    job: &Job,
    p: PartyId,
    wallet: Option<Wallet>,
) -> Result<Player<()>, NoMemory>
    requires sized { IsWellSized job.now.deal }
    requires party { p < job.now.deal.graph.n }
    requires roles { length job.now.roles ≡ job.now.deal.graph.n }
    requires wallet { wallet ≡ job_wallet job.now.deal job.now.conforming job.now.seeds p }
    requires fits { mismatched_lock job.now p ≡ None }
    ensures { IfOk result (λ x. x ≡ job_actor job.now p) }
{
    match wallet {
        Some(wallet) => {
            let machine = Machine::fitting(alloc, &job.deal, p, wallet)?;
            Ok(Player::Conforming(machine, ()))
        }
        None => by_role(alloc, &job.deal, &job.roles.as_slice()[p as usize]),
    }
}

fn add_player(
    alloc: Global,
    job: &Job,
    players: &mut Vec<Player<()>>,
    p: PartyId,
    wallet: Option<Wallet>,
) -> Result<(), NoMemory>
    requires sized { IsWellSized job.now.deal }
    requires party { p < job.now.deal.graph.n }
    requires roles { length job.now.roles ≡ job.now.deal.graph.n }
    requires wallet { wallet ≡ job_wallet job.now.deal job.now.conforming job.now.seeds p }
    requires fits { mismatched_lock job.now p ≡ None }
    ensures { OnOk result (players.new.items ≡ players.old.items ++ job_actor job.now p ∷ []) }
{
    players.push(new_player(alloc, job, p, wallet)?)?;
    Ok(())
}

/// What acts for each party, by its wallet or else by its role, where every wallet is right.
pub fn new_players(
    alloc: Global,
    job: &Job,
    mut wallets: Vec<Option<Wallet>>,
) -> Result<Vec<Player<()>>, NoMemory>
    requires sized { IsWellSized job.now.deal }
    requires roles { length job.now.roles ≡ job.now.deal.graph.n }
    requires wallets { wallets.items ≡ new_wallets job.now.deal job.now.conforming job.now.seeds }
    requires fit { AllFit job.now }
    ensures { IfOk result (λ v. v.items ≡ team job.now) }
{
    let mut players = Vec::new(alloc);
    'parties: for p in 0..job.deal.graph.n() {
        let wallet = wallets[p as usize].take();
        add_player(alloc, job, &mut players, p, wallet)?;
    }
    Ok(players)
}
