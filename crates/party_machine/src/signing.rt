//! The hashkey of an unlock that is due: the one that was signed, or a new one.

ghost use Rattle.std.specs.Prelude.{◌≡◌, ◌<◌, None, length, IfOk, OnErr, IsSome};
ghost use Rattle.party_wallet.specs.Value.{signed_hashkey};
ghost use Rattle.due_calls.specs.Unlocks.{IsSeenBase};
ghost use Rattle.party_wallet.specs.Keys.{with_signed};
ghost use Rattle.party_machine.specs.Within.{all_entries, IsReadyWallet};
ghost use Rattle.party_machine.specs.Unlocking.{base_key, due_hashkey, IsSignable};
ghost use Rattle.std.specs.Prelude.{Some};
ghost use Rattle.ledger_core.specs.Facts.{opened_key};
ghost use Rattle.swap_rules.specs.Due.{extended};
ghost use Rattle.party_machine.specs.Wallet.{seed_wallet};

use crate::reading::opened_key;
use due_calls::{Base, UnlockDue};
use hashkey_path::Hashkey;
use history_index::Index;
use party_wallet::Wallet;
use std::alloc::Global;
use swap_base::{LockId, NoMemory, Shared};
use swap_digraph::Deal;

/// Puts the party's signature onto the hashkey that opened the lock on that arc.
fn sign_extension(
    alloc: Global,
    wallet: &mut Wallet,
    deal: &Deal,
    index: &Index,
    lock: LockId,
) -> Result<Shared<Hashkey>, NoMemory>
    requires mode { wallet.old.mode ≡ deal.now.mode }
    requires party { wallet.old.party < deal.now.graph.n }
    requires lock { lock < length wallet.old.signed }
    requires unsigned { signed_hashkey wallet.old.signed lock ≡ None }
    requires known { lock < length index.now.terms.locks }
    requires onto { IsSignable deal.now lock (opened_key index.now.entries lock) }
    ensures value { IfOk result (λ k. extended (seed_wallet wallet.old.seed wallet.old.party deal.now) (opened_key index.now.entries lock) ≡ Some k) }
    ensures kept { IfOk result (λ k. wallet.new ≡ with_signed wallet.old lock k) }
    ensures err { OnErr result (wallet.new ≡ wallet.old) }
{
    match opened_key(index, lock) {
        Some(inner) => wallet.sign_extension(alloc, deal, inner),
        None => unreachable!(),
    }
}

/// A copy of the hashkey of an unlock that is due, which is signed where none was for its lock.
/// Want of memory leaves everything as it was.
// Never inlined: what a signature takes on the stack would be taken by each act that finds nothing
// due.
#[inline(never)]
pub(crate) fn chosen_hashkey(
    alloc: Global,
    wallet: &mut Wallet,
    deal: &Deal,
    known: &[Index],
    due: UnlockDue,
) -> Result<Shared<Hashkey>, NoMemory>
    requires ready { IsReadyWallet deal.now wallet.old known.now }
    requires lock { due.lock < length deal.now.leaders }
    requires base { IsSeenBase deal.now wallet.old.party (all_entries known.now) due.lock due.base }
    requires from { IsSome (base_key deal.now wallet.old (all_entries known.now) due) }
    ensures value { IfOk result (λ k. due_hashkey deal.now wallet.old (all_entries known.now) due ≡ Some k) }
    ensures kept { IfOk result (λ k. wallet.new ≡ with_signed wallet.old due.lock k) }
    ensures err { OnErr result (wallet.new ≡ wallet.old) }
{
    if wallet.is_signed(due.lock) {
        return wallet.copy_signed(due.lock);
    }
    match due.base {
        Base::Own => wallet.sign_own(alloc, deal, due.lock),
        Base::Onto(arc) => sign_extension(alloc, wallet, deal, &known[arc as usize], due.lock),
        Base::Signed => unreachable!(),
    }
}
