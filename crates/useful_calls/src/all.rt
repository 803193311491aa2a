//! All that is useful.

ghost use Rattle.std.specs.Prelude.{◌≡◌, ◌<◌, IfOk, length};
ghost use Rattle.swap_digraph.specs.Deal.{IsWellSized};
ghost use Rattle.ledger_core.specs.Book.{IsLegalBook};
ghost use Rattle.history_index.specs.Indexes.{all_entries, AreIndexes};
ghost use Rattle.answer_rules.specs.Stopped.{useful_unless_stopped};
ghost use Rattle.party_wallet.specs.Value.{signed_hashkey};
ghost use Rattle.party_machine.specs.Wallet.{seed_wallet};
ghost use Rattle.useful_calls.specs.Actions.{actions, is_lock_stopped};
ghost use Rattle.useful_calls.specs.Landing.{landing_height};

use crate::asker::Asker;
use crate::due_call::DueCall;
use crate::publishes::put_publishes;
use crate::settling::{put_claims, put_refunds};
use crate::signer::Signer;
use crate::unlocks::put_unlocks;
use history_index::Index;
use std::alloc::Global;
use swap_base::{NoMemory, PartyId};
use swap_digraph::Deal;
use told_ledgers::ToldLedger;

/// All calls that are useful to the party with that seed and the hashkeys that it kept, by what was
/// told of each ledger and of its chain, in their order. Unlocks for stopped locks are left out. A hashkey is signed where an unlock with it is
/// useful, its lock isn't stopped, and none was kept for it.
#[tactic(auto, unfolding(answer_rules::specs::Stopped::useful_unless_stopped))]
pub fn all_useful(
    alloc: Global,
    deal: &Deal,
    me: PartyId,
    signer: &Signer<'_>,
    known: &[Index],
    told: &[ToldLedger],
) -> Result<Vec<DueCall>, NoMemory>
    requires sized { IsWellSized deal.now }
    requires me { me < deal.now.graph.n }
    requires known { AreIndexes deal.now known.now }
    requires legal { IsLegalBook deal.now (all_entries known.now) }
    requires kept { length signer.now.kept.now.keys ≡ length deal.now.leaders }
    ensures useful { IfOk result (λ v. actions v.items
        ≡ useful_unless_stopped (is_lock_stopped signer.now.stopped.now) deal.now me (landing_height (all_entries known.now) told.now) (seed_wallet signer.now.seed.now me deal.now)
        (signed_hashkey signer.now.kept.now.keys) (all_entries known.now)) }
{
    let asker = Asker {
        deal,
        me,
        signer: *signer,
        known,
        told,
    };
    let mut calls = Vec::new(alloc);
    put_publishes(alloc, &asker, &mut calls)?;
    put_unlocks(alloc, &asker, &mut calls)?;
    put_claims(&asker, &mut calls)?;
    put_refunds(&asker, &mut calls)?;
    Ok(calls)
}
