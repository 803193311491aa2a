//! What an input asks: who asks, about which deal, over which ledgers and with which notes.

ghost use Rattle.std.specs.Prelude.{◌≡◌, ◌<◌, IfOk, OnOk, None, length};
ghost use Rattle.std.specs.Str.{bytes_eq};
ghost use Rattle.swap_base.specs.Fault.{Gives};
ghost use Rattle.swap_digraph.specs.Deal.{IsWellSized};
ghost use Rattle.ledger_core.specs.Book.{IsLegalBook};
ghost use Rattle.party_wallet.specs.Fits.{wrong_lock as least_wrong};
ghost use Rattle.party_wallet.specs.Value.{signed_hashkey};
ghost use Rattle.answer_rules.specs.Laws.{AreGoodKeys};
ghost use Rattle.told_ledgers.specs.Telling.{ledgers_told, told_book};
ghost use Rattle.party_terms.specs.Inside.{IsAgreedJob};
ghost use Rattle.party_notes.specs.NoteStates.{kept_state};
ghost use Rattle.party_notes.specs.Asked.{as_agreed, as_answer_reason, by_refusal, own_seed, party_asked, said_asked};
ghost use Rattle.party_notes.specs.Inside.{asked_question, said_state, IsWellAsked};

use crate::kept::{Kept, notes_kept};
use crate::reason::{AnswerFault, AnswerReason, reason_fault, refusal_fault};
use crate::said::Said;
use command_input::{HeaderFault, Reason, Refusal};
use ledger_core::share_deal;
use party_rows::party_named;
use party_wallet::Wallet;
use std::alloc::Global;
use swap_base::{Digest, Fault, Listed, LockId, NoMemory, PartyId, Shared, TryCopy};
use swap_digraph::Deal;
use told_ledgers::{ToldLedger, read_ledgers};
use transcript_book::Parts;

/// What is asked: the party of a deal, what is told of each ledger, what the party kept, and on
/// which arcs it sent a publish.
#[derive(Drop)]
pub struct Asked {
    pub deal: Shared<Deal>,
    pub me: PartyId,
    pub ledgers: Listed<ToldLedger>,
    pub kept: Kept,
}

/// Whether the digest that was agreed on is that of what stands there.
fn is_agreed(said: &Said) -> bool
    ensures { result ≡ bytes_eq said.now.told said.now.agreed.digest }
{
    said.told == said.agreed.digest
}

/// What stands in the input has to be what was agreed on.
fn as_agreed(said: &Said) -> Result<(), AnswerFault>
    ensures { Gives (λ u. u) result (as_agreed (said_state said.now)) }
{
    if is_agreed(said) {
        Ok(())
    } else {
        Err(Fault::Refused(AnswerReason::NotAgreed(said.agreed.digest)))
    }
}

/// The least lock for which the seed lacks what the deal states of the party.
fn wrong_lock(
    alloc: Global,
    deal: &Deal,
    me: PartyId,
    seed: &Digest,
) -> Result<Option<LockId>, NoMemory>
    requires sized { IsWellSized deal.now }
    requires me { me < deal.now.graph.n }
    ensures { IfOk result (λ o. o ≡ least_wrong deal.now me seed.now) }
{
    let wallet = Wallet::for_deal(alloc, seed, me, deal)?;
    Ok(wallet.wrong_lock(deal))
}

/// The seed has to be the party's.
fn own_seed(alloc: Global, said: &Said, me: PartyId, seed: &Digest) -> Result<(), HeaderFault>
    requires told { IsAgreedJob said.now.agreed.job }
    requires me { me < said.now.agreed.job.deal.graph.n }
    ensures exact { Gives (λ u. u) result (own_seed (said_state said.now) me seed.now) }
    ensures fits { OnOk result (least_wrong said.now.agreed.job.deal me seed.now ≡ None) }
{
    match wrong_lock(alloc, &said.agreed.job.deal, me, seed)? {
        Some(lock) => {
            let names = said.agreed.job.names.copy()?;
            let reason = Reason::WrongWallet(me, lock);
            Err(Fault::Refused(Refusal { reason, names }))
        }
        None => Ok(()),
    }
}

/// The party of that name with that seed, and what it kept and sent; the first note has that
/// number.
#[tactic(auto, unfolding(crate::specs::Asked::party_asked))]
fn party_asked(
    alloc: Global,
    first: u32,
    name: &[u8],
    seed: &Digest,
    said: &Said,
) -> Result<(PartyId, Kept), HeaderFault>
    requires { IsAgreedJob said.now.agreed.job }
    ensures exact { Gives (λ p. (p.0, kept_state p.1)) result (party_asked first name.now seed.now (said_state said.now)) }
    ensures party { IfOk result (λ p. p.0 < said.now.agreed.job.deal.graph.n) }
    ensures fits { IfOk result (λ p. least_wrong said.now.agreed.job.deal p.0 seed.now ≡ None) }
    ensures places { IfOk result (λ p. length p.1.signed.keys ≡ length said.now.agreed.job.deal.leaders) }
    ensures good { IfOk result (λ p. AreGoodKeys said.now.agreed.job.deal p.0 (signed_hashkey p.1.signed.keys)) }
{
    let job = &said.agreed.job;
    let me = party_named(alloc, said.notes.next, job.names.as_slice(), name)?;
    own_seed(alloc, said, me, seed)?;
    let kept = notes_kept(alloc, &job.deal, me, first, said.notes.list.as_slice())?;
    Ok((me, kept))
}

/// The party of that name with that seed, and what it kept and sent, or the answer's fault.
fn party(
    alloc: Global,
    first: u32,
    name: &[u8],
    seed: &Digest,
    said: &Said,
) -> Result<(PartyId, Kept), AnswerFault>
    requires { IsAgreedJob said.now.agreed.job }
    ensures exact { Gives (λ p. (p.0, kept_state p.1)) result (by_refusal (party_asked first name.now seed.now (said_state said.now))) }
    ensures party { IfOk result (λ p. p.0 < said.now.agreed.job.deal.graph.n) }
    ensures fits { IfOk result (λ p. least_wrong said.now.agreed.job.deal p.0 seed.now ≡ None) }
    ensures places { IfOk result (λ p. length p.1.signed.keys ≡ length said.now.agreed.job.deal.leaders) }
    ensures good { IfOk result (λ p. AreGoodKeys said.now.agreed.job.deal p.0 (signed_hashkey p.1.signed.keys)) }
{
    match party_asked(alloc, first, name, seed, said) {
        Ok(found) => Ok(found),
        Err(fault) => Err(refusal_fault(fault)),
    }
}

/// What is told of each ledger by the lines from the one of that number on.
fn ledgers(
    alloc: Global,
    deal: &Shared<Deal>,
    me: PartyId,
    first: u32,
    lines: &mut Parts<'_>,
) -> Result<Listed<ToldLedger>, AnswerFault>
    requires { IsWellSized deal.now }
    ensures exact { Gives (λ t. t) result (as_answer_reason (ledgers_told deal.now me first lines.old)) }
    ensures legal { IfOk result (λ t. IsLegalBook deal.now (told_book t)) }
{
    match read_ledgers(alloc, deal, me, first, lines) {
        Ok(told) => Ok(told),
        Err(fault) => Err(reason_fault(alloc, fault)),
    }
}

/// What is asked by what an input says, whose first line has that number, and by the lines behind.
#[tactic(auto, unfolding(crate::specs::Asked::said_asked))]
pub fn said_asked(
    alloc: Global,
    first: u32,
    name: &[u8],
    seed: &Digest,
    said: &Said,
    lines: &mut Parts<'_>,
) -> Result<Asked, AnswerFault>
    requires { IsAgreedJob said.now.agreed.job }
    ensures exact { Gives (asked_question seed.now) result (said_asked first name.now seed.now (said_state said.now, lines.old)) }
    ensures asked { IfOk result (IsWellAsked seed.now) }
{
    as_agreed(said)?;
    let (me, kept) = party(alloc, first.saturating_add(1), name, seed, said)?;
    let deal = share_deal(alloc, &said.agreed.job.deal)?;
    let ledgers = ledgers(alloc, &deal, me, said.agreed.next, lines)?;
    Ok(Asked {
        deal,
        me,
        ledgers,
        kept,
    })
}
