//! The replay of a ledger.

ghost use Rattle.std.specs.Prelude.{◌≡◌, ◌≢◌, ◌==◌, ◌||◌, ◌<◌, ◌≤◌, ◌+◌, ◌++◌, ◌∷◌, [], IsTrue, IfOk, OnOk, length};
ghost use Rattle.swap_base.specs.Fault.{Gives};
ghost use Rattle.swap_digraph.specs.Deal.{IsWellSized, party, counterparty};
ghost use Rattle.ledger_core.specs.History.{height, fit, history_reply, reply_to_tick, IsLegal};
ghost use Rattle.ledger_core.specs.Ledger.{call_entry, tick_entry};
ghost use Rattle.swap_auditor.specs.Audit.{replay, replayed, with_entry};
ghost use Rattle.ledger_core.specs.WellFormed.{IsFormed, IsFormedEntry};

use crate::found::Found;
use crate::same_reply::same_reply;
use escrow_core::Reply;
use ledger_core::{Call, Entry, EntryList, Ledger, Sender, What};
use std::alloc::Global;
use swap_base::{ArcId, Fault, NoMemory, PartyId, Shared, TryCopy};
use swap_digraph::Deal;

/// A stated reply that isn't the replayed one. Entries are counted from 0, and ticks count.
#[derive(Clone, Copy, Debug, PartialEq, Eq)]
pub struct BadReply {
    pub arc: ArcId,
    pub entry: u32,
    pub stated: Reply,
    pub replayed: Reply,
}

/// Why a book has no report: a reply, or want of memory.
pub type AuditFault = Fault<BadReply>;

/// Makes a call again, and answers the reply.
fn call_again(
    ledger: &mut Ledger,
    found: &mut Found,
    sender: PartyId,
    call: &Call,
) -> Result<Reply, NoMemory>
    requires found { found.old ≡ ledger.old.deal }
    requires of_the_two { IsTrue ((sender == party ledger.old.deal ledger.old.arc) || (sender == counterparty ledger.old.deal ledger.old.arc)) }
    requires fits { IsTrue (fit ledger.old.deal ledger.old.arc call.now) }
    requires legal { IsLegal ledger.old.deal ledger.old.arc ledger.old.history }
    ensures reply { IfOk result (λ r. r ≡ history_reply ledger.old.deal ledger.old.arc ledger.old.history sender call.now) }
    ensures history { IfOk result (λ r. r ≢ Reply.SenderFull
        → ledger.new.history ≡ ledger.old.history ++ call_entry sender (height ledger.old.history) call.now r ∷ []) }
    ensures deal { ledger.new.deal ≡ ledger.old.deal }
    ensures arc { ledger.new.arc ≡ ledger.old.arc }
    ensures legal { IsLegal ledger.new.deal ledger.new.arc ledger.new.history }
    ensures found { found.new ≡ found.old }
{
    ledger.reserve()?;
    let known = found.known_signature_count(call);
    let reply = ledger.apply(sender, call.copy()?, known);
    found.note(call, reply, known)?;
    Ok(reply)
}

/// Ticks again, and answers the reply.
fn tick_again(ledger: &mut Ledger, k: u32) -> Result<Reply, NoMemory>
    requires some { 1 ≤ k }
    requires below { k ≤ 1000000 }
    requires legal { IsLegal ledger.old.deal ledger.old.arc ledger.old.history }
    ensures reply { IfOk result (λ r. r ≡ reply_to_tick ledger.old.history k) }
    ensures history { IfOk result (λ r. r ≢ Reply.ClockFull → ledger.new.history ≡ ledger.old.history ++ tick_entry k (height ledger.old.history + k) r ∷ []) }
    ensures deal { ledger.new.deal ≡ ledger.old.deal }
    ensures arc { ledger.new.arc ≡ ledger.old.arc }
    ensures legal { IsLegal ledger.new.deal ledger.new.arc ledger.new.history }
{
    ledger.reserve()?;
    Ok(ledger.tick(k))
}

/// Replays an entry, and answers the reply.
fn reply_again(ledger: &mut Ledger, found: &mut Found, entry: &Entry) -> Result<Reply, NoMemory>
    requires found { found.old ≡ ledger.old.deal }
    requires formed { IsFormedEntry ledger.old.deal ledger.old.arc ledger.old.history entry.now }
    requires legal { IsLegal ledger.old.deal ledger.old.arc ledger.old.history }
    ensures reply { IfOk result (λ r. r ≡ replayed ledger.old.deal ledger.old.arc ledger.old.history entry.now.sender entry.now.what) }
    ensures history { IfOk result (λ r. entry.now.reply ≡ r → ledger.new.history ≡ ledger.old.history ++ entry.now ∷ []) }
    ensures deal { ledger.new.deal ≡ ledger.old.deal }
    ensures arc { ledger.new.arc ≡ ledger.old.arc }
    ensures legal { IsLegal ledger.new.deal ledger.new.arc ledger.new.history }
    ensures found { found.new ≡ found.old }
{
    match (entry.sender, &entry.what) {
        (Sender::Party(sender), What::Call(call)) => call_again(ledger, found, sender, call),
        (Sender::Clock, What::Tick(k)) => tick_again(ledger, *k),
        _ => unreachable!(),
    }
}

/// Replays an entry. The stated reply has to be the ledger's: where it isn't, the ledger stands
/// behind the entry all the same, with the reply that it gives.
pub fn replay_entry(ledger: &mut Ledger, found: &mut Found, entry: &Entry) -> Result<(), AuditFault>
    requires found { found.old ≡ ledger.old.deal }
    requires formed { IsFormedEntry ledger.old.deal ledger.old.arc ledger.old.history entry.now }
    requires legal { IsLegal ledger.old.deal ledger.old.arc ledger.old.history }
    ensures exact { Gives (λ _. ledger.new.history) result (with_entry ledger.old.deal ledger.old.arc ledger.old.history entry.now) }
    ensures deal { ledger.new.deal ≡ ledger.old.deal }
    ensures arc { ledger.new.arc ≡ ledger.old.arc }
    ensures legal { IsLegal ledger.new.deal ledger.new.arc ledger.new.history }
    ensures found { found.new ≡ found.old }
{
    let number = ledger.len();
    let reply = reply_again(ledger, found, entry)?;
    if same_reply(entry.reply, reply) {
        Ok(())
    } else {
        Err(Fault::Refused(BadReply {
            arc: ledger.arc(),
            entry: number,
            stated: entry.reply,
            replayed: reply,
        }))
    }
}

/// Replays the entries of a ledger, one after another.
fn replay_entries(
    ledger: &mut Ledger,
    found: &mut Found,
    entries: &[Entry],
) -> Result<(), AuditFault>
    requires found { found.old ≡ ledger.old.deal }
    requires new { ledger.old.history ≡ [] }
    requires formed { IsFormed ledger.old.deal ledger.old.arc entries.now }
    ensures exact { Gives (λ _. ledger.new.history) result (replay ledger.old.deal ledger.old.arc entries.now) }
    ensures whole { OnOk result (ledger.new.history ≡ entries.now) }
    ensures deal { ledger.new.deal ≡ ledger.old.deal }
    ensures arc { ledger.new.arc ≡ ledger.old.arc }
    ensures legal { IsLegal ledger.new.deal ledger.new.arc ledger.new.history }
    ensures found { found.new ≡ found.old }
{
    for entry in entries {
        replay_entry(ledger, found, entry)?;
    }
    Ok(())
}

/// Replays the history of an arc.
pub(crate) fn replay(
    alloc: Global,
    deal: &Shared<Deal>,
    arc: ArcId,
    found: &mut Found,
    list: &EntryList,
) -> Result<(), AuditFault>
    requires sized { IsWellSized deal.now }
    requires arc { arc < length deal.now.graph.arcs }
    requires found { found.old ≡ deal.now }
    requires formed { IsFormed deal.now arc list.now }
    ensures exact { Gives (λ _. list.now) result (replay deal.now arc list.now) }
    ensures legal { OnOk result (IsLegal deal.now arc list.now) }
    ensures found { found.new ≡ found.old }
{
    let mut ledger = Ledger::new(alloc, deal, arc)?;
    let entries = list.to_vec(alloc)?;
    replay_entries(&mut ledger, found, &entries)
}
