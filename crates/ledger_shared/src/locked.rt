//! What is done to a ledger while its turn is taken. Each takes all its memory before it changes
//! the history.

ghost use Rattle.std.specs.Prelude.{◌≡◌, ◌<◌, ◌≤◌, ◌+◌, ◌^◌, ◌++◌, ◌==◌, ◌||◌, IsTrue, OnOk, OnErr, IfOk, IfErr, length, drop};
ghost use Rattle.swap_digraph.specs.Deal.{party, counterparty};
ghost use Rattle.ledger_core.specs.History.{height, fit, history_reply, reply_to_tick, IsLegal};
ghost use Rattle.ledger_core.specs.CallSignatures.{is_known_call};
ghost use Rattle.ledger_core.specs.Ledger.{call_entry, tick_entry};
ghost use Rattle.ledger_shared.specs.Value.{added_by_call, added_by_tick};

use escrow_core::Reply;
use ledger_core::{Call, Entry, EntryList, Ledger, LedgerHistory, Sender, What};
use swap_base::{NoMemory, PartyId, TryCopy};

/// The ledger's reply, and the entries that the pass hadn't seen, up to and with its own.
#[derive(Debug, Drop)]
pub struct Called {
    pub reply: Reply,
    pub fresh: EntryList,
}

/// Memory for a call: a copy of the entries that its pass hasn't seen, with room for one more, and
/// of the call.
#[derive(Drop)]
struct Prepared {
    fresh: LedgerHistory,
    call: Call,
    ghost room: { 0 < fresh.spare },
    ghost few: { length fresh.list < 2 ^ 32 },
}

/// The entries from `seen` on.
pub(crate) fn fresh_entries(ledger: &Ledger, seen: u32) -> Result<EntryList, NoMemory>
    requires { seen ≤ length ledger.now.history }
    ensures fresh { IfOk result (λ l. l ≡ drop seen ledger.now.history) }
    ensures legal { OnOk result (IsLegal ledger.now.deal ledger.now.arc ledger.now.history) }
{
    Ok(EntryList::from_history(ledger.history().copy_tail(seen as usize)?))
}

fn prepare(ledger: &mut Ledger, seen: u32, call: &Call) -> Result<Prepared, NoMemory>
    requires { seen ≤ length ledger.old.history }
    ensures fresh { IfOk result (λ p. p.fresh.list ≡ drop seen ledger.old.history) }
    ensures call { IfOk result (λ p. p.call ≡ call.now) }
    ensures room { OnOk result (0 < ledger.new.spare) }
    ensures deal { ledger.new.deal ≡ ledger.old.deal }
    ensures arc { ledger.new.arc ≡ ledger.old.arc }
    ensures history { ledger.new.history ≡ ledger.old.history }
{
    ledger.reserve()?;
    let count = ledger.len();
    let mut fresh = ledger.history().copy_tail(seen as usize)?;
    fresh.reserve()?;
    let call = call.copy()?;
    Ok(Prepared { fresh, call })
}

fn make(
    ledger: &mut Ledger,
    prepared: Prepared,
    sender: PartyId,
    call: Call,
    verified: usize,
) -> Called
    requires room { 0 < ledger.old.spare }
    requires copied { prepared.call ≡ call }
    requires of_the_two { IsTrue ((sender == party ledger.old.deal ledger.old.arc) || (sender == counterparty ledger.old.deal ledger.old.arc)) }
    requires fits { IsTrue (fit ledger.old.deal ledger.old.arc call) }
    requires known { IsTrue (is_known_call verified ledger.old.deal call) }
    ensures reply { result.reply ≡ history_reply ledger.old.deal ledger.old.arc ledger.old.history sender call }
    ensures deal { ledger.new.deal ≡ ledger.old.deal }
    ensures arc { ledger.new.arc ≡ ledger.old.arc }
    ensures history { ledger.new.history ≡ ledger.old.history ++ added_by_call result.reply (call_entry sender (height ledger.old.history) call result.reply) }
    ensures fresh { result.fresh ≡ prepared.fresh.list ++ added_by_call result.reply (call_entry sender (height ledger.old.history) call result.reply) }
    ensures legal { IsLegal ledger.new.deal ledger.new.arc ledger.new.history }
{
    let height = ledger.height();
    let Prepared {
        mut fresh,
        call: copy,
    } = prepared;
    let reply = ledger.apply(sender, call, verified);
    match reply {
        Reply::SenderFull => {}
        _ => fresh.push(Entry {
            sender: Sender::Party(sender),
            height,
            what: What::Call(copy),
            reply,
        }),
    }
    Called {
        reply,
        fresh: EntryList::from_history(fresh),
    }
}

/// A call at the end of the history. Without memory the history is as before, and the call comes
/// back.
pub(crate) fn call_at_end(
    ledger: &mut Ledger,
    seen: u32,
    sender: PartyId,
    call: Call,
    verified: usize,
) -> Result<Called, Call>
    requires seen { seen ≤ length ledger.old.history }
    requires of_the_two { IsTrue ((sender == party ledger.old.deal ledger.old.arc) || (sender == counterparty ledger.old.deal ledger.old.arc)) }
    requires fits { IsTrue (fit ledger.old.deal ledger.old.arc call) }
    requires known { IsTrue (is_known_call verified ledger.old.deal call) }
    ensures reply { IfOk result (λ c. c.reply ≡ history_reply ledger.old.deal ledger.old.arc ledger.old.history sender call) }
    ensures deal { ledger.new.deal ≡ ledger.old.deal }
    ensures arc { ledger.new.arc ≡ ledger.old.arc }
    ensures history { IfOk result (λ c. ledger.new.history ≡ ledger.old.history ++ added_by_call c.reply
        (call_entry sender (height ledger.old.history) call c.reply)) }
    ensures fresh { IfOk result (λ c. c.fresh ≡ drop seen ledger.old.history ++ added_by_call c.reply
        (call_entry sender (height ledger.old.history) call c.reply)) }
    ensures legal { OnOk result (IsLegal ledger.new.deal ledger.new.arc ledger.new.history) }
    ensures back { IfErr result (λ c. c ≡ call) }
    ensures kept { OnErr result (ledger.new.history ≡ ledger.old.history) }
{
    match prepare(ledger, seen, &call) {
        Ok(prepared) => Ok(make(ledger, prepared, sender, call, verified)),
        Err(NoMemory) => Err(call),
    }
}

/// A tick at the end of the history.
pub(crate) fn tick_at_end(ledger: &mut Ledger, k: u32) -> Result<Reply, NoMemory>
    requires some { 1 ≤ k }
    requires below { k ≤ 1000000 }
    ensures reply { IfOk result (λ r. r ≡ reply_to_tick ledger.old.history k) }
    ensures deal { ledger.new.deal ≡ ledger.old.deal }
    ensures arc { ledger.new.arc ≡ ledger.old.arc }
    ensures history { IfOk result (λ r. ledger.new.history ≡ ledger.old.history ++ added_by_tick r (tick_entry k (height ledger.old.history + k) r)) }
    ensures legal { OnOk result (IsLegal ledger.new.deal ledger.new.arc ledger.new.history) }
    ensures back { OnErr result (ledger.new.history ≡ ledger.old.history) }
{
    ledger.reserve()?;
    Ok(ledger.tick(k))
}
