//! What counts of what is told: refused calls of the party are passed over.

ghost use Rattle.std.specs.Prelude.{◌≡◌, IfOk, Some};
ghost use Rattle.swap_rules.specs.Counted.{all_counted, counted, is_passed, may_repeat};
ghost use Rattle.told_ledgers.specs.Telling.{told_book};

use escrow_core::Reply;
use ledger_core::{Book, Call, Entry, EntryList, Sender, What};
use std::alloc::Global;
use swap_base::{Listed, NoMemory, PartyId};
use told_ledgers::ToldLedger;

/// Whether the call is one that may be made again where it was refused.
fn may_repeat(call: &Call) -> bool
    ensures { result ≡ may_repeat (Some call.now) }
{
    matches!(call, Call::Unlock(_) | Call::Claim | Call::Refund)
}

/// Whether the entry is an unlock, a claim or a refund of the party that was refused.
fn is_passed(me: PartyId, entry: &Entry) -> bool
    ensures { result ≡ is_passed me entry.now }
{
    match (entry.sender, &entry.what) {
        (Sender::Party(p), What::Call(call)) => {
            p == me && may_repeat(call) && !matches!(entry.reply, Reply::Accepted)
        }
        _ => false,
    }
}

/// What counts of a history for the party.
fn counted(alloc: Global, me: PartyId, history: &EntryList) -> Result<EntryList, NoMemory>
    ensures { IfOk result (λ l. l ≡ counted me history.now) }
{
    let entries = history.to_vec(alloc)?;
    let mut list = EntryList::empty(alloc);
    'entries: for entry in entries {
        if !is_passed(me, &entry) {
            list.push(entry)?;
        }
    }
    Ok(list)
}

/// What counts for the party of the book that is told.
pub fn counted_book(alloc: Global, me: PartyId, ledgers: &[ToldLedger]) -> Result<Book, NoMemory>
    ensures { IfOk result (λ b. b.histories ≡ all_counted me (told_book ledgers.now)) }
{
    let mut histories = Vec::new(alloc);
    for ledger in ledgers {
        histories.push(counted(alloc, me, &ledger.history)?)?;
    }
    Ok(Book {
        histories: Listed::new(histories),
    })
}
