//! A book without its refused calls.

ghost use Rattle.std.specs.Prelude.{◌≡◌, ◌++◌, ◌∷◌, [], IfOk, OnOk};
ghost use Rattle.ledger_core.specs.Book.{IsLegalBook};
ghost use Rattle.swap_auditor.specs.Accepted.{accepted_calls, accepted_only, is_accepted as is_accepted_reply, HoldTheSame};

use escrow_core::Reply;
use ledger_core::{Book, Entry, EntryList};
use std::alloc::Global;
use swap_base::{Listed, NoMemory, TryCopy};
use swap_digraph::Deal;

fn is_accepted(entry: &Entry) -> bool
    ensures { result ≡ is_accepted_reply entry.now.reply }
{
    matches!(entry.reply, Reply::Accepted)
}

/// Adds an entry, where it was accepted.
fn push_accepted(list: &mut EntryList, entry: &Entry) -> Result<(), NoMemory>
    ensures { OnOk result (list.new ≡ list.old ++ accepted_calls (entry.now ∷ [])) }
{
    if is_accepted(entry) {
        list.push(entry.copy()?)?;
    }
    Ok(())
}

/// The entries that were accepted.
fn accepted_entries(alloc: Global, list: &EntryList) -> Result<EntryList, NoMemory>
    ensures { IfOk result (λ l. l ≡ accepted_calls list.now) }
{
    let entries = list.to_vec(alloc)?;
    let mut accepted = EntryList::empty(alloc);
    for entry in &entries {
        push_accepted(&mut accepted, entry)?;
    }
    Ok(accepted)
}

/// The book without each entry whose reply isn't `Accepted`. Refused calls change nothing for
/// anybody. For programs of others.
pub fn accepted_only(alloc: Global, deal: &Deal, book: &Book) -> Result<Book, NoMemory>
    requires legal { IsLegalBook deal.now book.now.histories }
    ensures exact { IfOk result (λ b. b.histories ≡ accepted_only book.now.histories) }
    ensures legal { IfOk result (λ b. IsLegalBook deal.now b.histories) }
    ensures same { IfOk result (λ b. HoldTheSame deal.now book.now.histories b.histories) }
{
    let mut histories = Vec::new(alloc);
    for list in book.histories.as_slice() {
        histories.push(accepted_entries(alloc, list)?)?;
    }
    Ok(Book {
        histories: Listed::new(histories),
    })
}
