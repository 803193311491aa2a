//! The hashkey that opened a lock, in a list of entries.

ghost use Rattle.std.specs.Prelude.{◌≡◌, option_map, option_copied};
ghost use Rattle.swap_base.specs.Lists.{first_given_answer};
ghost use Rattle.ledger_core.specs.Facts.{opened_key};
ghost use Rattle.ledger_core.specs.History.{opening, accepted};
ghost use Rattle.swap_job.specs.MoveKeys.{item_opening};

use escrow_core::Reply;
use hashkey_path::Hashkey;
use ledger_core::{Call, Entry, EntryList, Item, LedgerHistory, What};
use swap_base::LockId;

/// The hashkey that an accepted unlock for the lock presents.
fn presented_key(e: &Entry, lock: LockId) -> Option<&Hashkey>
    ensures { option_copied result ≡ option_map (λ o. o.key) (opening lock e.now.height (accepted e.now)) }
{
    match (&e.what, e.reply) {
        (What::Call(Call::Unlock(key)), Reply::Accepted) => {
            if key.lock == lock { Some(key) } else { None }
        }
        _ => None,
    }
}

fn key_of_item(item: &Item, lock: LockId) -> Option<&Hashkey>
    ensures { option_copied result ≡ option_map (λ o. o.key) (item_opening lock item.now) }
{
    match item {
        Item::One(entry) => presented_key(entry, lock),
        Item::Ticks(_) => None,
    }
}

fn find_key(items: &[Item], lock: LockId) -> Option<&Hashkey>
    ensures { option_copied result ≡ option_map (λ o. o.key) (first_given_answer (item_opening lock) items.now) }
{
    for item in items {
        let found = key_of_item(item, lock);
        if found.is_some() {
            return found;
        }
    }
    None
}

/// The hashkey of the accepted unlock for the lock.
pub fn opened_key(list: &EntryList, lock: LockId) -> Option<&Hashkey>
    ensures { option_copied result ≡ opened_key list.now lock }
{
    let (items, _) = list.parts();
    find_key(items, lock)
}

/// The hashkey of the accepted unlock for the lock in a ledger's history.
pub fn find_opened_key(history: &LedgerHistory, lock: LockId) -> Option<&Hashkey>
    ensures { option_copied result ≡ opened_key history.now.list lock }
{
    let (items, _) = history.parts();
    find_key(items, lock)
}
