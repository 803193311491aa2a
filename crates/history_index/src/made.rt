//! The calls of an index.

ghost use Rattle.std.specs.Prelude.{◌≡◌, ◌<◌, ◌≤◌, IsTrue, option_map, length, vec_capacity, if◌then◌else◌};
ghost use Rattle.swap_base.specs.Lists.{first_given_answer};
ghost use Rattle.ledger_core.specs.History.{opening, accepted};
ghost use Rattle.ledger_core.specs.Facts.{is_call};
ghost use Rattle.history_index.specs.Made.{updated_calls, key_opening};

use escrow_core::Reply;
use hashkey_path::Hashkey;
use ledger_core::{Call, Entry, What};
use swap_base::LockId;

/// A call that stands in a list of entries, with its number among all entries.
#[derive(Debug, Drop)]
pub struct Made {
    pub number: u32,
    pub entry: Entry,
}

/// The accepted unlock of a lock.
#[derive(Clone, Copy)]
pub struct Opened<'a> {
    pub height: u32,
    pub key: &'a Hashkey,
}

/// How many calls the entry is.
pub(crate) fn call_count(entry: &Entry) -> usize
    ensures { result ≡ (if is_call entry.now.what then 1 else 0) }
{
    match &entry.what {
        What::Call(_) => 1,
        What::Tick(_) => 0,
    }
}

/// Keeps an entry with its number, where it is a call.
pub(crate) fn keep(made: &mut Vec<Made>, number: u32, entry: Entry)
    requires { IsTrue (is_call entry.what) → length made.old.items < vec_capacity made.old }
    ensures made { made.new.items ≡ updated_calls number entry made.old.items }
    ensures capacity { vec_capacity made.old ≤ vec_capacity made.new }
{
    if call_count(&entry) == 0 {
        return;
    }
    match made.push(Made { number, entry }) {
        Ok(()) => {}
        Err(_) => unreachable!(),
    }
}

fn opening<'a>(lock: LockId, made: &'a Made) -> Option<Opened<'a>>
    ensures { option_map key_opening result ≡ opening lock made.now.entry.height (accepted made.now.entry) }
{
    match (&made.entry.what, made.entry.reply) {
        (What::Call(Call::Unlock(key)), Reply::Accepted) => {
            if key.lock == lock {
                Some(Opened {
                    height: made.entry.height,
                    key,
                })
            } else {
                None
            }
        }
        _ => None,
    }
}

/// The accepted unlock of the lock among the calls.
pub(crate) fn find_opened<'a>(made: &'a [Made], lock: LockId) -> Option<Opened<'a>>
    ensures { option_map key_opening result ≡ first_given_answer (λ m. opening lock m.entry.height (accepted m.entry)) made.now }
{
    for call in made {
        let found = opening(lock, call);
        if found.is_some() {
            return found;
        }
    }
    None
}
