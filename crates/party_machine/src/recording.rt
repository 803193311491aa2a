//! The hashkey that a call is to have recorded.

ghost use Rattle.std.specs.Prelude.{◌≡◌, true, None, option_map, option_copied};
ghost use Rattle.party_machine.specs.Machine.{due_action};
ghost use Rattle.party_machine.specs.Recording.{new_key, IsPlaced, IsRecorded};

use hashkey_path::Hashkey;
use ledger_core::Call;
use swap_base::{ArcId, Shared};
use wallet_journal::{Disk, Journal};

/// The hashkey of a call, where a journal has none recorded for its lock.
pub(crate) fn key_to_record<'a, D: Disk>(
    journal: &Journal<D>,
    answer: &'a Option<(ArcId, Call)>,
) -> Option<&'a Shared<Hashkey>>
    requires sound { journal.now.sound ≡ true }
    requires placed { IsPlaced journal.now.signed answer.now }
    ensures key { option_copied result ≡ new_key journal.now.signed (option_map due_action answer.now) }
    ensures there { new_key journal.now.signed (option_map due_action answer.now) ≡ None → IsRecorded (D.may_leave journal.now.disk) answer.now }
{
    let Some((_, call)) = answer else {
        return None;
    };
    match call {
        Call::Unlock(key) => match journal.signed(key.lock) {
            Some(_) => None,
            None => Some(key),
        },
        _ => None,
    }
}
