//! The hashkeys that a party reads.

ghost use Rattle.std.specs.Prelude.{◌≡◌, ◌<◌, length, option_copied};
ghost use Rattle.ledger_core.specs.Facts.{opened_key};

use hashkey_path::Hashkey;
use history_index::Index;
use ledger_core::Facts;
use swap_base::LockId;

/// The hashkey that opened the lock.
pub(crate) fn opened_key(index: &Index, lock: LockId) -> Option<&Hashkey>
    requires { lock < length index.now.terms.locks }
    ensures { option_copied result ≡ opened_key index.now.entries lock }
{
    index.opened_key(lock)
}
