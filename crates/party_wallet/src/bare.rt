//! A secret alone.

ghost use Rattle.std.specs.Prelude.{◌≡◌};
ghost use Rattle.party_wallet.specs.Keys.{bare_key};

use hashkey_path::Hashkey;
use std::alloc::Global;
use swap_base::{Digest, Listed, LockId};

/// A hashkey with a secret alone, as timelocks ask for it.
pub(crate) fn bare(alloc: Global, lock: LockId, secret: &Digest) -> Hashkey
    ensures { result ≡ bare_key lock secret.now }
{
    Hashkey {
        lock,
        secret: *secret,
        path: Listed::empty(alloc),
        sigs: Listed::empty(alloc),
    }
}
