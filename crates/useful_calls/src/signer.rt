//! What a party signs with.

ghost use Rattle.std.specs.Prelude.{◌≡◌, option_copied};
ghost use Rattle.party_wallet.specs.Value.{signed_hashkey};

use hashkey_path::Hashkey;
use party_wallet::Signed;
use swap_base::{Digest, LockId};

/// What a party signs with: its seed, and the hashkeys that it kept. For a stopped lock it signs
/// nothing, and nothing is presented.
#[derive(Clone, Copy)]
pub struct Signer<'a> {
    pub seed: &'a Digest,
    pub kept: &'a Signed,
    pub stopped: &'a [LockId],
}

/// The hashkey that was kept for the lock, if any.
pub fn kept_key(kept: &Signed, lock: LockId) -> Option<&Hashkey>
    ensures { option_copied result ≡ signed_hashkey kept.now.keys lock }
{
    match kept.keys.as_slice().get(lock as usize) {
        Some(Some(key)) => Some(key),
        _ => None,
    }
}
