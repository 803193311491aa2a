//! The key for one lock.

ghost use Rattle.std.specs.Prelude.{◌≡◌, IfOk};
ghost use Rattle.party_wallet.specs.Keys.{party_public, unspent};

use hash_signature::{OneTimeKey, keygen};
use std::alloc::Global;
use swap_base::{Digest, LockId, NoMemory, PartyId};
use swap_digraph::Mode;

/// The key that the seed gives for a lock, and its public key; timelocks ask for none.
pub(crate) fn unspent(
    alloc: Global,
    mode: Mode,
    seed: &Digest,
    party: PartyId,
    lock: LockId,
) -> Result<(Option<OneTimeKey>, Option<Digest>), NoMemory>
    ensures key { IfOk result (λ p. p.0 ≡ unspent mode seed.now party lock) }
    ensures public { IfOk result (λ p. p.1 ≡ party_public mode seed.now party lock) }
{
    match mode {
        Mode::Timelocks => Ok((None, None)),
        Mode::Hashkeys => {
            let (key, public) = keygen(alloc, seed, party, lock)?;
            Ok((Some(key), Some(public)))
        }
    }
}
