//! Whether a wallet's keys are those that a deal states.

ghost use Rattle.std.specs.Prelude.{◌≡◌, ◌<◌, ◌&&◌, length};
ghost use Rattle.swap_digraph.specs.Deal.{IsWellSized};
ghost use Rattle.party_wallet.specs.Fits.{is_stated, opens_own};

use hash_signature::{derive_secret, hashed_value};
use swap_base::{Digest, LockId, PartyId};
use swap_digraph::{Deal, Mode};

fn opens_own(deal: &Deal, party: PartyId, seed: &Digest, lock: LockId) -> bool
    requires sized { IsWellSized deal.now }
    requires lock { lock < length deal.now.leaders }
    ensures { result ≡ opens_own deal.now party seed.now lock }
{
    deal.leaders.as_slice()[lock as usize] != party
        || hashed_value(&derive_secret(seed)) == deal.hashlocks.as_slice()[lock as usize]
}

/// Whether a public key, if there is one, is the one that the deal with hashkeys states.
fn is_key(deal: &Deal, party: PartyId, lock: LockId, public: &Option<Digest>) -> bool
    requires sized { IsWellSized deal.now }
    requires mode { deal.now.mode ≡ Mode.Hashkeys }
    requires party { party < deal.now.graph.n }
    requires lock { lock < length deal.now.leaders }
    ensures { result ≡ is_stated Mode.Hashkeys deal.now party lock public.now }
{
    match public {
        Some(key) => *key == deal.keys.as_slice()[party as usize].as_slice()[lock as usize],
        None => false,
    }
}

fn is_known(deal: &Deal, party: PartyId, lock: LockId, public: &Option<Digest>) -> bool
    requires sized { IsWellSized deal.now }
    requires party { party < deal.now.graph.n }
    requires lock { lock < length deal.now.leaders }
    ensures { result ≡ is_stated deal.now.mode deal.now party lock public.now }
{
    match deal.mode {
        Mode::Timelocks => true,
        Mode::Hashkeys => is_key(deal, party, lock, public),
    }
}

/// Whether a public key, if there is one, and the seed's secret are those that the deal states of
/// the party for the lock.
pub(crate) fn fits_stated(
    deal: &Deal,
    party: PartyId,
    seed: &Digest,
    lock: LockId,
    public: &Option<Digest>,
) -> bool
    requires sized { IsWellSized deal.now }
    requires party { party < deal.now.graph.n }
    requires lock { lock < length deal.now.leaders }
    ensures { result ≡ (is_stated deal.now.mode deal.now party lock public.now && opens_own deal.now party seed.now lock) }
{
    is_known(deal, party, lock, public) && opens_own(deal, party, seed, lock)
}
