//! Whether an entry was accepted with a signature or a secret that a party never sent.

ghost use Rattle.std.specs.Prelude.{◌≡◌, ◌<◌, length};
ghost use Rattle.ledger_core.specs.History.{accepted};
ghost use Rattle.swap_rules.specs.Forged.{has_forged_suffix, is_forged};
ghost use Rattle.conduct_check.specs.Judged.{judged_book, IsJudged};
ghost use Rattle.conduct_check.specs.CallConduct.{has_made_parts, has_sent, is_forged_secret, HasDealLock};

use crate::calls::accepted;
use crate::judged::Judged;
use crate::keys::has_parts;
use due_calls::leads;
use hash_signature::{Sig, hashed_value};
use hashkey_path::Hashkey;
use ledger_core::{Call, Entry};
use swap_base::{Digest, LockId, PartyId};
use swap_digraph::Mode;

/// Whether an unlock call of the party carries a hashkey of these parts.
fn has_made(
    judged: &Judged<'_>,
    lock: LockId,
    secret: &Digest,
    path: &[PartyId],
    sigs: &[Sig],
) -> bool
    requires { IsJudged judged.now }
    ensures { result ≡ has_made_parts (judged_book judged.now) judged.now.party lock secret.now path.now sigs.now }
{
    judged
        .keys
        .iter()
        .any(|sent| has_parts(*sent, lock, secret, path, sigs))
}

/// Whether an unlock call of the party carries the secret.
fn has_sent(judged: &Judged<'_>, secret: &Digest) -> bool
    requires { IsJudged judged.now }
    ensures { result ≡ has_sent (judged_book judged.now) judged.now.party secret.now }
{
    judged.keys.iter().any(|sent| sent.secret == *secret)
}

/// Whether a suffix of the hashkey begins with the party although no unlock call of the party
/// carries that suffix. The path and the signatures are the hashkey's from some place on.
fn has_forged_suffix(judged: &Judged<'_>, key: &Hashkey, path: &[PartyId], sigs: &[Sig]) -> bool
    requires { IsJudged judged.now }
    ensures { result ≡ has_forged_suffix (judged_book judged.now) judged.now.party key.now path.now sigs.now }
{
    match path {
        [first, rest @ ..] => match sigs {
            [_, inner @ ..] => {
                (*first == judged.party && !has_made(judged, key.lock, &key.secret, path, sigs))
                    || has_forged_suffix(judged, key, rest, inner)
            }
            [] => false,
        },
        [] => false,
    }
}

/// Whether the secret opens a lock that the party leads, and no unlock call of it carries that
/// secret.
#[tactic(auto, using(crate::proofs::Chains::secret_chain))]
fn is_forged_secret(judged: &Judged<'_>, key: &Hashkey) -> bool
    requires judged { IsJudged judged.now }
    requires lock { key.now.lock < length judged.now.deal.now.leaders }
    ensures { result ≡ is_forged_secret judged.now.deal.now (judged_book judged.now) judged.now.party key.now }
{
    leads(judged.deal, judged.party, key.lock)
        && !has_sent(judged, &key.secret)
        && hashed_value(&key.secret) == judged.deal.hashlocks.as_slice()[key.lock as usize]
}

/// Whether the entry is forged in the party's name.
#[tactic(auto, unfolding(swap_rules::specs::Forged::forges))]
pub(crate) fn is_forged(judged: &Judged<'_>, entry: &Entry) -> bool
    requires judged { IsJudged judged.now }
    requires within { HasDealLock judged.now.deal.now (accepted entry.now) }
    ensures { result ≡ is_forged judged.now.deal.now (judged_book judged.now) judged.now.party entry.now }
{
    match accepted(entry) {
        Some(Call::Unlock(key)) => match judged.deal.mode {
            Mode::Timelocks => is_forged_secret(judged, key),
            Mode::Hashkeys => {
                let path = key.path.as_slice();
                let sigs = key.sigs.as_slice();
                has_forged_suffix(judged, key, path, sigs)
            }
        },
        _ => false,
    }
}
