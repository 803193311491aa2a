//! Hashkeys that a party extends.

ghost use Rattle.std.specs.Prelude.{◌≡◌, option_copied};
ghost use Rattle.swap_rules.specs.Conduct.{extends, extends_without_party};

use crate::keys::has_parts;
use hashkey_path::Hashkey;
use ledger_core::Call;
use swap_base::PartyId;
use swap_digraph::is_listed;

/// Whether the call is an unlock with a hashkey that this one extends by the party.
pub fn extends(party: PartyId, key: &Hashkey, call: Option<&Call>) -> bool
    ensures { result ≡ extends party key.now (option_copied call.entry) }
{
    let path = key.path.as_slice();
    let sigs = key.sigs.as_slice();
    match (call, path, sigs) {
        (Some(Call::Unlock(inner)), [first, rest @ ..], [_, inner_sigs @ ..]) => {
            *first == party && has_parts(inner, key.lock, &key.secret, rest, inner_sigs)
        }
        _ => false,
    }
}

/// Whether the call is an unlock with an inner hashkey: this one extends it by the party, and its
/// path lacks the party.
pub fn extends_without_party(party: PartyId, key: &Hashkey, call: Option<&Call>) -> bool
    ensures { result ≡ extends_without_party party key.now (option_copied call.entry) }
{
    match call {
        Some(Call::Unlock(inner)) => {
            !is_listed(party, inner.path.as_slice()) && extends(party, key, call)
        }
        _ => false,
    }
}
