//! The call that an entry is.

ghost use Rattle.std.specs.Prelude.{◌≡◌, option_copied};
ghost use Rattle.ledger_core.specs.History.{accepted};
ghost use Rattle.swap_rules.specs.Party.{pick_call};

use escrow_core::Reply;
use ledger_core::{Call, Entry, Sender, What};
use swap_base::PartyId;

/// The call that an entry is, where it was accepted.
pub fn accepted<'a>(e: &'a Entry) -> Option<&'a Call>
    ensures { option_copied result ≡ accepted e.now }
{
    match (&e.what, e.reply) {
        (What::Call(call), Reply::Accepted) => Some(call),
        _ => None,
    }
}

/// The call of the party that an entry is, whatever its reply.
pub fn pick_call<'a>(party: PartyId, e: &'a Entry) -> Option<&'a Call>
    ensures { option_copied result ≡ pick_call party e.now }
{
    match (e.sender, &e.what) {
        (Sender::Party(sender), What::Call(call)) => {
            if sender == party { Some(call) } else { None }
        }
        _ => None,
    }
}
