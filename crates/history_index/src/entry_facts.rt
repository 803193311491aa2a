//! What one entry says.

ghost use Rattle.std.specs.Prelude.{◌≡◌, option_map};
ghost use Rattle.ledger_core.specs.History.{accepted, publication, settling, entry_ticks};
ghost use Rattle.ledger_core.specs.Facts.{checked_publication};

use escrow_core::{Reply, Terms};
use ledger_core::{Call, Entry, Published, Settlement, What};

/// By how many heights the entry raised its ledger.
pub(crate) fn entry_ticks(e: &Entry) -> u32
    ensures { result ≡ entry_ticks e.now.what }
{
    match &e.what {
        What::Call(_) => 0,
        What::Tick(k) => *k,
    }
}

/// The publish that the entry is, where it was accepted.
pub(crate) fn entry_publication(terms: &Terms, e: &Entry) -> Option<Published>
    ensures { result ≡ option_map (checked_publication terms.now) (publication e.now.height (accepted e.now)) }
{
    match (&e.what, e.reply) {
        (What::Call(Call::Publish(stated)), Reply::Accepted) => Some(Published {
            height: e.height,
            correct: stated.same(terms),
        }),
        _ => None,
    }
}

/// The settlement that the entry is, where it was accepted.
pub(crate) fn entry_settlement(e: &Entry) -> Option<Settlement>
    ensures { result ≡ settling (accepted e.now) }
{
    match (&e.what, e.reply) {
        (What::Call(Call::Claim), Reply::Accepted) => Some(Settlement::Claimed),
        (What::Call(Call::Refund), Reply::Accepted) => Some(Settlement::Refunded),
        _ => None,
    }
}
