//! Which calls of a party count for a rule.

ghost use Rattle.std.specs.Prelude.{◌≡◌, option_copied};
ghost use Rattle.std.specs.List.{list_any};
ghost use Rattle.ledger_core.specs.Book.{history};
ghost use Rattle.history_index.specs.Indexes.{all_entries};
ghost use Rattle.conduct_check.specs.Overdue.{is_counted_call, counts_entry, has_counted_call};

use crate::calls::pick_call;
use crate::keys::is_first_key;
use hashkey_path::Hashkey;
use history_index::{Index, Made};
use ledger_core::{Call, Entry};
use swap_base::{ArcId, LockId, PartyId};

/// The calls that count for a rule: a refund above the arc's least expiry, and an unlock of the
/// lock with the party's first hashkey for it.
#[derive(Clone, Copy)]
pub(crate) enum Counted<'a> {
    Publish,
    Unlock(LockId, Option<&'a Hashkey>),
    Claim,
    Refund(u64),
}

/// Whether a call, made at a height, counts.
fn counts(counted: &Counted, at: u32, call: Option<&Call>) -> bool
    ensures { result ≡ is_counted_call counted.now at (option_copied call.entry) }
{
    match (counted, call) {
        (Counted::Publish, Some(Call::Publish(_))) => true,
        (Counted::Unlock(lock, first), Some(Call::Unlock(key))) => {
            key.lock == *lock && is_first_key(*first, key)
        }
        (Counted::Claim, Some(Call::Claim)) => true,
        (Counted::Refund(least), Some(Call::Refund)) => *least < at as u64,
        _ => false,
    }
}

/// Whether the entry is a call of the party that counts, at a height of at most due.
#[tactic(auto, unfolding(crate::specs::Overdue::counts_entry))]
fn counts_entry(counted: &Counted, party: PartyId, due: u64, entry: &Entry) -> bool
    ensures { result ≡ counts_entry counted.now party due entry.now }
{
    counts(counted, entry.height, pick_call(party, entry)) && entry.height as u64 <= due
}

/// Whether one of the calls is of the party and counts, at a height of at most due.
fn any_counts(calls: &[Made], party: PartyId, counted: &Counted, due: u64) -> bool
    ensures { result ≡ list_any (λ m. counts_entry counted.now party due m.entry) calls.now }
{
    calls
        .iter()
        .any(|made| counts_entry(counted, party, due, &made.entry))
}

/// Whether a call of the party that counts stands on the arc at a height of at most due.
#[tactic(auto, using(crate::proofs::MadeLate::done_made))]
pub(crate) fn is_done(
    known: &[Index],
    party: PartyId,
    counted: &Counted,
    arc: ArcId,
    due: u64,
) -> bool
    ensures { result ≡ has_counted_call counted.now party due (history (all_entries known.now) arc) }
{
    match known.get(arc as usize) {
        Some(index) => any_counts(index.made(), party, counted, due),
        None => false,
    }
}
