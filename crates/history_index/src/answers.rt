//! The answers over a list of entries, and what one more entry makes of them.

ghost use Rattle.std.specs.Prelude.{◌≡◌, ◌+◌, ◌<◌, ◌^◌, IsTrue, length, is_some, if◌then◌else◌};
ghost use Rattle.escrow_core.specs.declared.terms.Terms.{Terms};
ghost use Rattle.ledger_core.specs.History.{entry_ticks, accepted, publication};
ghost use Rattle.history_index.specs.Numbers.{names_lock};
ghost use Rattle.history_index.specs.Kept.{updated_answers, no_answers, with_opening};

use crate::entry_facts::{entry_publication, entry_settlement, entry_ticks};
use escrow_core::{Reply, Terms};
use ledger_core::{Call, Entry, Published, Settlement, What};

/// What stands in a list of entries.
#[derive(Clone, Copy, Debug)]
pub(crate) struct Answers {
    pub height: u32,
    pub published: Option<Published>,
    /// The number of the entry of the accepted publish.
    pub published_number: Option<u32>,
    /// The number of the entry of each lock's accepted unlock.
    pub unlocked: [Option<u32>; 8],
    pub settled: Option<Settlement>,
}

/// The entry's number, where it is an accepted publish.
fn publication_number(number: u32, e: &Entry) -> Option<u32>
    ensures { result ≡ (if is_some (publication e.now.height (accepted e.now)) then Some number else None) }
{
    match (&e.what, e.reply) {
        (What::Call(Call::Publish(_)), Reply::Accepted) => Some(number),
        _ => None,
    }
}

/// Keeps the number of an accepted unlock, where it is the first for its lock.
fn add_opening(unlocked: &mut [Option<u32>; 8], number: u32, e: &Entry)
    requires places { length unlocked.old ≡ 8 }
    requires lock { IsTrue (names_lock e.now.what) }
    ensures { unlocked.new ≡ with_opening unlocked.old number (accepted e.now) }
{
    if let (What::Call(Call::Unlock(key)), Reply::Accepted) = (&e.what, e.reply) {
        let kept = unlocked[key.lock as usize];
        unlocked[key.lock as usize] = kept.or(Some(number));
    }
}

impl Answers {
    pub fn new() -> Answers
        ensures { result ≡ no_answers }
    {
        Answers {
            height: 0,
            published: None,
            published_number: None,
            unlocked: [None; 8],
            settled: None,
        }
    }

    /// Takes in an entry with its number.
    pub fn add(&mut self, terms: &Terms, number: u32, entry: &Entry)
        requires places { length self.old.unlocked ≡ 8 }
        requires height { self.old.height + entry_ticks entry.now.what < 2 ^ 32 }
        requires lock { IsTrue (names_lock entry.now.what) }
        ensures { self.new ≡ updated_answers terms.now number entry.now self.old }
    {
        self.height += entry_ticks(entry);
        self.published = self.published.or(entry_publication(terms, entry));
        self.published_number = self.published_number.or(publication_number(number, entry));
        add_opening(&mut self.unlocked, number, entry);
        self.settled = self.settled.or(entry_settlement(entry));
    }
}
