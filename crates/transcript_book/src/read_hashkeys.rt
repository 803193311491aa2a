//! The hashkeys that were read. A party presents one on each ledger of an arc that enters it, and
//! each has 2 KB for every party of its path; so one that was read before is held once.

ghost use Rattle.std.specs.Prelude.{◌≡◌, IfOk, IfSome, true};

use hash_signature::same_sigs;
use hashkey_path::Hashkey;
use ledger_core::{Call, Entry, Sender, What};
use std::alloc::Global;
use swap_base::{LockId, NoMemory, PartyId, Shared, TryCopy};

/// No fewer than the locks of a deal.
const MOST_LOCKS: usize = 8;

/// The last hashkey of each party for each lock, at the place that `find_place` says.
pub type Known = Vec<Option<Shared<Hashkey>>>;

/// Nothing was read of any of the parties.
pub fn none_known(alloc: Global, parties: usize) -> Result<Known, NoMemory> {
    let mut known = Vec::new(alloc);
    'places: for _place in 0..parties.saturating_mul(MOST_LOCKS) {
        known.push(None)?;
    }
    Ok(known)
}

fn find_place(party: PartyId, lock: LockId) -> usize {
    party as usize * MOST_LOCKS + lock as usize
}

fn is_same(one: &Hashkey, other: &Hashkey) -> bool
    ensures { result ≡ true → one.now ≡ other.now }
{
    one.lock == other.lock
        && one.secret == other.secret
        && one.path.as_slice() == other.path.as_slice()
        && same_sigs(one.sigs.as_slice(), other.sigs.as_slice())
}

/// The hashkey at a place, if it is this one.
fn find_same_key<'a>(known: &'a Known, place: usize, key: &Hashkey) -> Option<&'a Shared<Hashkey>>
    ensures { IfSome result (λ k. k.now ≡ key.now) }
{
    match known.get(place) {
        Some(Some(last)) if is_same(last, key) => Some(last),
        _ => None,
    }
}

/// Holds the party's hashkey. Where it is the one that was read last, it is held once.
fn held_once(
    known: &mut Known,
    party: PartyId,
    key: Shared<Hashkey>,
) -> Result<Shared<Hashkey>, NoMemory>
    ensures { IfOk result (λ k. k ≡ key) }
{
    let place = find_place(party, key.lock);
    if let Some(same) = find_same_key(known, place, &key) {
        return same.copy();
    }
    if place < known.len() {
        known[place] = Some(key.copy()?);
    }
    Ok(key)
}

/// The entry as it is, with its hashkey held once.
pub fn with_known(known: &mut Known, entry: Entry) -> Result<Entry, NoMemory>
    ensures { IfOk result (λ e. e ≡ entry) }
{
    let Entry {
        sender,
        height,
        what,
        reply,
    } = entry;
    let what = match (sender, what) {
        (Sender::Party(party), What::Call(Call::Unlock(key))) => {
            What::Call(Call::Unlock(held_once(known, party, key)?))
        }
        (_, what) => what,
    };
    Ok(Entry {
        sender,
        height,
        what,
        reply,
    })
}
