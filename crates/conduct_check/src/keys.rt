//! Hashkeys: whether two are the same, and those that a party sent.

ghost use Rattle.std.specs.Prelude.{◌≡◌, ◌<◌, ◌++◌, IfOk, OnOk, length, option_copied};
ghost use Rattle.hashkey_path.specs.Hashkey.{same_key};
ghost use Rattle.ledger_core.specs.Book.{history, IsLegalBook};
ghost use Rattle.swap_digraph.specs.Deal.{IsWellSized};
ghost use Rattle.swap_rules.specs.Party.{first_key};
ghost use Rattle.swap_rules.specs.Conduct.{is_first_key};
ghost use Rattle.history_index.specs.Indexes.{all_entries, AreIndexes};
ghost use Rattle.conduct_check.specs.Sent.{shown, unlock_key, unlocks_made, lock_unlocks, party_unlocks};

use crate::calls::pick_call;
use hash_signature::{Sig, same_sigs};
use hashkey_path::Hashkey;
use history_index::{Index, Made};
use ledger_core::{Call, is_adjacent};
use std::alloc::Global;
use swap_base::{ArcId, Digest, LockId, NoMemory, PartyId};
use swap_digraph::Deal;

/// Whether the hashkey has these parts.
pub fn has_parts(
    key: &Hashkey,
    lock: LockId,
    secret: &Digest,
    path: &[PartyId],
    sigs: &[Sig],
) -> bool
    ensures { result ≡ same_key key.now (record { lock = lock; secret = secret.now; path = path.now; sigs = sigs.now }) }
{
    key.lock == lock
        && key.secret == *secret
        && key.path.as_slice() == path
        && same_sigs(key.sigs.as_slice(), sigs)
}

/// Whether both are the same.
pub fn same_key(one: &Hashkey, other: &Hashkey) -> bool
    ensures { result ≡ same_key one.now other.now }
{
    has_parts(
        one,
        other.lock,
        &other.secret,
        other.path.as_slice(),
        other.sigs.as_slice(),
    )
}

/// Whether the hashkey is the first one.
pub fn is_first_key(first: Option<&Hashkey>, key: &Hashkey) -> bool
    ensures { result ≡ is_first_key (option_copied first.entry) key.now }
{
    match first {
        None => false,
        Some(first) => same_key(first, key),
    }
}

/// The hashkey that a call carries.
fn unlock_key<'a>(call: Option<&'a Call>) -> Option<&'a Hashkey>
    ensures { option_copied result ≡ unlock_key (option_copied call.entry) }
{
    match call {
        Some(Call::Unlock(key)) => Some(key),
        _ => None,
    }
}

/// Adds the hashkeys of the party's unlock calls among these.
fn put_unlocks<'a>(
    keys: &mut Vec<&'a Hashkey>,
    calls: &'a [Made],
    party: PartyId,
) -> Result<(), NoMemory>
    ensures { OnOk result (shown keys.new.items ≡ shown keys.old.items ++ unlocks_made calls.now party) }
{
    for made in calls {
        match unlock_key(pick_call(party, &made.entry)) {
            Some(key) => keys.push(key)?,
            None => {}
        }
    }
    Ok(())
}

/// Adds the hashkeys of the party's unlock calls on an arc.
#[tactic(auto, using(crate::proofs::Unlocks::made_unlocks))]
fn put_arc_unlocks<'a>(
    keys: &mut Vec<&'a Hashkey>,
    index: &'a Index,
    party: PartyId,
) -> Result<(), NoMemory>
    ensures { OnOk result (shown keys.new.items ≡ shown keys.old.items ++ lock_unlocks index.now.entries party) }
{
    put_unlocks(keys, index.made(), party)
}

/// Adds the hashkeys of the party's unlock calls on the arc. There is none where the arc isn't the
/// party's.
fn put_own_unlocks<'a>(
    keys: &mut Vec<&'a Hashkey>,
    deal: &Deal,
    known: &'a [Index],
    party: PartyId,
    arc: ArcId,
) -> Result<(), NoMemory>
    requires known { AreIndexes deal.now known.now }
    requires legal { IsLegalBook deal.now (all_entries known.now) }
    requires arc { arc < length deal.now.graph.arcs }
    ensures { OnOk result (shown keys.new.items ≡ shown keys.old.items ++ lock_unlocks (history (all_entries known.now) arc) party) }
{
    if is_adjacent(deal, arc, party) {
        put_arc_unlocks(keys, &known[arc as usize], party)?;
    }
    Ok(())
}

/// The hashkeys of the party's unlock calls, in order of arc and entry. They are read from the arcs
/// that are the party's: in a legal book it has calls on no other.
pub fn unlocks_on_own_arcs<'a>(
    alloc: Global,
    deal: &Deal,
    known: &'a [Index],
    party: PartyId,
) -> Result<Vec<&'a Hashkey>, NoMemory>
    requires sized { IsWellSized deal.now }
    requires known { AreIndexes deal.now known.now }
    requires legal { IsLegalBook deal.now (all_entries known.now) }
    ensures { IfOk result (λ v. shown v.items ≡ party_unlocks (all_entries known.now) party) }
{
    let mut keys = Vec::new(alloc);
    for arc in 0..deal.graph.arcs().len() as u8 {
        put_own_unlocks(&mut keys, deal, known, party, arc)?;
    }
    Ok(keys)
}

/// The hashkey of the first unlock call for the lock, where these are the hashkeys that the party
/// sent.
#[tactic(auto, unfolding(swap_rules::specs::Party::first_key))]
pub fn first_key<'a>(
    known: &[Index],
    party: PartyId,
    keys: &[&'a Hashkey],
    lock: LockId,
) -> Option<&'a Hashkey>
    requires keys { shown keys.now ≡ party_unlocks (all_entries known.now) party }
    ensures { option_copied result ≡ first_key (all_entries known.now) party lock }
{
    for key in keys {
        if key.lock == lock {
            return Some(*key);
        }
    }
    None
}
