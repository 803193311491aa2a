//! What is read once of a party, for all of its calls.

ghost use Rattle.std.specs.Prelude.{◌≡◌, ◌<◌, ℕ, length, slice_index_or, false};
ghost use Rattle.ledger_core.specs.Book.{IsLegalBook};
ghost use Rattle.conduct_check.specs.Judged.{judged_book, IsJudged};
ghost use Rattle.conduct_check.specs.Standing.{first_origin, first_valid, IsStanding};

use crate::judged::Judged;
use crate::keys::first_key;
use crate::origin::has_origin;
use crate::validity::is_valid_entering;
use due_calls::{is_ready, leads_one};
use swap_base::LockId;

/// What is read of a party: whether it leads a lock, whether it is ready, and by lock whether its
/// first hashkey is well come by, and is valid on the arcs that enter it.
#[derive(Clone, Copy)]
pub(crate) struct Standing {
    pub leads: bool,
    pub ready: bool,
    pub origins: [bool; 8],
    pub valid: [bool; 8],
}

/// Whether the party's first hashkey for the lock is well come by.
fn has_first_origin(judged: &Judged<'_>, lock: LockId) -> bool
    requires { IsJudged judged.now }
    ensures { result ≡ first_origin judged.now lock }
{
    match first_key(judged.known, judged.party, judged.keys, lock) {
        Some(key) => has_origin(judged, key),
        None => false,
    }
}

/// Whether the party's first hashkey for the lock is valid on the arcs that enter it.
fn is_first_valid(judged: &Judged<'_>, lock: LockId) -> bool
    requires judged { IsJudged judged.now }
    requires legal { IsLegalBook judged.now.deal.now (judged_book judged.now) }
    requires lock { lock < length judged.now.deal.now.leaders }
    ensures { result ≡ first_valid judged.now lock }
{
    match first_key(judged.known, judged.party, judged.keys, lock) {
        Some(key) => is_valid_entering(judged, key),
        None => false,
    }
}

fn key_origins(judged: &Judged<'_>) -> [bool; 8]
    requires { IsJudged judged.now }
    ensures places { length result ≡ 8 }
    ensures each { (i : ℕ) → i < length judged.now.deal.now.leaders → slice_index_or result i false ≡ first_origin judged.now i }
{
    let mut origins = [false; 8];
    for lock in 0..judged.deal.leaders.len() as u8 {
        origins[lock as usize] = has_first_origin(judged, lock);
    }
    origins
}

fn validity_flags(judged: &Judged<'_>) -> [bool; 8]
    requires judged { IsJudged judged.now }
    requires legal { IsLegalBook judged.now.deal.now (judged_book judged.now) }
    ensures places { length result ≡ 8 }
    ensures each { (i : ℕ) → i < length judged.now.deal.now.leaders → slice_index_or result i false ≡ first_valid judged.now i }
{
    let mut valid = [false; 8];
    for lock in 0..judged.deal.leaders.len() as u8 {
        valid[lock as usize] = is_first_valid(judged, lock);
    }
    valid
}

/// What is read once of the party.
pub(crate) fn party_standing(judged: &Judged<'_>) -> Standing
    requires judged { IsJudged judged.now }
    requires legal { IsLegalBook judged.now.deal.now (judged_book judged.now) }
    ensures { IsStanding judged.now result }
{
    Standing {
        leads: leads_one(judged.deal, judged.party),
        ready: is_ready(judged.deal, judged.party, judged.known),
        origins: key_origins(judged),
        valid: validity_flags(judged),
    }
}
