//! Which calls a ledger may be asked.

ghost use Rattle.std.specs.Prelude.{◌≡◌, ◌==◌, ◌||◌, ◌<◌, nat_lt, length};
ghost use Rattle.std.specs.List.{list_all};
ghost use Rattle.swap_digraph.specs.Deal.{touches};
ghost use Rattle.ledger_core.specs.History.{fit};

use crate::entry::Call;
use escrow_core::Terms;
use hashkey_path::Hashkey;
use swap_base::{ArcId, PartyId};
use swap_digraph::{Deal, path_limit};

const MOST_HEIGHT: u32 = 1_000_000;

const MOST_UNITS: u64 = 1_000_000_000_000;

/// Whether p is one of the arc's two parties.
pub fn is_adjacent(deal: &Deal, arc: ArcId, p: PartyId) -> bool
    requires { arc < length deal.now.graph.arcs }
    ensures { result ≡ touches deal.now p arc }
{
    let ends = deal.graph.arcs()[arc as usize];
    p == ends.from || p == ends.to
}

/// Whether a publish of the terms fits, which is the same on each arc.
fn terms_fit(deal: &Deal, terms: &Terms) -> bool
    ensures { result ≡ fit deal.now 0 (Call.Publish terms.now) }
{
    terms.locks.len() as usize == deal.leaders.len()
        && terms.start <= MOST_HEIGHT
        && terms.delta <= MOST_HEIGHT
        && terms.bound <= MOST_HEIGHT
        && terms.timelock <= MOST_HEIGHT
        && terms.amount <= MOST_UNITS
}

fn are_parties(parties: &[PartyId], n: u8) -> bool
    ensures { result ≡ list_all (λ v. nat_lt v n) parties.now }
{
    parties.iter().all(|v| *v < n)
}

/// Whether an unlock with the hashkey fits, which is the same on each arc.
fn key_fits(deal: &Deal, key: &Hashkey) -> bool
    ensures { result ≡ fit deal.now 0 (Call.Unlock key.now) }
{
    let limit = path_limit(deal) as usize;
    (key.lock as usize) < deal.leaders.len()
        && key.path.len() <= limit
        && key.sigs.len() <= limit
        && are_parties(key.path.as_slice(), deal.graph.n())
}

/// Whether a call fits the deal and the arc: its locks and parties are in range, its lists have the
/// right lengths, and its heights and units are in their ranges.
pub fn fits(deal: &Deal, arc: ArcId, call: &Call) -> bool
    requires { arc < length deal.now.graph.arcs }
    ensures { result ≡ fit deal.now arc call.now }
{
    match call {
        Call::Publish(terms) => terms_fit(deal, terms),
        Call::Unlock(key) => key_fits(deal, key),
        Call::Claim => true,
        Call::Refund => true,
        Call::Transfer(to, units) => is_adjacent(deal, arc, *to) && *units <= MOST_UNITS,
    }
}
