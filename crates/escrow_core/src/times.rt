//! The times of a contract, which come from its own terms.

ghost use Rattle.std.specs.Prelude.{◌≡◌, ◌≤◌, ◌<◌, ◌^◌, false, length, slice_index_or};
ghost use Rattle.escrow_core.specs.Terms.{lock_expiry, is_own, last_unlock, refund_expiry};
ghost use Rattle.escrow_core.specs.Value.{AreFitting};
ghost use Rattle.escrow_core.specs.ContractRows.{lesser};

use crate::terms::Terms;
use hashkey_path::Hashkey;
use swap_base::{ArcId, LockId};
use swap_digraph::{Deal, Mode, Version};
use time_bounds::{deadline, last_expiry, own_expiry};

fn is_own(deal: &Deal, arc: ArcId, lock: LockId) -> bool
    requires arc { arc < length deal.now.graph.arcs }
    requires lock { lock < length deal.now.leaders }
    ensures { result ≡ is_own deal.now.version deal.now arc lock }
{
    match deal.version {
        Version::One => false,
        Version::Two => {
            deal.leaders.as_slice()[lock as usize] == deal.graph.arcs()[arc as usize].to
        }
    }
}

/// The height above which the lock is expired on the arc.
fn lock_expiry(deal: &Deal, arc: ArcId, terms: &Terms, lock: LockId) -> u64
    requires arc { arc < length deal.now.graph.arcs }
    requires fitting { AreFitting deal.now terms.now }
    requires lock { lock < length deal.now.leaders }
    ensures exact { result ≡ lock_expiry deal.now.mode deal.now arc terms.now lock }
    ensures small { result < 2 ^ 62 }
{
    match deal.mode {
        Mode::Timelocks => terms.timelock as u64,
        Mode::Hashkeys => {
            if is_own(deal, arc, lock) {
                own_expiry(terms.start, terms.delta, terms.bound)
            } else {
                last_expiry(terms.start, terms.delta, terms.bound)
            }
        }
    }
}

/// The last height at which the hashkey is accepted.
pub(crate) fn last_unlock(mode: Mode, terms: &Terms, key: &Hashkey) -> u64
    requires start { terms.now.start ≤ 1000000 }
    requires delta { terms.now.delta ≤ 1000000 }
    requires bound { terms.now.bound ≤ 1000000 }
    requires few { mode ≡ Mode.Hashkeys → length key.now.path ≤ 1000000 }
    ensures { result ≡ last_unlock mode terms.now key.now }
{
    match mode {
        Mode::Timelocks => terms.timelock as u64,
        Mode::Hashkeys => {
            let vertices = key.path.len();
            let arcs = vertices.saturating_sub(1) as u32;
            deadline(terms.start, terms.delta, terms.bound, arcs)
        }
    }
}

/// The lesser of a number that may be none yet and another.
pub fn lesser(least: Option<u64>, other: u64) -> u64
    ensures { result ≡ lesser least other }
{
    match least {
        None => other,
        Some(n) => n.min(other),
    }
}

/// The height above which a refund is accepted: the least expiry of a closed lock.
pub(crate) fn refund_expiry(deal: &Deal, arc: ArcId, terms: &Terms, opened: &[bool]) -> u64
    requires arc { arc < length deal.now.graph.arcs }
    requires fitting { AreFitting deal.now terms.now }
    requires locks { length opened.now ≡ length deal.now.leaders }
    requires few { length opened.now ≤ 8 }
    ensures exact { result ≡ refund_expiry deal.now arc terms.now (λ i. slice_index_or opened.now i false) }
    ensures small { result < 2 ^ 62 }
{
    let mut least = None;
    for lock in 0..opened.len() {
        if !opened[lock] {
            least = Some(lesser(least, lock_expiry(deal, arc, terms, lock as u8)));
        }
    }
    least.unwrap_or(0)
}
