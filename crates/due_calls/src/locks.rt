//! What is read of the locks of an arc.

ghost use Rattle.std.specs.Prelude.{◌≡◌, ◌<◌, ◌^◌, ◌&&◌, nat_lt, not, length, map};
ghost use Rattle.swap_digraph.specs.Deal.{leads, IsWellSized};
ghost use Rattle.ledger_core.specs.Book.{history};
ghost use Rattle.ledger_core.specs.History.{is_open};
ghost use Rattle.swap_rules.specs.Party.{expiry, has_expired, is_triggered};
ghost use Rattle.due_calls.specs.DealTerms.{AreDealTerms};

use ledger_core::Facts;
use swap_base::{ArcId, LockId, PartyId};
use swap_digraph::{Deal, Mode, Version};
use time_bounds::{last_expiry, own_expiry};

/// Whether the lock is opened on the arc.
pub fn is_open<F: Facts>(deal: &Deal, known: &[F], arc: ArcId, lock: LockId) -> bool
    requires sized { IsWellSized deal.now }
    requires known { AreDealTerms F.terms deal.now known.now }
    requires lock { lock < length deal.now.leaders }
    ensures { result ≡ is_open (history (map F.entries known.now) arc) lock }
{
    match known.get(arc as usize) {
        Some(fact) => fact.unlocked(lock).is_some(),
        None => false,
    }
}

/// Whether every lock of the arc is opened.
pub fn is_triggered<F: Facts>(deal: &Deal, known: &[F], arc: ArcId) -> bool
    requires sized { IsWellSized deal.now }
    requires known { AreDealTerms F.terms deal.now known.now }
    ensures { result ≡ is_triggered deal.now (map F.entries known.now) arc }
{
    (0..deal.leaders.len() as u8).all(|lock| is_open(deal, known, arc, lock))
}

/// Whether the party leads the lock.
pub fn leads(deal: &Deal, party: PartyId, lock: LockId) -> bool
    requires { party < deal.now.graph.n }
    ensures { result ≡ leads deal.now party lock }
{
    match deal.leaders.as_slice().get(lock as usize) {
        Some(leader) => *leader == party,
        None => false,
    }
}

/// The height above which the lock is expired on the arc, by the correct terms.
pub fn expiry(deal: &Deal, arc: ArcId, lock: LockId) -> u64
    requires sized { IsWellSized deal.now }
    requires arc { arc < length deal.now.graph.arcs }
    ensures exact { result ≡ expiry deal.now arc lock }
    ensures small { result < 2 ^ 62 }
{
    match deal.mode {
        Mode::Timelocks => deal.timelocks.as_slice()[arc as usize] as u64,
        Mode::Hashkeys => {
            let counterparty = deal.graph.arcs()[arc as usize].to;
            if deal.version == Version::Two && leads(deal, counterparty, lock) {
                own_expiry(deal.start, deal.delta, deal.bound)
            } else {
                last_expiry(deal.start, deal.delta, deal.bound)
            }
        }
    }
}

/// Whether the lock isn't opened on the arc, and a height is above its expiry.
fn is_expired<F: Facts>(deal: &Deal, known: &[F], arc: ArcId, at: u32, lock: LockId) -> bool
    requires sized { IsWellSized deal.now }
    requires known { AreDealTerms F.terms deal.now known.now }
    requires arc { arc < length deal.now.graph.arcs }
    requires lock { lock < length deal.now.leaders }
    ensures { result ≡ (not (is_open (history (map F.entries known.now) arc) lock) && nat_lt (expiry deal.now arc lock) at) }
{
    !is_open(deal, known, arc, lock) && expiry(deal, arc, lock) < at as u64
}

/// Whether a height is above the expiry of a lock that isn't opened on the arc.
pub fn has_expired<F: Facts>(deal: &Deal, known: &[F], arc: ArcId, at: u32) -> bool
    requires sized { IsWellSized deal.now }
    requires known { AreDealTerms F.terms deal.now known.now }
    requires arc { arc < length deal.now.graph.arcs }
    ensures { result ≡ has_expired deal.now arc (history (map F.entries known.now) arc) at }
{
    (0..deal.leaders.len() as u8).any(|lock| is_expired(deal, known, arc, at, lock))
}
