//! The times of a deal, in heights of one ledger, and the bound on the paths that end in a leader.
//!
//! Read `specs/Times.antt` first.
#![tactic(auto)]

ghost use Rattle.std.specs.Prelude.{◌≡◌, ◌≤◌, ◌*◌, ◌+◌};
ghost use Rattle.time_bounds.specs.Times.{need, opening_deadline, deadline, last_expiry, own_expiry, horizon, timelock};

/// A bound on the arcs of a path that ends in a leader. There are n parties, this many of them
/// lead, and h is the most vertices on a path of followers alone.
pub fn need(n: u8, leaders: u8, h: u8) -> u32
    requires parties { 1 ≤ n }
    requires leaders { 1 ≤ leaders }
    ensures { result ≡ need n leaders h }
{
    let by_parties = n as u32 - 1;
    let by_leaders = leaders as u32 * (h as u32 + 1) - 1;
    by_parties.min(by_leaders)
}

/// The height at and up to which a contract has to be published.
pub fn opening_deadline(start: u32, delta: u32, bound: u32) -> u64
    requires start { start ≤ 1000000 }
    requires delta { delta ≤ 1000000 }
    requires bound { bound ≤ 1000000 }
    ensures { result ≡ opening_deadline start delta bound }
{
    start as u64 + bound as u64 * delta as u64
}

/// The last height at which a hashkey with a path of k arcs is accepted.
pub fn deadline(start: u32, delta: u32, bound: u32, k: u32) -> u64
    requires start { start ≤ 1000000 }
    requires delta { delta ≤ 1000000 }
    requires bound { bound ≤ 1000000 }
    requires k { k ≤ 1000000 }
    ensures { result ≡ deadline start delta bound k }
{
    start as u64 + (bound as u64 + 1 + k as u64) * delta as u64
}

/// The height above which an arc is refunded in hashkeys mode.
pub fn last_expiry(start: u32, delta: u32, bound: u32) -> u64
    requires start { start ≤ 1000000 }
    requires delta { delta ≤ 1000000 }
    requires bound { bound ≤ 1000000 }
    ensures { result ≡ last_expiry start delta bound }
{
    start as u64 + (2 * bound as u64 + 1) * delta as u64
}

/// The height above which a lock expires, in version 2, on an arc that enters its own leader.
pub fn own_expiry(start: u32, delta: u32, bound: u32) -> u64
    requires start { start ≤ 1000000 }
    requires delta { delta ≤ 1000000 }
    requires bound { bound ≤ 1000000 }
    ensures { result ≡ own_expiry start delta bound }
{
    start as u64 + (bound as u64 + 1) * delta as u64
}

/// The height above which a ledger has ended.
pub fn horizon(start: u32, delta: u32, bound: u32) -> u64
    requires start { start ≤ 1000000 }
    requires delta { delta ≤ 1000000 }
    requires bound { bound ≤ 1000000 }
    ensures { result ≡ horizon start delta bound }
{
    start as u64 + (2 * bound as u64 + 2) * delta as u64
}

/// The timelock of an arc in timelocks mode, by its counterparty's distance from the leader.
pub fn timelock(start: u32, delta: u32, bound: u32, dist: u32) -> u64
    requires start { start ≤ 1000000 }
    requires delta { delta ≤ 1000000 }
    requires bound { bound ≤ 1000000 }
    requires dist { dist ≤ 1000000 }
    ensures { result ≡ timelock start delta bound dist }
{
    start as u64 + (bound as u64 + 1 + dist as u64) * delta as u64
}
