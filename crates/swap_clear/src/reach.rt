//! Which party reaches which, by rounds over the arcs.

ghost use Rattle.std.specs.Prelude.{◌≡◌, ◌==◌, ◌||◌, ◌<◌, ◌≤◌, ℕ, length, IfOk};
ghost use Rattle.std.specs.Int.{bit_at};
ghost use Rattle.swap_digraph.specs.Graph.{HasEnds};
ghost use Rattle.digraph_check.specs.Reach.{reaches};
ghost use Rattle.leader_check.specs.Cycles.{has_bit, enters_led};
ghost use Rattle.swap_clear.specs.Rows.{TellsReach};

use leader_check::leads_each;
use std::alloc::Global;
use swap_base::{NoMemory, PartyId};
use swap_digraph::Digraph;

/// Whether u reaches v, by rows that tell.
pub fn reaches(rows: &[u32], u: PartyId, v: PartyId) -> bool
    requires u { u < length rows.now }
    requires v { v < 32 }
    ensures { result ≡ has_bit rows.now v u }
{
    rows[u as usize] >> v & 1 == 1
}

/// The bit of v.
fn party_bit(v: PartyId) -> u32
    requires { v < 32 }
    ensures { (w : ℕ) → (bit_at result w == 1) ≡ (v == w) }
{
    1 << v
}

/// The bits, and that of v.
fn with_party_bit(v: PartyId, bits: u32) -> u32
    requires { v < 32 }
    ensures { (w : ℕ) → (bit_at result w == 1) ≡ ((v == w) || (bit_at bits w == 1)) }
{
    party_bit(v) | bits
}

/// For each party its own bit.
fn first_reach(alloc: Global, n: u8) -> Result<Vec<u32>, NoMemory>
    requires { n ≤ 32 }
    ensures parties { IfOk result (λ l. length l.items ≡ n) }
    ensures own { IfOk result (λ l. (v u : ℕ) → u < n → has_bit l.items v u ≡ (u == v)) }
{
    let mut row = Vec::new(alloc);
    for v in 0..n {
        row.push(party_bit(v))?;
    }
    Ok(row)
}

/// For each party its own bit, and what the bits in the row of the parties to which it has arcs
/// hold.
fn next_reach(alloc: Global, graph: &Digraph, row: &[u32]) -> Result<Vec<u32>, NoMemory>
    requires parties { graph.now.n ≤ 32 }
    requires ends { HasEnds graph.now }
    requires row { length row.now ≡ graph.now.n }
    ensures parties { IfOk result (λ l. length l.items ≡ graph.now.n) }
    ensures leads { IfOk result (λ l. (v u : ℕ) → u < graph.now.n
        → has_bit l.items v u ≡ ((u == v) || enters_led graph.now (has_bit row.now v) u)) }
{
    let leads = leads_each(alloc, graph, row)?;
    let mut next = Vec::new(alloc);
    for u in 0..graph.n() {
        next.push(with_party_bit(u, leads[u as usize]))?;
    }
    Ok(next)
}

/// By party, the parties that it reaches, as bits.
pub fn reach_rows(alloc: Global, graph: &Digraph) -> Result<Vec<u32>, NoMemory>
    requires parties { graph.now.n ≤ 32 }
    requires ends { HasEnds graph.now }
    ensures { IfOk result (λ l. TellsReach graph.now l.items) }
{
    let n = graph.n();
    let mut row = first_reach(alloc, n)?;
    for _round in 0..n {
        row = next_reach(alloc, graph, &row)?;
    }
    Ok(row)
}
