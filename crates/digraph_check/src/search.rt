//! A search from party 0.

ghost use Rattle.std.specs.Prelude.{◌≡◌, ◌<◌, ◌≤◌, ℕ, Option, true, false, length, map, filter, not, IfOk, IfSome, IfNone};
ghost use Rattle.std.specs.List.{range_with_len};
ghost use Rattle.swap_digraph.specs.Graph.{HasEnds};
ghost use Rattle.digraph_check.specs.Reach.{reaches, reversed_ends};
ghost use Rattle.digraph_check.specs.Tree.{is_entered, IsCrossing, IsSearch, all_entered};

use std::alloc::Global;
use swap_base::{ArcId, Listed, NoMemory, PartyId};
use swap_digraph::{ArcEnds, PathList};

/// Whether v is party 0, or an arc of the tree enters it.
fn is_entered(tree: &[Option<ArcId>], v: PartyId) -> bool
    requires { v < length tree.now }
    ensures { result ≡ is_entered tree.now v }
{
    v == 0 || tree[v as usize].is_some()
}

/// The least arc that leads from a party that the tree enters to one that it doesn't.
fn crossing(arcs: &[ArcEnds], tree: &[Option<ArcId>]) -> Option<usize>
    requires ends { HasEnds (record { n = length tree.now; arcs = arcs.now }) }
    ensures some { IfSome result (λ a. a < length arcs.now × IsCrossing arcs.now tree.now a) }
    ensures none { IfNone result ((a : ℕ) → a < length arcs.now → IsCrossing arcs.now tree.now a → ⊥) }
{
    for (number, arc) in arcs.iter().enumerate() {
        if is_entered(tree, arc.from) && !is_entered(tree, arc.to) {
            return Some(number);
        }
    }
    None
}

/// For each party that party 0 reaches, but itself, the arc that enters it on a walk from party 0.
pub fn tree_from_zero(
    alloc: Global,
    n: u8,
    arcs: &[ArcEnds],
) -> Result<Listed<Option<ArcId>>, NoMemory>
    requires parties { 1 ≤ n }
    requires few { length arcs.now ≤ 128 }
    requires ends { HasEnds (record { n = n; arcs = arcs.now }) }
    ensures { IfOk result (λ t. IsSearch (record { n = n; arcs = arcs.now }) t) }
{
    let mut tree = vec![in alloc; None; n as usize]?;
    while let Some(number) = crossing(arcs, &tree) {
        tree[arcs[number].to as usize] = Some(number as u8);
    }
    Ok(Listed::new(tree))
}

/// Whether the tree enters every party.
pub fn enters_all(tree: &[Option<ArcId>]) -> bool
    requires { length tree.now < 256 }
    ensures { result ≡ all_entered tree.now }
{
    for v in 0..tree.len() {
        if !is_entered(tree, v as u8) {
            return false;
        }
    }
    true
}

/// The parties that the tree enters, ascending.
pub fn entered_parties(alloc: Global, tree: &[Option<ArcId>]) -> Result<PathList, NoMemory>
    requires { length tree.now < 256 }
    ensures { IfOk result (λ l. l ≡ filter (is_entered tree.now) (range_with_len 0 (length tree.now))) }
{
    let mut parties = Vec::new(alloc);
    for v in 0..tree.len() {
        if is_entered(tree, v as u8) {
            parties.push(v as u8)?;
        }
    }
    Ok(Listed::new(parties))
}

/// The parties that the tree doesn't enter, ascending.
pub fn missed_parties(alloc: Global, tree: &[Option<ArcId>]) -> Result<PathList, NoMemory>
    requires { length tree.now < 256 }
    ensures { IfOk result (λ l. l ≡ filter (λ v. not (is_entered tree.now v)) (range_with_len 0 (length tree.now))) }
{
    let mut parties = Vec::new(alloc);
    for v in 0..tree.len() {
        if !is_entered(tree, v as u8) {
            parties.push(v as u8)?;
        }
    }
    Ok(Listed::new(parties))
}

/// Each arc turned round.
pub fn reversed(alloc: Global, arcs: &[ArcEnds]) -> Result<Vec<ArcEnds>, NoMemory>
    ensures { IfOk result (λ turned. turned.items ≡ map reversed_ends arcs.now) }
{
    let mut turned = Vec::new(alloc);
    for arc in arcs {
        turned.push(ArcEnds {
            from: arc.to,
            to: arc.from,
        })?;
    }
    Ok(turned)
}
