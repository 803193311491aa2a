//! The arcs that a number gives.

ghost use Rattle.std.specs.Prelude.{◌≡◌, ◌≤◌, ◌<◌, ◌+◌, ◌*◌, ◌%◌, IfOk, OnOk, map};
ghost use Rattle.std.specs.List.{list_any, range_with_len};
ghost use Rattle.swap_digraph.specs.Arcs.{same_ends};
ghost use Rattle.swap_gen.specs.Word.{next, word};
ghost use Rattle.swap_gen.specs.Drawn.{drawn_amount, drawn_arcs, is_added, leader_count, ring, with_arc};

use crate::draws::Draws;
use std::alloc::Global;
use swap_base::{Listed, NoMemory};
use swap_digraph::ArcEnds;

/// How many parties lead.
#[tactic(auto, unfolding(crate::specs::Drawn::leader_count))]
pub(crate) fn leader_count(draws: &mut Draws, parties: u8) -> u8
    requires parties { 2 ≤ parties }
    requires place { draws.old.place ≡ 0 }
    ensures count { result ≡ leader_count draws.old.seed parties }
    ensures draws { draws.new ≡ record draws.old { place = 1 } }
{
    1 + draws.draw_bounded(3.min(parties - 1))
}

fn ring(alloc: Global, parties: u8) -> Result<Vec<ArcEnds>, NoMemory>
    requires low { 0 < parties }
    requires high { parties ≤ 24 }
    ensures { IfOk result (λ v. v.items ≡ ring parties) }
{
    let mut arcs = Vec::new(alloc);
    for from in 0..parties {
        let to = (from + 1) % parties;
        arcs.push(ArcEnds { from, to })?;
    }
    Ok(arcs)
}

fn has_same_ends(arcs: &[ArcEnds], arc: ArcEnds) -> bool
    ensures { result ≡ list_any (same_ends arc) arcs.now }
{
    arcs.iter()
        .any(|other| arc.from == other.from && arc.to == other.to)
}

fn is_added(leaders: u8, arcs: &[ArcEnds], arc: ArcEnds) -> bool
    ensures { result ≡ is_added leaders arcs.now arc }
{
    arc.from != arc.to
        && !has_same_ends(arcs, arc)
        && (arc.from < leaders || arc.to < leaders || arc.from < arc.to)
}

/// Adds the arc, if it may be added.
#[tactic(auto, unfolding(crate::specs::Drawn::with_arc))]
fn add(arcs: &mut Vec<ArcEnds>, leaders: u8, arc: ArcEnds) -> Result<(), NoMemory>
    ensures { OnOk result (arcs.new.items ≡ with_arc leaders arcs.old.items arc) }
{
    if is_added(leaders, arcs, arc) {
        arcs.push(arc)?;
    }
    Ok(())
}

fn drawn_ends(draws: &mut Draws, parties: u8) -> ArcEnds
    requires { 0 < parties }
    ensures from { result.from ≡ word draws.old.seed draws.old.place % parties }
    ensures to { result.to ≡ word draws.old.seed (next draws.old.place) % parties }
    ensures draws { draws.new ≡ record draws.old { place = next (next draws.old.place) } }
{
    let from = draws.draw_bounded(parties);
    let to = draws.draw_bounded(parties);
    ArcEnds { from, to }
}

/// The ring's arcs, and those of the ends that are drawn.
#[tactic(auto, unfolding(crate::specs::Drawn::drawn_arcs))]
pub(crate) fn drawn_arcs(
    alloc: Global,
    draws: &mut Draws,
    parties: u8,
    leaders: u8,
) -> Result<Vec<ArcEnds>, NoMemory>
    requires low { 2 ≤ parties }
    requires high { parties ≤ 24 }
    requires leaders { leaders ≡ leader_count draws.old.seed parties }
    requires place { draws.old.place ≡ 1 }
    ensures arcs { IfOk result (λ v. v.items ≡ drawn_arcs draws.old.seed parties) }
    ensures draws { OnOk result (draws.new ≡ record draws.old { place = 1 + 2 * parties }) }
{
    let mut arcs = ring(alloc, parties)?;
    for _k in 0..parties {
        let ends = drawn_ends(draws, parties);
        add(&mut arcs, leaders, ends)?;
    }
    Ok(arcs)
}

/// The units of `count` arcs, drawn one after another. The words for the arcs' ends were drawn
/// before.
pub(crate) fn drawn_amounts(
    alloc: Global,
    draws: &mut Draws,
    parties: u8,
    count: usize,
) -> Result<Listed<u64>, NoMemory>
    requires high { parties ≤ 24 }
    requires few { count ≤ 96 }
    requires place { draws.old.place ≡ 1 + 2 * parties }
    ensures amounts { IfOk result (λ l. l ≡ map (drawn_amount draws.old.seed parties) (range_with_len 0 count)) }
    ensures draws { OnOk result (draws.new ≡ record draws.old { place = 1 + 2 * parties + count }) }
{
    let mut amounts = Vec::new(alloc);
    for _a in 0..count {
        amounts.push(1 + (draws.draw() % 1000) as u64)?;
    }
    Ok(Listed::new(amounts))
}
