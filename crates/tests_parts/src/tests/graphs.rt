//! The digraphs of the tables.

ghost use Rattle.std.specs.Prelude.{◌≤◌, IfSome, length};
ghost use Rattle.swap_digraph.specs.Graph.{HasEnds};

use crate::tests::rows::{parted, word_number};
use std::alloc::Global;
use swap_base::{NoMemory, TryCopy};
use swap_digraph::{ArcEnds, Digraph, Version};

/// From each of n parties the arcs to the next few.
fn onward(alloc: Global, n: u8, few: u8) -> Result<Vec<ArcEnds>, NoMemory>
    requires parties { n ≤ 24 }
    requires few { few ≤ 8 }
{
    let mut arcs = Vec::new(alloc);
    for from in 0..n {
        for step in 0..few {
            let to = (from + step + 1) % n;
            arcs.push(ArcEnds { from, to })?;
        }
    }
    Ok(arcs)
}

/// A ring of 24 parties with 96 arcs. Its chords span up to four places and don't jump over party
/// 0; longer ones leave party 0.
fn chorded(alloc: Global) -> Result<Vec<ArcEnds>, NoMemory> {
    let mut arcs = Vec::new(alloc);
    for from in 0..24u8 {
        for step in 1..11u8 {
            if from == 0 || (step < 5 && from + step <= 24) {
                let to = (from + step) % 24;
                arcs.push(ArcEnds { from, to })?;
            }
        }
    }
    Ok(arcs)
}

/// The arc of a word, such as `0>1`. A word that is none stands for party 255, which no digraph
/// has.
fn parse_arc(word: &str) -> ArcEnds {
    let (from, to) = parted(word, ">");
    ArcEnds {
        from: word_number(from),
        to: word_number(to),
    }
}

/// The arcs of a text, such as `0>1 1>0`.
fn listed(alloc: Global, text: &str) -> Result<Vec<ArcEnds>, NoMemory> {
    let mut arcs = Vec::new(alloc);
    for word in text.split(" ") {
        arcs.push(parse_arc(word))?;
    }
    Ok(arcs)
}

/// The arcs that a text stands for.
fn listed_arcs(alloc: Global, text: &str) -> Result<Vec<ArcEnds>, NoMemory> {
    match text {
        "a pair" => onward(alloc, 2, 1),
        "a triangle" => onward(alloc, 3, 1),
        "all of three" => onward(alloc, 3, 2),
        "all of four" => onward(alloc, 4, 3),
        "a ring" => onward(alloc, 24, 1),
        "a dense ring" => onward(alloc, 24, 4),
        "a ring with chords" => chorded(alloc),
        _ => listed(alloc, text),
    }
}

/// The least number of parties that the arcs name.
fn count_parties(arcs: &[ArcEnds]) -> u8 {
    let mut n: u8 = 0;
    for arc in arcs {
        n = n.max(arc.from.max(arc.to).saturating_add(1));
    }
    n
}

/// The digraph with these arcs, if there is one.
fn build_digraph(alloc: Global, arcs: Vec<ArcEnds>) -> Option<Digraph>
    ensures parties { IfSome result (λ g. (2 ≤ g.n) × (g.n ≤ 32)) }
    ensures few { IfSome result (λ g. length g.arcs ≤ 128) }
    ensures ends { IfSome result (λ g. HasEnds g) }
{
    let n = count_parties(&arcs);
    if n < 2 || n > 32 || arcs.len() > 128 {
        return None;
    }
    Digraph::new(alloc, n, arcs, Version::One).ok()
}

/// A copy of the digraph with the arcs that a text stands for, if there is one.
pub(crate) fn build_graph(alloc: Global, text: &str) -> Option<Digraph>
    ensures parties { IfSome result (λ g. (2 ≤ g.n) × (g.n ≤ 32)) }
    ensures few { IfSome result (λ g. length g.arcs ≤ 128) }
    ensures ends { IfSome result (λ g. HasEnds g) }
{
    let arcs = listed_arcs(alloc, text).ok()?;
    let graph = build_digraph(alloc, arcs)?;
    graph.copy().ok()
}
