//! What is told of digraphs and their leaders: a closed set, trees, levels, a cycle of followers,
//! distances.

ghost use Rattle.std.specs.Prelude.{◌≡◌, ◌≤◌, ◌<◌, true, length};
ghost use Rattle.swap_digraph.specs.Graph.{HasEnds, IsStronglyConnected};

use crate::tests::rows::{answers, no_memory, parted, word_number};
use digraph_check::{Strength, Trees, strong};
use leader_check::{LeaderAnswer, Levels, dist, levels};
use std::alloc::{AllocError, Global};
use std::test::Fail;
use swap_base::{Listed, NoMemory};
use swap_digraph::Digraph;

fn trees_told(alloc: Global, trees: &Trees) -> Result<String, AllocError> {
    let (from, to) = (trees.from_zero.as_slice(), trees.to_zero.as_slice());
    format!(in alloc; "from zero {from:?} to zero {to:?}")
}

/// The closed set, or the two trees.
fn strength(alloc: Global, graph: &Digraph) -> Result<String, AllocError>
    requires parties { (2 ≤ graph.now.n) × (graph.now.n ≤ 32) }
    requires few { length graph.now.arcs ≤ 128 }
    requires ends { HasEnds graph.now }
{
    match strong(alloc, graph) {
        Ok(Strength::Closed(set)) => format!(in alloc; "closed {:?}", set.as_slice()),
        Ok(Strength::Strong(trees)) => trees_told(alloc, &trees),
        Err(_) => no_memory(alloc),
    }
}

/// Whether it is strongly connected.
fn is_strong(alloc: Global, graph: &Digraph) -> bool
    requires parties { (2 ≤ graph.now.n) × (graph.now.n ≤ 32) }
    requires few { length graph.now.arcs ≤ 128 }
    requires ends { HasEnds graph.now }
    ensures { result ≡ true → IsStronglyConnected graph.now }
{
    match strong(alloc, graph) {
        Ok(Strength::Strong(_)) => true,
        Ok(Strength::Closed(_)) => false,
        Err(_) => false,
    }
}

fn level_told(alloc: Global, levels: &Levels) -> Result<String, AllocError> {
    format!(in alloc; "{:?} most {}", levels.level.as_slice(), levels.h)
}

/// The levels and their greatest, or the cycle.
fn levels_told(alloc: Global, graph: &Digraph, leaders: &[u8]) -> Result<String, AllocError>
    requires parties { graph.now.n ≤ 32 }
    requires ends { HasEnds graph.now }
{
    match levels(alloc, graph, leaders) {
        Ok(LeaderAnswer::Cycle(cycle)) => format!(in alloc; "cycle {:?}", cycle.as_slice()),
        Ok(LeaderAnswer::Levels(levels)) => level_told(alloc, &levels),
        Err(_) => no_memory(alloc),
    }
}

fn row_told(alloc: Global, row: Result<Listed<u32>, NoMemory>) -> Result<String, AllocError> {
    match row {
        Ok(row) => format!(in alloc; "{:?}", row.as_slice()),
        Err(_) => no_memory(alloc),
    }
}

/// The distances from the leader of a strongly connected digraph, where it breaks every cycle.
fn distances(alloc: Global, graph: &Digraph, leader: u8) -> Result<String, AllocError>
    requires parties { graph.now.n ≤ 32 }
    requires ends { HasEnds graph.now }
    requires strong { IsStronglyConnected graph.now }
    requires leader { leader < graph.now.n }
{
    match levels(alloc, graph, &[leader]) {
        Ok(LeaderAnswer::Levels(levels)) => row_told(alloc, dist(alloc, graph, leader, &levels)),
        Ok(LeaderAnswer::Cycle(_)) => String::from_str(alloc, "a cycle"),
        Err(_) => no_memory(alloc),
    }
}

/// The numbers of a text.
fn numbers(alloc: Global, text: &str) -> Result<Vec<u8>, NoMemory> {
    let mut numbers = Vec::new(alloc);
    for word in text.split(" ") {
        numbers.push(word_number(word))?;
    }
    Ok(numbers)
}

/// The answer to a question that names leaders.
fn build_told(
    alloc: Global,
    word: &str,
    leaders: &[u8],
    graph: &Digraph,
) -> Result<String, AllocError>
    requires parties { (2 ≤ graph.now.n) × (graph.now.n ≤ 32) }
    requires few { length graph.now.arcs ≤ 128 }
    requires ends { HasEnds graph.now }
{
    if word == "levels" {
        return levels_told(alloc, graph, leaders);
    }
    let leader = leaders.first().copied().unwrap_or(255);
    if leader < graph.n() && is_strong(alloc, graph) {
        distances(alloc, graph, leader)
    } else {
        String::from_str(alloc, "no leader of a strong digraph")
    }
}

fn strong_told(alloc: Global, is_strong: bool) -> Result<String, AllocError> {
    format!(in alloc; "{is_strong}")
}

/// The answer to a question that names leaders in words.
fn led_told(alloc: Global, word: &str, leaders: &str, graph: &Digraph) -> Result<String, AllocError>
    requires parties { (2 ≤ graph.now.n) × (graph.now.n ≤ 32) }
    requires few { length graph.now.arcs ≤ 128 }
    requires ends { HasEnds graph.now }
{
    match numbers(alloc, leaders) {
        Ok(leaders) => build_told(alloc, word, &leaders, graph),
        Err(_) => no_memory(alloc),
    }
}

/// The answer to a question about a digraph that may name leaders.
pub(crate) fn told(alloc: Global, question: &str, graph: &Digraph) -> Result<String, AllocError>
    requires parties { (2 ≤ graph.now.n) × (graph.now.n ≤ 32) }
    requires few { length graph.now.arcs ≤ 128 }
    requires ends { HasEnds graph.now }
{
    let (word, leaders) = parted(question, " of ");
    match word {
        "strong" => strong_told(alloc, is_strong(alloc, graph)),
        "strength" => strength(alloc, graph),
        _ => led_told(alloc, word, leaders, graph),
    }
}

/// Each row is a question, arcs, and the answer, which was worked out by hand.
const STRENGTHS: &str = "\
strength: 0>1 1>2 2>1 => closed [1, 2]
strength: 0>1 1>0 2>0 => closed [0, 1]
strength: 1>0 => closed [0]
strength: 0>1 1>0 2>3 3>2 => closed [0, 1]
strength: a triangle => from zero [None, Some(0), Some(1)] to zero [None, Some(1), Some(2)]
strong: a pair => true
strong: a triangle => true
strong: all of four => true
strong: a ring => true
strong: a dense ring => true";

const LEVELS: &str = "\
levels of 0: all of three => cycle [1, 2]
levels of 0 1: all of three => [0, 0, 1] most 1
levels of 0: 0>1 1>0 0>2 2>0 0>3 3>0 0>4 4>0 0>5 5>0 => [0, 1, 1, 1, 1, 1] most 1
levels of 1: 0>1 1>0 0>2 2>0 0>3 3>0 0>4 4>0 0>5 5>0 => cycle [0, 2]
levels of 0: a ring => [0, 1, 2, 3, 4, 5, 6, 7, 8, 9, 10, 11, 12, 13, 14, 15, 16, 17, 18, 19, 20, 21, 22, 23] most 23
levels of 0 1 3: a dense ring => cycle [2, 6, 10, 14, 18, 22]
levels of 0 1 2 3: a dense ring => [0, 0, 0, 0, 1, 2, 3, 4, 5, 6, 7, 8, 9, 10, 11, 12, 13, 14, 15, 16, 17, 18, 19, 20] most 20
levels of 0: a ring with chords => [0, 1, 2, 3, 4, 5, 6, 7, 8, 9, 10, 11, 12, 13, 14, 15, 16, 17, 18, 19, 20, 21, 22, 23] most 23
levels of 12: a ring with chords => cycle [0, 9, 13, 16, 20]
levels of 1 2: a ring with chords => cycle [0, 8, 12, 16, 20]";

const DISTANCES: &str = "\
distances of 0: 0>1 1>2 2>0 1>0 0>2 => [0, 2, 1]
distances of 3: 3>0 0>3 3>1 1>3 3>2 2>3 => [1, 1, 1, 0]
distances of 0: a ring with chords => [0, 23, 22, 21, 20, 19, 18, 17, 16, 15, 14, 13, 12, 11, 10, 9, 8, 7, 6, 5, 4, 3, 2, 1]";

#[test]
fn answers_by_hand(rt: HostRuntime) -> Result<(), Fail> {
    answers(rt.alloc(), "digraphs", STRENGTHS)?;
    answers(rt.alloc(), "digraphs", LEVELS)?;
    answers(rt.alloc(), "digraphs", DISTANCES)
}
