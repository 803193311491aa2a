//! A digraph of a few parties.

ghost use Rattle.std.specs.Prelude.{◌≡◌, ◌==◌, ◌<◌, ◌≤◌, Option, Some, None, length, map, position, IfOk};
ghost use Rattle.std.specs.List.{range_with_len};
ghost use Rattle.swap_base.specs.Fault.{Gives};
ghost use Rattle.swap_digraph.specs.Value.{Graph};
ghost use Rattle.swap_digraph.specs.Graph.{entering, entering_numbers, leaving, leaving_numbers, HasDistinctEnds, HasEnds};
ghost use Rattle.swap_digraph.specs.Arcs.{build_digraph, arc_fault, first_fault, same_ends};

use crate::arc_ends::ArcEnds;
use crate::deal::Version;
use crate::fault::{ArcFault, DigraphFault};
use std::alloc::Global;
use std::marker::Model;
use swap_base::{ArcId, Fault, Listed, NoMemory, PartyId, TryCopy};

/// A digraph: its parties by number, its arcs, and for each party its entering and leaving arcs,
/// ascending.
#[derive(Debug, Drop)]
pub struct Digraph {
    n: u8,
    arcs: Listed<ArcEnds>,
    entering: Listed<Listed<ArcId>>,
    leaving: Listed<Listed<ArcId>>,
}

impl Model for Digraph {
    ghost use Rattle.swap_digraph.specs.Value.{Graph};

    ghost Value = { Graph };

    ghost use Rattle.swap_digraph.specs.Inside.{header_graph, Agrees};

    ghost view = { header_graph };

    ghost invariant = { Agrees };
}

/// The arcs that enter p.
fn entering_arcs(alloc: Global, arcs: &[ArcEnds], p: PartyId) -> Result<Listed<ArcId>, NoMemory>
    requires { length arcs.now ≤ 128 }
    ensures { IfOk result (λ l. l ≡ entering_numbers arcs.now p) }
{
    let mut numbers = Vec::new(alloc);
    for (number, arc) in arcs.iter().enumerate() {
        if arc.to == p {
            numbers.push(number as u8)?;
        }
    }
    Ok(Listed::new(numbers))
}

/// The arcs that leave p.
fn leaving_arcs(alloc: Global, arcs: &[ArcEnds], p: PartyId) -> Result<Listed<ArcId>, NoMemory>
    requires { length arcs.now ≤ 128 }
    ensures { IfOk result (λ l. l ≡ leaving_numbers arcs.now p) }
{
    let mut numbers = Vec::new(alloc);
    for (number, arc) in arcs.iter().enumerate() {
        if arc.from == p {
            numbers.push(number as u8)?;
        }
    }
    Ok(Listed::new(numbers))
}

fn all_entering(alloc: Global, n: u8, arcs: &[ArcEnds]) -> Result<Listed<Listed<ArcId>>, NoMemory>
    requires { length arcs.now ≤ 128 }
    ensures { IfOk result (λ l. l ≡ map (entering_numbers arcs.now) (range_with_len 0 n)) }
{
    let mut lists = Vec::new(alloc);
    for p in 0..n {
        lists.push(entering_arcs(alloc, arcs, p)?)?;
    }
    Ok(Listed::new(lists))
}

fn all_leaving(alloc: Global, n: u8, arcs: &[ArcEnds]) -> Result<Listed<Listed<ArcId>>, NoMemory>
    requires { length arcs.now ≤ 128 }
    ensures { IfOk result (λ l. l ≡ map (leaving_numbers arcs.now) (range_with_len 0 n)) }
{
    let mut lists = Vec::new(alloc);
    for p in 0..n {
        lists.push(leaving_arcs(alloc, arcs, p)?)?;
    }
    Ok(Listed::new(lists))
}

/// The least of the arcs with those ends.
fn find_first_arc(arcs: &[ArcEnds], ends: ArcEnds) -> Option<usize>
    ensures { result ≡ position (same_ends ends) arcs.now }
{
    arcs.iter()
        .position(|arc| ends.from == arc.from && ends.to == arc.to)
}

/// The first fault of the arc at that place.
#[tactic(auto, unfolding(crate::specs::Arcs::arc_fault))]
fn arc_fault(n: u8, version: Version, before: &[ArcEnds], arc: ArcEnds) -> Option<ArcFault>
    requires { length before.now < 128 }
    ensures { result ≡ arc_fault n version before.now (length before.now) arc }
{
    let number = before.len() as u8;
    if arc.from >= n || arc.to >= n {
        return Some(ArcFault::OutOfRange(number));
    }
    if arc.from == arc.to {
        return Some(ArcFault::SelfArc(number));
    }
    match (version, find_first_arc(before, arc)) {
        (Version::One, Some(first)) => Some(ArcFault::Parallel(first as u8, number)),
        _ => None,
    }
}

fn first_fault(n: u8, version: Version, arcs: &[ArcEnds]) -> Option<ArcFault>
    requires { length arcs.now ≤ 128 }
    ensures { result ≡ first_fault n version arcs.now }
{
    for number in 0..arcs.len() {
        let fault = arc_fault(n, version, &arcs[..number], arcs[number]);
        if fault.is_some() {
            return fault;
        }
    }
    None
}

impl Digraph {
    /// The digraph of n parties with these arcs, or the first fault of the least arc that has one.
    /// In version 1 no two arcs have the same ends; in version 2 they may.
    #[tactic(auto, unfolding(crate::specs::Arcs::build_digraph))]
    pub fn new(
        alloc: Global,
        n: u8,
        arcs: Vec<ArcEnds>,
        version: Version,
    ) -> Result<Digraph, DigraphFault>
        requires { length arcs.items ≤ 128 }
        ensures exact { Gives (λ g. g) result (build_digraph n version arcs.items) }
        ensures parts { IfOk result (λ g. (g.n ≡ n) × (g.arcs ≡ arcs.items)) }
        ensures ends { IfOk result (λ g. HasEnds g) }
        ensures distinct { version ≡ Version.One → IfOk result (λ g. HasDistinctEnds g) }
    {
        match first_fault(n, version, &arcs) {
            Some(fault) => return Err(Fault::Refused(fault)),
            None => {}
        }
        let entering = all_entering(alloc, n, &arcs)?;
        let leaving = all_leaving(alloc, n, &arcs)?;
        Ok(Digraph {
            n,
            arcs: Listed::new(arcs),
            entering,
            leaving,
        })
    }

    /// The number of parties.
    pub fn n(&self) -> u8
        ensures { result ≡ self.now.n }
    {
        self.n
    }

    /// The arcs, by number.
    pub fn arcs(&self) -> &[ArcEnds]
        ensures { result.now ≡ self.now.arcs }
    {
        self.arcs.as_slice()
    }

    /// The arcs that enter p, ascending.
    pub fn entering(&self, p: PartyId) -> &[ArcId]
        requires { p < self.now.n }
        ensures { result.now ≡ entering self.now p }
    {
        self.entering.as_slice()[p as usize].as_slice()
    }

    /// The arcs that leave p, ascending.
    pub fn leaving(&self, p: PartyId) -> &[ArcId]
        requires { p < self.now.n }
        ensures { result.now ≡ leaving self.now p }
    {
        self.leaving.as_slice()[p as usize].as_slice()
    }
}

impl TryCopy for Digraph {
    fn copy(&self) -> Result<Digraph, NoMemory> {
        Ok(Digraph {
            n: self.n,
            arcs: self.arcs.copy()?,
            entering: self.entering.copy()?,
            leaving: self.leaving.copy()?,
        })
    }
}
