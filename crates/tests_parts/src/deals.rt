//! The deal of the tables.

ghost use Rattle.std.specs.Prelude.{◌≡◌, ◌∷◌, [], IfOk, length};
ghost use Rattle.swap_digraph.specs.Graph.{HasEnds};
ghost use Rattle.swap_digraph.specs.Deal.{IsWellSized};

use hex::FromHex;
use std::alloc::Global;
use std::test::Fail;
use swap_base::{Digest, Listed, PartyId};
use swap_digraph::{ArcEnds, Deal, Digraph, Mode, Version};

/// The hash of 32 bytes 0.
const FIRST: &str = "66687aadf862bd776c8fc18b8e9f8e20089714856ee233b3902a591d0d5f2925";

/// The hash of 32 bytes 1.
const SECOND: &str = "72cd6e8422c407fb6d098690f1130b7ded7ec2f7f5e1d30bd9d521f015363793";

fn digest(text: &str) -> Result<Digest, Fail> {
    Ok(<Digest as FromHex>::from_hex(text)?)
}

fn hashlocks(alloc: Global) -> Result<Listed<Digest>, Fail>
    ensures { IfOk result (λ l. length l ≡ 2) }
{
    let (first, second) = (digest(FIRST)?, digest(SECOND)?);
    Ok(Listed::new(Vec::from_slice(alloc, &[first, second])?))
}

/// Two parties with an arc each to the other.
fn pair(alloc: Global) -> Result<Digraph, Fail>
    ensures { IfOk result (λ g. HasEnds g × (g.n ≡ 2) × (length g.arcs ≡ 2)) }
{
    let arcs = [ArcEnds { from: 0, to: 1 }, ArcEnds { from: 1, to: 0 }];
    let arcs = Vec::from_slice(alloc, &arcs)?;
    let graph = Digraph::new(alloc, 2, arcs, Version::One)?;
    if graph.n() != 2 || graph.arcs().len() != 2 {
        return Err("no pair".into());
    }
    Ok(graph)
}

/// Two locks that party a leads.
fn locks(alloc: Global) -> Result<(Listed<PartyId>, Listed<Digest>), Fail>
    ensures leaders { IfOk result (λ l. l.0 ≡ 0 ∷ 0 ∷ []) }
    ensures hashlocks { IfOk result (λ l. length l.1 ≡ 2) }
{
    let leaders = Listed::new(Vec::from_slice(alloc, &[0, 0])?);
    Ok((leaders, hashlocks(alloc)?))
}

/// What the two arcs pay, and until when.
fn payments(alloc: Global) -> Result<(Listed<u64>, Listed<u32>), Fail>
    ensures amounts { IfOk result (λ l. l.0 ≡ 100 ∷ 5 ∷ []) }
    ensures timelocks { IfOk result (λ l. l.1 ≡ 50 ∷ 40 ∷ []) }
{
    let amounts = Listed::new(Vec::from_slice(alloc, &[100, 5])?);
    let timelocks = Listed::new(Vec::from_slice(alloc, &[50, 40])?);
    Ok((amounts, timelocks))
}

/// Party a, whose number is 0, and party b pay each other 100 and 5 units, until the heights 50 and
/// 40. Party a leads two locks, whose secrets are 32 bytes 0 and 32 bytes 1.
pub fn small_deal(alloc: Global) -> Result<Deal, Fail>
    ensures sized { IfOk result (λ d. IsWellSized d) }
    ensures arcs { IfOk result (λ d. length d.graph.arcs ≡ 2) }
    ensures parties { IfOk result (λ d. d.graph.n ≡ 2) }
{
    let (leaders, hashlocks) = locks(alloc)?;
    let (amounts, timelocks) = payments(alloc)?;
    let graph = pair(alloc)?;
    Ok(Deal {
        version: Version::One,
        graph,
        leaders,
        start: 10,
        delta: 10,
        bound: 2,
        mode: Mode::Timelocks,
        amounts,
        hashlocks,
        keys: Listed::empty(alloc),
        timelocks,
        id: [0; 32],
    })
}
