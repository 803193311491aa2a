//! Whether a party may make a move where it stands.

ghost use Rattle.std.specs.Prelude.{◌≡◌, ◌==◌, ◌||◌, ◌<◌, false, nat_lt, length, slice_index_or, IsTrue};
ghost use Rattle.std.specs.List.{list_all, list_any};
ghost use Rattle.swap_base.specs.Fault.{Gives};
ghost use Rattle.swap_job.specs.Resolved.{move_arc};
ghost use Rattle.offer_moves.specs.Kept.{AreBoundedCrafters};
ghost use Rattle.offer_moves.specs.Placed.{deviating, adjacent, received, crafted_by_others, placed};

use command_input::{OfferFault, Reason};
use swap_base::{ArcId, Fault, PartyId};
use swap_digraph::ArcEnds;
use swap_job::{Move, arc_of_move};

/// A conforming party makes no call by hand.
#[tactic(auto, unfolding(crate::specs::Placed::deviating))]
pub fn check_deviator(line: u32, is_conforming: bool) -> Result<(), OfferFault>
    ensures { Gives (λ u. u) result (deviating line is_conforming) }
{
    if is_conforming {
        return Err(Fault::Refused(Reason::ConformingCall(line)));
    }
    Ok(())
}

/// Lets a party stand on an arc that leaves it or enters it, and refuses any other.
#[tactic(auto, unfolding(crate::specs::Placed::adjacent))]
pub fn check_adjacent(arcs: &[ArcEnds], line: u32, p: PartyId, arc: ArcId) -> Result<(), OfferFault>
    requires arc { arc < length arcs.now }
    ensures { Gives (λ u. u) result (adjacent arcs.now line p arc) }
{
    let ends = arcs[arc as usize];
    if p == ends.from || p == ends.to {
        return Ok(());
    }
    Err(Fault::Refused(Reason::NotAdjacent(line)))
}

fn check_receiver(arcs: &[ArcEnds], line: u32, mv: &Move) -> Result<(), OfferFault>
    requires arc { move_arc mv.now < length arcs.now }
    ensures { Gives (λ u. u) result (received arcs.now line mv.now) }
{
    match mv {
        Move::Transfer { arc, to, .. } => check_adjacent(arcs, line, *to, *arc),
        _ => Ok(()),
    }
}

/// Whether one of the parties conforms.
#[tactic(auto, using(crate::proofs::Crafters::none_yet, crate::proofs::Crafters::one_found, crate::proofs::Crafters::none_at_all))]
fn any_conforms(conforming: &[bool], via: &[PartyId]) -> bool
    requires via { IsTrue (list_all (λ v. nat_lt v (length conforming.now)) via.now) }
    ensures { result ≡ list_any (λ v. slice_index_or conforming.now v false) via.now }
{
    for v in via {
        if conforming[*v as usize] {
            return true;
        }
    }
    false
}

/// No party that crafts a hashkey conforms.
fn check_crafters(line: u32, conforming: &[bool], mv: &Move) -> Result<(), OfferFault>
    requires via { AreBoundedCrafters (length conforming.now) mv.now }
    ensures { Gives (λ u. u) result (crafted_by_others conforming.now line mv.now) }
{
    match mv {
        Move::Craft { via, .. } => check_deviator(line, any_conforms(conforming, via.as_slice())),
        _ => Ok(()),
    }
}

/// A party may make a move where it stands, or the first reason against it.
#[tactic(auto, unfolding(crate::specs::Placed::placed))]
pub fn check_place(
    arcs: &[ArcEnds],
    conforming: &[bool],
    line: u32,
    p: PartyId,
    mv: &Move,
) -> Result<(), OfferFault>
    requires arc { move_arc mv.now < length arcs.now }
    requires conforming { AreBoundedCrafters (length conforming.now) mv.now }
    ensures { Gives (λ u. u) result (placed arcs.now conforming.now line p mv.now) }
{
    check_adjacent(arcs, line, p, arc_of_move(mv))?;
    check_crafters(line, conforming, mv)?;
    check_receiver(arcs, line, mv)
}
