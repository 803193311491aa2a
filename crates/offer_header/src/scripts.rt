//! Where the moves of a header's scripts stand.

ghost use Rattle.std.specs.Prelude.{◌≤◌, length, All};
ghost use Rattle.swap_base.specs.Fault.{Gives, steps};
ghost use Rattle.swap_job.specs.Roles.{role_script};
ghost use Rattle.offer_moves.specs.Kept.{CanStand};
ghost use Rattle.offer_moves.specs.Placed.{placed};
ghost use Rattle.offer_header.specs.Scripts.{role_placed, roles_placed, scripts_placed, AllStand};

use crate::header::Header;
use command_input::OfferFault;
use offer_moves::check_place;
use swap_base::PartyId;
use swap_digraph::ArcEnds;
use swap_job::{Move, Role};

/// A party may make each of the moves where it stands.
#[tactic(auto, using(swap_base::proofs::Steps::steps_on, swap_base::proofs::Steps::steps_fail, swap_base::proofs::Steps::steps_done))]
fn check_moves(
    arcs: &[ArcEnds],
    conforming: &[bool],
    line: u32,
    p: PartyId,
    moves: &[Move],
) -> Result<(), OfferFault>
    requires stand { All (CanStand (length arcs.now) (length conforming.now)) moves.now }
    ensures { Gives (λ u. u) result (steps (λ u mv. placed arcs.now conforming.now line p mv) tt moves.now) }
{
    for mv in moves {
        check_place(arcs, conforming, line, p, mv)?;
    }
    Ok(())
}

fn check_role(
    arcs: &[ArcEnds],
    conforming: &[bool],
    line: u32,
    p: PartyId,
    role: &Role,
) -> Result<(), OfferFault>
    requires stand { All (CanStand (length arcs.now) (length conforming.now)) (role_script role.now) }
    ensures { Gives (λ u. u) result (role_placed arcs.now conforming.now line p role.now) }
{
    match role {
        Role::Script(moves) => check_moves(arcs, conforming, line, p, moves.as_slice()),
        _ => Ok(()),
    }
}

/// The parties may make the moves of their scripts where they stand.
#[tactic(auto, using(crate::proofs::Standing::placed_on, crate::proofs::Standing::placed_fails, crate::proofs::Standing::placed_done))]
fn check_roles(
    arcs: &[ArcEnds],
    conforming: &[bool],
    line: u32,
    roles: &[Role],
) -> Result<(), OfferFault>
    requires few { length roles.now ≤ 256 }
    requires stand { All (λ r. All (CanStand (length arcs.now) (length conforming.now)) (role_script r)) roles.now }
    ensures { Gives (λ u. u) result (roles_placed arcs.now conforming.now line 0 roles.now) }
{
    for (p, role) in roles.iter().enumerate() {
        check_role(arcs, conforming, line, p as PartyId, role)?;
    }
    Ok(())
}

/// The moves of the header's scripts stand where their parties may make them.
#[tactic(auto, unfolding(crate::specs::Scripts::scripts_placed))]
pub(crate) fn check_scripts(line: u32, header: &Header) -> Result<(), OfferFault>
    requires few { length header.now.roles ≤ 256 }
    requires stand { AllStand header.now }
    ensures { Gives (λ u. u) result (scripts_placed line header.now) }
{
    let (arcs, conforming) = (header.arcs.as_slice(), header.conforming.as_slice());
    check_roles(arcs, conforming, line, header.roles.as_slice())
}
