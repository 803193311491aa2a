//! Names by their numbers.

ghost use Rattle.std.specs.Prelude.{◌≡◌, ◌<◌, ◌≤◌, length, IfOk};
ghost use Rattle.swap_base.specs.Fault.{Gives};
ghost use Rattle.offer_moves.specs.Names.{party_of_name};

use command_input::{OfferFault, unknown};
use std::alloc::Global;
use swap_base::{ByteText, PartyId, find_place};

/// The number of the party of that name: its place among the names.
#[tactic(auto, unfolding(crate::specs::Names::party_of_name))]
pub fn party_of_name(
    alloc: Global,
    line: u32,
    names: &[ByteText],
    name: &[u8],
) -> Result<PartyId, OfferFault>
    requires { length names.now ≤ 256 }
    ensures exact { Gives (λ p. p) result (party_of_name line names.now name.now) }
    ensures below { IfOk result (λ p. p < length names.now) }
{
    match find_place(names, name) {
        Some(place) => Ok(place as PartyId),
        None => Err(unknown(alloc, line, name)),
    }
}
