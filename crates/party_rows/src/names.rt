//! The party of a name.

ghost use Rattle.std.specs.Prelude.{◌≡◌, ◌<◌, ◌≤◌, IfOk, IfSome, length, position};
ghost use Rattle.std.specs.Str.{bytes_eq};
ghost use Rattle.swap_base.specs.Fault.{Gives};
ghost use Rattle.party_rows.specs.Names.{party_named};

use crate::lines::refused;
use command_input::{HeaderFault, Reason};
use std::alloc::Global;
use swap_base::{ByteText, PartyId, find_place};

fn find_party(names: &[ByteText], name: &[u8]) -> Option<PartyId>
    requires { length names.now ≤ 256 }
    ensures exact { result ≡ position (bytes_eq name.now) names.now }
    ensures below { IfSome result (λ p. p < length names.now) }
{
    match find_place(names, name) {
        Some(place) => Some(place as PartyId),
        None => None,
    }
}

/// The party of that name, by its place among these; the line of that number names it, or the
/// parties.
#[tactic(auto, unfolding(crate::specs::Names::party_named))]
pub fn party_named(
    alloc: Global,
    line: u32,
    names: &[ByteText],
    name: &[u8],
) -> Result<PartyId, HeaderFault>
    requires { length names.now ≤ 256 }
    ensures exact { Gives (λ p. p) result (party_named line names.now name.now) }
    ensures party { IfOk result (λ p. p < length names.now) }
{
    match find_party(names, name) {
        Some(party) => Ok(party),
        None => {
            let name = ByteText::from_slice(alloc, name)?;
            Err(refused(alloc, Reason::Unknown(line, name)))
        }
    }
}
