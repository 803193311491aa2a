//! The numbers of a path's names.

ghost use Rattle.std.specs.Prelude.{◌≤◌, length};
ghost use Rattle.swap_base.specs.Fault.{Gives};
ghost use Rattle.offer_moves.specs.Lists.{collected_results};
ghost use Rattle.offer_moves.specs.Names.{party_of_name};

use crate::party_names::party_of_name;
use crate::text::TextRef;
use command_input::OfferFault;
use std::alloc::Global;
use swap_base::{ByteText, Listed};
use swap_digraph::PathList;

/// The numbers of the parties of those names.
#[tactic(auto, using(crate::proofs::Lists::goes_on, crate::proofs::Lists::ends, crate::proofs::Lists::is_done))]
pub fn path_numbers(
    alloc: Global,
    line: u32,
    names: &[ByteText],
    path: &[TextRef<'_>],
) -> Result<PathList, OfferFault>
    requires { length names.now ≤ 256 }
    ensures { Gives (λ l. l) result (collected_results (party_of_name line names.now) path.now) }
{
    let mut numbers = Vec::new(alloc);
    for name in path {
        numbers.push(party_of_name(alloc, line, names, name.as_slice())?)?;
    }
    Ok(Listed::new(numbers))
}
