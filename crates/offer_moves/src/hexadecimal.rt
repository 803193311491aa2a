//! Digests in hexadecimal.

ghost use Rattle.swap_base.specs.Fault.{Gives};
ghost use Rattle.offer_moves.specs.FieldLimits.{to_digest};

use command_input::{OfferFault, wrong_hex};
use hex::FromHex;
use std::alloc::Global;
use swap_base::Digest;

/// The digest that a text of 64 hexadecimal digits is.
#[tactic(auto, unfolding(crate::specs::FieldLimits::to_digest))]
pub fn parse_digest(
    alloc: Global,
    line: u32,
    field: &str,
    text: &[u8],
) -> Result<Digest, OfferFault>
    ensures { Gives (λ d. d) result (to_digest line field.now text.now) }
{
    match <[u8; 32] as FromHex>::from_hex(text) {
        Ok(digest) => Ok(digest),
        Err(_) => Err(wrong_hex(alloc, line, field.as_bytes())),
    }
}
