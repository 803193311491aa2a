//! A deal's header line of everybody's rows.

ghost use Rattle.std.specs.Prelude.{◌⊎◌, ◌≤◌, ◌<◌, length};
ghost use Rattle.party_main.specs.Words.{short_limit};
ghost use Rattle.party_rows.specs.Keys.{deal_output};
ghost use Rattle.swap_party.specs.Said.{IsDealSaid, IsNothing};

use crate::said::{DONE, NO_MEMORY, Said, TOO_LONG, say, say_nothing, say_reason};
use party_main::{PartyReason, SHORT_LIMIT};
use party_rows::deal;
use std::alloc::Global;
use swap_base::Fault;

/// Answers the header line of the deal that an offer and a row for each of its parties make, as
/// `party deal` does.
#[unsafe(no_mangle)]
pub extern "C" fn swap_party_deal(alloc: Global, text: &[u8], out: &mut [u8]) -> Said
    ensures long { short_limit < length text.now → IsNothing 7 out.old out.new result }
    ensures said { length text.now ≤ short_limit → IsDealSaid (deal_output text.now) out.old out.new result ⊎ IsNothing 6 out.old out.new result }
{
    if SHORT_LIMIT < text.len() {
        return say_nothing(TOO_LONG);
    }
    match deal(alloc, text) {
        Ok(line) => say(DONE, line.as_slice(), out),
        Err(Fault::Refused(reason)) => say_reason(alloc, &PartyReason::Deal(reason), out),
        Err(Fault::NoMemory) => say_nothing(NO_MEMORY),
    }
}
