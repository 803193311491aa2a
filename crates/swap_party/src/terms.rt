//! What a party agrees to.

ghost use Rattle.std.specs.Prelude.{◌⊎◌, ◌≤◌, ◌<◌, length};
ghost use Rattle.party_main.specs.Words.{short_limit};
ghost use Rattle.party_terms.specs.Terms.{terms_output};
ghost use Rattle.swap_party.specs.Said.{IsNothing, IsTextSaid};

use crate::said::{DONE, NO_MEMORY, Said, TOO_LONG, say, say_nothing, say_reason};
use party_main::{PartyReason, SHORT_LIMIT};
use party_terms::terms;
use std::alloc::Global;
use swap_base::Fault;

/// Answers the terms of the party of that name, as `party terms` does, by a deal's header line and
/// its lines of context.
#[unsafe(no_mangle)]
pub extern "C" fn swap_party_terms(alloc: Global, text: &[u8], name: &[u8], out: &mut [u8]) -> Said
    ensures long { short_limit < length text.now → IsNothing 7 out.old out.new result }
    ensures said { length text.now ≤ short_limit → IsTextSaid (terms_output name.now text.now) out.old out.new result
        ⊎ IsNothing 6 out.old out.new result }
{
    if SHORT_LIMIT < text.len() {
        return say_nothing(TOO_LONG);
    }
    match terms(alloc, name, text) {
        Ok(lines) => say(DONE, lines.as_slice(), out),
        Err(Fault::Refused(refusal)) => say_reason(alloc, &PartyReason::Header(refusal), out),
        Err(Fault::NoMemory) => say_nothing(NO_MEMORY),
    }
}
