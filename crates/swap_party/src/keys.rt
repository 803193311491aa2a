//! A party's row of its seed.

ghost use Rattle.std.specs.Prelude.{◌⊎◌, ◌≤◌, ◌<◌, length};
ghost use Rattle.party_main.specs.Words.{short_limit};
ghost use Rattle.party_rows.specs.Keys.{own_row_output};
ghost use Rattle.swap_party.specs.Said.{IsNothing, IsTextSaid};

use crate::said::{DONE, NO_MEMORY, Said, TOO_LONG, say, say_nothing, say_reason};
use party_main::{PartyReason, SHORT_LIMIT};
use party_rows::own_row;
use std::alloc::Global;
use swap_base::{Digest, Fault};

/// Answers the row of the party of that name, as `party keys` does, by its seed and a text of one
/// line, the offer's.
#[unsafe(no_mangle)]
pub extern "C" fn swap_party_keys(
    alloc: Global,
    text: &[u8],
    name: &[u8],
    seed: &Digest,
    out: &mut [u8],
) -> Said
    ensures long { short_limit < length text.now → IsNothing 7 out.old out.new result }
    ensures said { length text.now ≤ short_limit → IsTextSaid (own_row_output name.now seed.now text.now) out.old out.new result
        ⊎ IsNothing 6 out.old out.new result }
{
    if SHORT_LIMIT < text.len() {
        return say_nothing(TOO_LONG);
    }
    match own_row(alloc, name, seed, text) {
        Ok(row) => say(DONE, row.as_slice(), out),
        Err(Fault::Refused(refusal)) => say_reason(alloc, &PartyReason::Header(refusal), out),
        Err(Fault::NoMemory) => say_nothing(NO_MEMORY),
    }
}
