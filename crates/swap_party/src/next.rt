//! What is due for a party.

ghost use Rattle.std.specs.Prelude.{◌⊎◌, ◌≤◌, ◌<◌, length};
ghost use Rattle.party_answer.specs.Text.{answer_told};
ghost use Rattle.party_main.specs.Words.{next_limit};
ghost use Rattle.swap_party.specs.Said.{IsAnswerSaid, IsNothing};

use crate::said::{NO_MEMORY, Said, TOO_LONG, answer_status, say, say_nothing, say_reason};
use party_answer::answer;
use party_main::{NEXT_LIMIT, PartyReason};
use std::alloc::Global;
use swap_base::{Digest, Fault};

/// Answers all that is due for the party of that name with that seed, as `party next` does: what
/// its wallet wrote down and a transcript of each ledger as far as it is known go in, without the
/// program's line of the seed. Lines are counted as the program counts them, from that line.
#[unsafe(no_mangle)]
pub extern "C" fn swap_party_next(
    alloc: Global,
    text: &[u8],
    name: &[u8],
    seed: &Digest,
    out: &mut [u8],
) -> Said
    ensures long { next_limit < length text.now → IsNothing 7 out.old out.new result }
    ensures said { length text.now ≤ next_limit → IsAnswerSaid (record { name = name.now; seed = seed.now; text = text.now })
        (answer_told 2 name.now seed.now text.now) out.old out.new result ⊎ IsNothing 6 out.old out.new result }
{
    if NEXT_LIMIT < text.len() {
        return say_nothing(TOO_LONG);
    }
    match answer(alloc, 2, name, seed, text) {
        Ok(answer) => say(answer_status(answer.warns), answer.text.as_slice(), out),
        Err(Fault::Refused(reason)) => say_reason(alloc, &PartyReason::Next(reason), out),
        Err(Fault::NoMemory) => say_nothing(NO_MEMORY),
    }
}
