//! Whether a header's deal is accepted.

ghost use Rattle.std.specs.Prelude.{◌⊎◌, ◌≤◌, ◌<◌, length};
ghost use Rattle.party_main.specs.Words.{short_limit};
ghost use Rattle.swap_party.specs.Said.{header_said, IsCheckSaid, IsNothing};

use crate::said::{DONE, NO_MEMORY, Said, TOO_LONG, say, say_nothing, say_reason};
use audit_command::parse_deal_header;
use party_main::{PartyReason, SHORT_LIMIT};
use std::alloc::Global;
use swap_base::Fault;

/// Reads an offer's header, as a transcript has it, and answers its deal's id, which is 32 bytes,
/// or the first reason against it.
#[unsafe(no_mangle)]
pub extern "C" fn swap_party_check(alloc: Global, header: &[u8], out: &mut [u8]) -> Said
    ensures long { short_limit < length header.now → IsNothing 7 out.old out.new result }
    ensures said { length header.now ≤ short_limit → IsCheckSaid (header_said header.now) out.old out.new result ⊎ IsNothing 6 out.old out.new result }
{
    if SHORT_LIMIT < header.len() {
        return say_nothing(TOO_LONG);
    }
    match parse_deal_header(alloc, 1, header) {
        Ok(job) => say(DONE, &job.deal.id, out),
        Err(Fault::Refused(refusal)) => say_reason(alloc, &PartyReason::Header(refusal), out),
        Err(Fault::NoMemory) => say_nothing(NO_MEMORY),
    }
}
