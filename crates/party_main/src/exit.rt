//! How the program `party` ends: the number of its status, and what it tells on standard error.

ghost use Rattle.std.specs.Prelude.{◌≡◌, ◌⊎◌};
ghost use Rattle.party_main.specs.Exit.{IsPartyExit};

use crate::reason::{PartyReason, reason_line};
use crate::top::PartyStatus;
use command_input::{Exit, Told};
use std::alloc::Global;

/// What the process ends with by its status. A refusal whose line finds no memory ends as want of
/// memory does.
#[tactic(auto, unfolding(crate::specs::Exit::party_error_lines))]
pub fn ending(alloc: Global, status: PartyStatus) -> Exit
    ensures exact { IsPartyExit result status ⊎ IsPartyExit result PartyStatus.NoMemory }
    ensures plain { ((reason : PartyReason) → ¬ (status ≡ PartyStatus.Refused reason)) → IsPartyExit result status }
{
    match status {
        PartyStatus::Done => Exit::of_words(0, ""),
        PartyStatus::Warned => Exit::of_words(1, ""),
        PartyStatus::WrongWords => Exit::of_words(
            2,
            "swap: wrong words\nusage: party keys NAME | deal | terms NAME | next NAME | judge [--json]\n",
        ),
        PartyStatus::Refused(reason) => match reason_line(alloc, &reason) {
            Ok(line) => Exit {
                number: 3,
                told: Told::Line(line),
            },
            Err(_) => Exit::of_words(6, "swap: no memory\n"),
        },
        PartyStatus::ReadFault => Exit::of_words(4, "swap: read fault\n"),
        PartyStatus::WriteFault => Exit::of_words(5, "swap: write fault\n"),
        PartyStatus::NoMemory => Exit::of_words(6, "swap: no memory\n"),
        PartyStatus::TooLong => Exit::of_words(7, "swap: too long\n"),
    }
}
