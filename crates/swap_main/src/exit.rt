//! How the program ends: the number of its status, and what it tells on standard error.

ghost use Rattle.std.specs.Prelude.{◌≡◌, ◌⊎◌, ℕ, List};
ghost use Rattle.command_input.specs.declared.reason.Reason.{Reason};
ghost use Rattle.swap_main.specs.Exit.{IsExit};

use command_input::{Exit, Status, Told, refusal_text};
use std::alloc::Global;

#[tactic(auto, unfolding(crate::specs::Exit::error_lines))]
fn without_memory() -> Exit
    ensures { IsExit result Status.NoMemory }
{
    Exit::of_words(6, "swap: no memory\n")
}

#[tactic(auto, unfolding(crate::specs::Exit::error_lines, crate::specs::Exit::usage))]
fn with_wrong_words() -> Exit
    ensures { IsExit result Status.WrongWords }
{
    Exit::of_words(
        2,
        "swap: wrong words\nusage: swap check | run [--transcript] | race [--ticks K] [--transcript] | audit \
         | make | gen --seed S --parties N --events E [--summary] | clear | many\n",
    )
}

/// What the process ends with by its status. A refusal whose line finds no memory ends as want of
/// memory does.
#[tactic(auto, unfolding(crate::specs::Exit::error_lines))]
pub fn ending(alloc: Global, status: Status) -> Exit
    ensures exact { IsExit result status ⊎ IsExit result Status.NoMemory }
    ensures plain { ((reason : Reason) (names : List (List ℕ)) → ¬ (status ≡ Status.Refused reason names)) → IsExit result status }
{
    match status {
        Status::Done => Exit::of_words(0, ""),
        Status::Named => Exit::of_words(1, ""),
        Status::WrongWords => with_wrong_words(),
        Status::Refused(reason, names) => match refusal_text(alloc, &reason, names.as_slice()) {
            Ok(line) => Exit {
                number: 3,
                told: Told::Line(line),
            },
            Err(_) => without_memory(),
        },
        Status::ReadFault => Exit::of_words(4, "swap: read fault\n"),
        Status::WriteFault => Exit::of_words(5, "swap: write fault\n"),
        Status::NoMemory => without_memory(),
        Status::TooLong => Exit::of_words(7, "swap: too long\n"),
    }
}
