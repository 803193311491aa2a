//! What a call says: a status, and a text that it puts into the caller's buffer.

ghost use Rattle.std.specs.Prelude.{◌≡◌, ◌⊎◌};
ghost use Rattle.party_main.specs.Reasons.{reason_line};
ghost use Rattle.swap_party.specs.Said.{answer_status, IsNothing, IsSaid};

use party_main::{PartyReason, reason_line};
use std::alloc::Global;

/// The status of a call, and how long its text is.
#[repr(C)]
#[derive(Drop)]
pub struct Said {
    pub status: u32,
    pub length: usize,
}

pub(crate) const DONE: u32 = 0;
/// The buffer is too short for the text; nothing was put into it.
const SHORT: u32 = 1;

/// The answer, in which a line tells of something that should not be.
pub(crate) const WARNED: u32 = 2;

pub(crate) const REFUSED: u32 = 3;

pub(crate) const NO_MEMORY: u32 = 6;

pub(crate) const TOO_LONG: u32 = 7;

/// The words of the program ask for nothing.
pub(crate) const WRONG_WORDS: u32 = 8;

/// Puts a text into the buffer, if it has room for it.
pub(crate) fn say(status: u32, text: &[u8], out: &mut [u8]) -> Said
    ensures { IsSaid status text.now out.old out.new result }
{
    let length = text.len();
    if out.len() < length {
        return Said {
            status: SHORT,
            length,
        };
    }
    out[..length].copy_from_slice(text);
    Said { status, length }
}

/// The status of an answer, by whether it warns.
pub(crate) fn answer_status(warns: bool) -> u32
    ensures { result ≡ answer_status warns }
{
    if warns { WARNED } else { DONE }
}

/// Says that status without a text.
pub(crate) fn say_nothing(status: u32) -> Said
    ensures status { result.status ≡ status }
    ensures length { result.length ≡ 0 }
{
    Said { status, length: 0 }
}

/// Puts the line of a reason into the buffer.
pub(crate) fn say_reason(alloc: Global, reason: &PartyReason, out: &mut [u8]) -> Said
    ensures { IsSaid 3 (reason_line reason.now) out.old out.new result ⊎ IsNothing 6 out.old out.new result }
{
    match reason_line(alloc, reason) {
        Ok(line) => say(REFUSED, line.as_slice(), out),
        Err(_) => say_nothing(NO_MEMORY),
    }
}
