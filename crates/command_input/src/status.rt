//! What the program ends with.

ghost use Rattle.std.specs.Prelude.{◌≡◌};
ghost use Rattle.command_input.specs.Faults.{unread};
ghost use Rattle.command_input.specs.Written.{written_status};

use crate::fault::InputFault;
use crate::reason::Reason;
use crate::refusal::Refusal;
use swap_base::{ByteText, Listed};
use swap_io::TextFault;

/// How a run of the program ended.
#[derive(Debug, Drop)]
pub enum Status {
    /// The text was written whole, and nothing was found.
    Done,
    /// The text was written whole, and something was found.
    Named,
    WrongWords,
    /// The first reason, and the names of the parties that it may speak of.
    Refused(Reason, Listed<ByteText>),
    ReadFault,
    WriteFault,
    NoMemory,
    TooLong,
}

/// The status where the reading of an input stopped.
pub fn unread(fault: InputFault<Refusal>) -> Status
    ensures { result ≡ unread fault }
{
    match fault {
        InputFault::Refused(refusal) => Status::Refused(refusal.reason, refusal.names),
        InputFault::ReadFault => Status::ReadFault,
        InputFault::TooLong => Status::TooLong,
        InputFault::NoMemory => Status::NoMemory,
    }
}

/// The status of a text by how its writing ended. `found` tells whether the text tells of a
/// finding.
pub fn written_status(written: Result<(), TextFault>, found: bool) -> Status
    ensures { result ≡ written_status written found }
{
    match written {
        Ok(()) => { if found { Status::Named } else { Status::Done } }
        Err(TextFault::WriteFault) => Status::WriteFault,
        Err(TextFault::NoMemory) => Status::NoMemory,
    }
}
