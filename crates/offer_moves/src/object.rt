//! The object that a line is.

ghost use Rattle.std.specs.Prelude.{◌≡◌};
ghost use Rattle.serde_json.specs.View.{view};
ghost use Rattle.serde_json.specs.Errors.{IsMemory};
ghost use Rattle.swap_base.specs.Fault.{Gives};
ghost use Rattle.offer_moves.specs.Fields.{parse_data};

use command_input::{OfferFault, Reason};
use serde_json::{Error, Value};
use std::alloc::Global;
use swap_base::Fault;

fn not_json(line: u32, e: &Error) -> OfferFault
    ensures memory { IsMemory e.now → result ≡ Fault.NoMemory }
    ensures other { ¬ (IsMemory e.now) → result ≡ Fault.Refused (Reason.NotJson line) }
{
    if e.is_memory() {
        Fault::NoMemory
    } else {
        Fault::Refused(Reason::NotJson(line))
    }
}

/// The object that the text of a line is.
#[tactic(auto, using(crate::proofs::Lines::is_read, crate::proofs::Lines::is_no_object, crate::proofs::Lines::refused))]
pub fn parse_object(alloc: Global, line: u32, text: &[u8]) -> Result<Value, OfferFault>
    ensures { Gives view result (parse_data line text.now) }
{
    let value = match Value::from_slice(alloc, text) {
        Ok(value) => value,
        Err(e) => return Err(not_json(line, &e)),
    };
    if !value.is_object() {
        return Err(Fault::Refused(Reason::NotJson(line)));
    }
    Ok(value)
}
