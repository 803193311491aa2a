//! Refusals that carry a text.

ghost use Rattle.swap_base.specs.Fault.{Is};
ghost use Rattle.command_input.specs.Refusal.{SaysOnly};
ghost use Rattle.command_input.specs.declared.reason.Reason.TheVariants.{Missing, WrongKind, UnknownField, BadName, Duplicate, Unknown, OverLimit, WrongHex};

use crate::reason::{OfferFault, Reason};
use std::alloc::Global;
use swap_base::{ByteText, Fault};

/// The fault that says the reason which a text makes, or that memory ran out for the text.
fn with_text<F: FnOnce(ByteText) -> Reason>(alloc: Global, text: &[u8], reason: F) -> OfferFault
    requires callable { F.IsAlwaysCallable reason }
    ensures says { SaysOnly (F.post reason text.now) result }
{
    match ByteText::from_slice(alloc, text) {
        Ok(text) => Fault::Refused(reason(text)),
        Err(_) => Fault::NoMemory,
    }
}

/// A needed field is absent.
pub fn missing(alloc: Global, line: u32, text: &[u8]) -> OfferFault
    ensures { Is result (Missing line text.now) }
{
    with_text(alloc, text, |text| Reason::Missing(line, text))
}

/// A value has another kind than the format says.
pub fn wrong_kind(alloc: Global, line: u32, text: &[u8]) -> OfferFault
    ensures { Is result (WrongKind line text.now) }
{
    with_text(alloc, text, |text| Reason::WrongKind(line, text))
}

/// An object holds a field that is not allowed there.
pub fn unknown_field(alloc: Global, line: u32, text: &[u8]) -> OfferFault
    ensures { Is result (UnknownField line text.now) }
{
    with_text(alloc, text, |text| Reason::UnknownField(line, text))
}

/// A party's name has another form.
pub fn bad_name(alloc: Global, line: u32, text: &[u8]) -> OfferFault
    ensures { Is result (BadName line text.now) }
{
    with_text(alloc, text, |text| Reason::BadName(line, text))
}

/// A name stands twice.
pub fn duplicate(alloc: Global, line: u32, text: &[u8]) -> OfferFault
    ensures { Is result (Duplicate line text.now) }
{
    with_text(alloc, text, |text| Reason::Duplicate(line, text))
}

/// A name is nobody's.
pub fn unknown(alloc: Global, line: u32, text: &[u8]) -> OfferFault
    ensures { Is result (Unknown line text.now) }
{
    with_text(alloc, text, |text| Reason::Unknown(line, text))
}

/// A text is not hexadecimal of its length.
pub fn wrong_hex(alloc: Global, line: u32, text: &[u8]) -> OfferFault
    ensures { Is result (WrongHex line text.now) }
{
    with_text(alloc, text, |text| Reason::WrongHex(line, text))
}

/// A number, or a list's length, is outside its range.
pub fn over_limit(alloc: Global, line: u32, field: &[u8], number: u64) -> OfferFault
    ensures { Is result (OverLimit line field.now number) }
{
    with_text(alloc, field, |field| Reason::OverLimit(line, field, number))
}
