//! The fields of an event line, in the order in which they are examined.

ghost use Rattle.serde_json.specs.View.{view};
ghost use Rattle.swap_base.specs.Fault.{Gives};
ghost use Rattle.offer_events.specs.Reading.{raw_tick_event, raw_look_event, raw_act_event, submit_call, raw_crash_event, raw_event};

use crate::raw::RawEvent;
use command_input::{OfferFault, missing};
use offer_moves::{
    TextRef, allow_only, field_value, is_object, read_move, read_number_field,
    read_optional_number, read_text_field,
};
use serde_json::Value;
use std::alloc::Global;

#[tactic(auto, unfolding(crate::specs::Reading::raw_tick_event))]
fn parse_tick<'v>(alloc: Global, line: u32, object: &'v Value) -> Result<RawEvent<'v>, OfferFault>
    ensures { Gives (λ e. e) result (raw_tick_event line (view object.now)) }
{
    let arc = read_number_field(alloc, line, "tick", object)?;
    let by = read_optional_number(alloc, line, "by", object)?;
    allow_only(alloc, line, &["by", "tick"], object)?;
    Ok(RawEvent::Tick { arc, by })
}

#[tactic(auto, unfolding(crate::specs::Reading::raw_look_event))]
fn read_look<'v>(alloc: Global, line: u32, object: &'v Value) -> Result<RawEvent<'v>, OfferFault>
    ensures { Gives (λ e. e) result (raw_look_event line (view object.now)) }
{
    let name = read_text_field(alloc, line, "look", object)?;
    let arc = read_number_field(alloc, line, "arc", object)?;
    allow_only(alloc, line, &["arc", "look"], object)?;
    let name = TextRef::new(name.as_bytes());
    Ok(RawEvent::Look { name, arc })
}

#[tactic(auto, unfolding(crate::specs::Reading::raw_act_event))]
fn read_act<'v>(alloc: Global, line: u32, object: &'v Value) -> Result<RawEvent<'v>, OfferFault>
    ensures { Gives (λ e. e) result (raw_act_event line (view object.now)) }
{
    let name = read_text_field(alloc, line, "act", object)?;
    allow_only(alloc, line, &["act"], object)?;
    let name = TextRef::new(name.as_bytes());
    Ok(RawEvent::Act { name })
}

#[tactic(auto, unfolding(crate::specs::Reading::submit_call))]
fn read_raw_call<'v>(
    alloc: Global,
    line: u32,
    object: &'v Value,
) -> Result<RawEvent<'v>, OfferFault>
    ensures { Gives (λ e. e) result (submit_call line (view object.now)) }
{
    let name = read_text_field(alloc, line, "call", object)?;
    let value = field_value(alloc, line, "move", object)?;
    is_object(alloc, line, "move", value)?;
    let mv = read_move(alloc, line, false, value)?;
    allow_only(alloc, line, &["call", "move"], object)?;
    let name = TextRef::new(name.as_bytes());
    Ok(RawEvent::Call { name, mv })
}

#[tactic(auto, unfolding(crate::specs::Reading::raw_crash_event))]
fn read_crash<'v>(alloc: Global, line: u32, object: &'v Value) -> Result<RawEvent<'v>, OfferFault>
    ensures { Gives (λ e. e) result (raw_crash_event line (view object.now)) }
{
    let name = read_text_field(alloc, line, "crash", object)?;
    let after = read_number_field(alloc, line, "after", object)?;
    let image = read_number_field(alloc, line, "image", object)?;
    allow_only(alloc, line, &["after", "crash", "image"], object)?;
    let name = TextRef::new(name.as_bytes());
    Ok(RawEvent::Crash { name, after, image })
}

/// The event of a line as its fields say it, or the first reason against a field.
#[tactic(auto, unfolding(crate::specs::Reading::raw_event))]
pub fn read_raw_event<'v>(
    alloc: Global,
    line: u32,
    object: &'v Value,
) -> Result<RawEvent<'v>, OfferFault>
    ensures { Gives (λ e. e) result (raw_event line (view object.now)) }
{
    if object.get("tick").is_some() {
        return parse_tick(alloc, line, object);
    }
    if object.get("look").is_some() {
        return read_look(alloc, line, object);
    }
    if object.get("act").is_some() {
        return read_act(alloc, line, object);
    }
    if object.get("call").is_some() {
        return read_raw_call(alloc, line, object);
    }
    if object.get("crash").is_some() {
        return read_crash(alloc, line, object);
    }
    Err(missing(alloc, line, b"tick"))
}
