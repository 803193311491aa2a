//! The fields of a header, in the order in which they are examined.

ghost use Rattle.serde_json.specs.View.{view};
ghost use Rattle.swap_base.specs.Fault.{Gives};
ghost use Rattle.offer_moves.specs.Fields.{only};
ghost use Rattle.offer_header.specs.Raw.{version_member, checked_mode, stated_mode, mode_member, states_keys, keys_member, finish_of_word, stated_finish, finish_member};
ghost use Rattle.offer_header.specs.Raw.{transcript_fields, job_fields, header_fields, raw_header_lists, object_header};

use crate::raw::{Front, RawHeader, RawRow, Reading};
use command_input::{OfferFault, wrong_kind};
use offer_moves::{allow_only, read_list, read_number_field, read_optional_text, read_text_field};
use serde_json::Value;
use std::alloc::Global;
use swap_base::Listed;
use swap_digraph::{Mode, Version};
use swap_job::{Finish, Purpose};

#[tactic(auto, unfolding(crate::specs::Raw::version_member))]
fn read_version(alloc: Global, line: u32, object: &Value) -> Result<Version, OfferFault>
    ensures { Gives (λ v. v) result (version_member line (view object.now)) }
{
    let number = read_number_field(alloc, line, "swap", object)?;
    if number == 1 {
        Ok(Version::One)
    } else if number == 2 {
        Ok(Version::Two)
    } else {
        Err(wrong_kind(alloc, line, b"swap"))
    }
}

#[tactic(auto, unfolding(crate::specs::Raw::stated_mode))]
fn read_stated_mode(alloc: Global, line: u32, object: &Value) -> Result<Mode, OfferFault>
    ensures { Gives (λ m. m) result (stated_mode line (view object.now)) }
{
    match read_text_field(alloc, line, "mode", object)? {
        "timelocks" => Ok(Mode::Timelocks),
        "hashkeys" => Ok(Mode::Hashkeys),
        _ => Err(wrong_kind(alloc, line, b"mode")),
    }
}

/// Version 2 has hashkeys alone.
fn checked_mode(alloc: Global, line: u32, version: Version, mode: Mode) -> Result<Mode, OfferFault>
    ensures { Gives (λ m. m) result (checked_mode line version mode) }
{
    match (version, mode) {
        (Version::One, mode) => Ok(mode),
        (Version::Two, Mode::Timelocks) => Err(wrong_kind(alloc, line, b"mode")),
        (Version::Two, Mode::Hashkeys) => Ok(Mode::Hashkeys),
    }
}

#[tactic(auto, unfolding(crate::specs::Raw::mode_member))]
fn read_mode(alloc: Global, line: u32, version: Version, object: &Value) -> Result<Mode, OfferFault>
    ensures { Gives (λ m. m) result (mode_member line version (view object.now)) }
{
    let mode = read_stated_mode(alloc, line, object)?;
    checked_mode(alloc, line, version, mode)
}

fn read_keys<'v>(
    alloc: Global,
    reading: Reading,
    line: u32,
    object: &'v Value,
) -> Result<Listed<RawRow<'v>>, OfferFault>
    ensures { Gives (λ k. k) result (keys_member line (states_keys reading.purpose reading.mode) (view object.now)) }
{
    if reading.states_keys() {
        read_list(alloc, reading, line, "keys", object)
    } else {
        Ok(Listed::empty(alloc))
    }
}

fn finish_of_word(alloc: Global, line: u32, word: &str) -> Result<Finish, OfferFault>
    ensures { Gives (λ f. f) result (finish_of_word line word.now) }
{
    match word {
        "stop" => Ok(Finish::Stop),
        "fair" => Ok(Finish::Fair),
        _ => Err(wrong_kind(alloc, line, b"finish")),
    }
}

#[tactic(auto, unfolding(crate::specs::Raw::stated_finish))]
fn read_stated_finish(alloc: Global, line: u32, object: &Value) -> Result<Finish, OfferFault>
    ensures { Gives (λ f. f) result (stated_finish line (view object.now)) }
{
    match read_optional_text(alloc, line, "finish", object)? {
        None => Ok(Finish::Stop),
        Some(word) => finish_of_word(alloc, line, word),
    }
}

fn parse_finish(
    alloc: Global,
    line: u32,
    purpose: Purpose,
    object: &Value,
) -> Result<Finish, OfferFault>
    ensures { Gives (λ f. f) result (finish_member line purpose (view object.now)) }
{
    match purpose {
        Purpose::Audit => Ok(Finish::Stop),
        _ => read_stated_finish(alloc, line, object),
    }
}

fn only_transcript_fields(
    alloc: Global,
    line: u32,
    keyed: bool,
    object: &Value,
) -> Result<(), OfferFault>
    ensures { Gives (λ u. u) result (only line (transcript_fields keyed) (view object.now)) }
{
    if keyed {
        let allowed = [
            "arcs", "bound", "delta", "keys", "leaders", "mode", "parties", "start", "swap",
        ];
        return allow_only(alloc, line, &allowed, object);
    }
    let allowed = [
        "arcs", "bound", "delta", "leaders", "mode", "parties", "start", "swap",
    ];
    allow_only(alloc, line, &allowed, object)
}

fn only_job_fields(alloc: Global, line: u32, keyed: bool, object: &Value) -> Result<(), OfferFault>
    ensures { Gives (λ u. u) result (only line (job_fields keyed) (view object.now)) }
{
    if keyed {
        let allowed = [
            "arcs", "bound", "delta", "finish", "keys", "leaders", "mode", "parties", "start",
            "swap",
        ];
        return allow_only(alloc, line, &allowed, object);
    }
    let allowed = [
        "arcs", "bound", "delta", "finish", "leaders", "mode", "parties", "start", "swap",
    ];
    allow_only(alloc, line, &allowed, object)
}

fn only_header_fields(
    alloc: Global,
    line: u32,
    purpose: Purpose,
    keyed: bool,
    object: &Value,
) -> Result<(), OfferFault>
    ensures { Gives (λ u. u) result (only line (header_fields purpose keyed) (view object.now)) }
{
    match purpose {
        Purpose::Audit => only_transcript_fields(alloc, line, keyed, object),
        _ => only_job_fields(alloc, line, keyed, object),
    }
}

/// The lists of the header and what stands beside them, or the first reason why a field is refused.
fn read_lists<'v>(
    alloc: Global,
    purpose: Purpose,
    front: Front,
    line: u32,
    object: &'v Value,
) -> Result<RawHeader<'v>, OfferFault>
    ensures { Gives (λ h. h) result (raw_header_lists purpose front line (view object.now)) }
{
    let reading = Reading {
        purpose,
        mode: front.mode,
    };
    let parties = read_list(alloc, reading, line, "parties", object)?;
    let arcs = read_list(alloc, reading, line, "arcs", object)?;
    let leaders = read_list(alloc, reading, line, "leaders", object)?;
    let keys = read_keys(alloc, reading, line, object)?;
    let finish = parse_finish(alloc, line, purpose, object)?;
    only_header_fields(alloc, line, purpose, reading.states_keys(), object)?;
    Ok(RawHeader {
        version: front.version,
        mode: front.mode,
        start: front.start,
        delta: front.delta,
        bound: front.bound,
        parties,
        arcs,
        leaders,
        keys,
        finish,
    })
}

/// The fields of the header, or the first reason why one is refused.
#[tactic(auto, unfolding(crate::specs::Raw::object_header))]
pub(crate) fn parse_raw<'v>(
    alloc: Global,
    purpose: Purpose,
    line: u32,
    object: &'v Value,
) -> Result<RawHeader<'v>, OfferFault>
    ensures { Gives (λ h. h) result (object_header purpose line (view object.now)) }
{
    let version = read_version(alloc, line, object)?;
    let front = Front {
        version,
        mode: read_mode(alloc, line, version, object)?,
        start: read_number_field(alloc, line, "start", object)?,
        delta: read_number_field(alloc, line, "delta", object)?,
        bound: read_number_field(alloc, line, "bound", object)?,
    };
    read_lists(alloc, purpose, front, line, object)
}
