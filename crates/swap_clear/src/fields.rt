//! The fields of a line of wishes, in the order in which they are examined.

ghost use Rattle.std.specs.Prelude.{codes};
ghost use Rattle.serde_json.specs.View.{view};
ghost use Rattle.swap_base.specs.Fault.{Gives};
ghost use Rattle.offer_moves.specs.Fields.{field_list, text_member, only};
ghost use Rattle.swap_clear.specs.Fields.{fields, clear_kind, raw_wishes};

use command_input::{OfferFault, wrong_kind};
use offer_header::{RawArc, Reading};
use offer_moves::{TextRef, allow_only, field_array, read_list, read_number_field, read_texts};
use serde_json::Value;
use std::alloc::Global;
use swap_base::Listed;
use swap_digraph::Mode;
use swap_job::Purpose;

/// Wishes as their line states them: its texts lie in the line that was read.
#[derive(Drop)]
pub struct RawWishes<'v> {
    pub start: u64,
    pub delta: u64,
    /// The names of the parties.
    pub parties: Listed<TextRef<'v>>,
    pub arcs: Listed<RawArc<'v>>,
}

/// The line says that it is one of wishes.
#[tactic(auto, unfolding(crate::specs::Fields::clear_kind))]
fn check_kind(alloc: Global, line: u32, object: &Value) -> Result<(), OfferFault>
    ensures { Gives (λ u. u) result (clear_kind line (view object.now)) }
{
    let number = read_number_field(alloc, line, "clear", object)?;
    if number == 1 {
        return Ok(());
    }
    Err(wrong_kind(alloc, line, b"clear"))
}

#[tactic(auto, unfolding(offer_moves::specs::Fields::field_list))]
fn read_parties<'v>(
    alloc: Global,
    line: u32,
    object: &'v Value,
) -> Result<Listed<TextRef<'v>>, OfferFault>
    ensures { Gives (λ x. x) result (field_list line (codes "parties") (text_member line (codes "parties")) (view object.now)) }
{
    let values = field_array(alloc, line, "parties", object)?;
    read_texts(alloc, line, "parties", values)
}

fn only_fields(alloc: Global, line: u32, object: &Value) -> Result<(), OfferFault>
    ensures { Gives (λ u. u) result (only line fields (view object.now)) }
{
    let allowed = ["arcs", "clear", "delta", "parties", "start"];
    allow_only(alloc, line, &allowed, object)
}

/// The fields of the line, or the first reason why one is refused. An arc has the fields that it
/// has in a plain job with hashkeys.
#[tactic(auto, unfolding(crate::specs::Fields::raw_wishes))]
pub(crate) fn parse_raw<'v>(
    alloc: Global,
    line: u32,
    object: &'v Value,
) -> Result<RawWishes<'v>, OfferFault>
    ensures { Gives (λ w. w) result (raw_wishes line (view object.now)) }
{
    check_kind(alloc, line, object)?;
    let start = read_number_field(alloc, line, "start", object)?;
    let delta = read_number_field(alloc, line, "delta", object)?;
    let parties = read_parties(alloc, line, object)?;
    let reading = Reading {
        purpose: Purpose::Make,
        mode: Mode::Hashkeys,
    };
    let arcs = read_list(alloc, reading, line, "arcs", object)?;
    only_fields(alloc, line, object)?;
    Ok(RawWishes {
        start,
        delta,
        parties,
        arcs,
    })
}
