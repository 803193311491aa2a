//! The limits of a line of wishes.

ghost use Rattle.std.specs.Prelude.{◌<◌, ℕ, length, slice_index_or, IfOk};
ghost use Rattle.swap_base.specs.Fault.{Gives};
ghost use Rattle.offer_moves.specs.Lists.{collected_results};
ghost use Rattle.swap_clear.specs.Limits.{proposed_arc, limited_times, limited_proposals, parse_wishes, parse_wish_text, AreWishesInLimits};
ghost use Rattle.swap_clear.specs.Names.{AreBoundedEnds, HasBoundedEnds};
ghost use Rattle.swap_clear.specs.declared.names.NumberedArc.{NumberedArc as Arc};

use crate::fields::{RawWishes, parse_raw};
use crate::names::{Numbered, NumberedArc, assign_numbers};
use crate::proposed::Proposed;
use command_input::OfferFault;
use offer_moves::{check_range, parse_object, ranged_number};
use std::alloc::Global;
use swap_base::{ByteText, Listed};

/// Wishes whose fields, names and limits are in order, as `AreWishesInLimits` says.
#[derive(Drop)]
pub struct Wishes {
    /// A height, 1 to 1,000.
    pub start: u32,
    /// Heights, 1 to 100.
    pub delta: u32,
    /// The name of each party.
    pub names: Listed<ByteText>,
    pub arcs: Listed<Proposed>,
}

#[tactic(auto, unfolding(crate::specs::Limits::proposed_arc))]
fn proposed_arc(alloc: Global, line: u32, arc: NumberedArc) -> Result<Proposed, OfferFault>
    requires { HasBoundedEnds 256 arc }
    ensures { Gives (λ p. p) result (proposed_arc line arc) }
{
    check_range(alloc, line, "amount", 1, 1_000_000_000_000, arc.amount)?;
    Ok(Proposed {
        from: arc.ends.from as u8,
        to: arc.ends.to as u8,
        amount: arc.amount,
    })
}

fn each_proposed(
    alloc: Global,
    line: u32,
    arcs: &[NumberedArc],
) -> Result<Listed<Proposed>, OfferFault>
    requires { (a : ℕ) (d : Arc) → a < length arcs.now → HasBoundedEnds 256 (slice_index_or arcs.now a d) }
    ensures { Gives (λ x. x) result (collected_results (proposed_arc line) arcs.now) }
{
    let mut list = Vec::new(alloc);
    for arc in arcs {
        list.push(proposed_arc(alloc, line, *arc)?)?;
    }
    Ok(Listed::new(list))
}

/// The start and delta.
#[tactic(auto, unfolding(crate::specs::Limits::limited_times))]
fn limited_times(alloc: Global, line: u32, wishes: &RawWishes<'_>) -> Result<(u32, u32), OfferFault>
    ensures { Gives (λ t. t) result (limited_times line wishes.now) }
{
    let start = ranged_number(alloc, line, "start", 1, 1000, wishes.start)?;
    let delta = ranged_number(alloc, line, "delta", 1, 100, wishes.delta)?;
    Ok((start, delta))
}

/// The arcs, where neither they nor the parties are too few or too many.
#[tactic(auto, unfolding(crate::specs::Limits::limited_proposals))]
fn make_proposals(
    alloc: Global,
    line: u32,
    numbered: &Numbered,
) -> Result<Listed<Proposed>, OfferFault>
    requires { AreBoundedEnds numbered.now }
    ensures { Gives (λ x. x) result (limited_proposals line numbered.now) }
{
    check_range(alloc, line, "parties", 2, 32, numbered.names.len() as u64)?;
    check_range(alloc, line, "arcs", 1, 128, numbered.arcs.len() as u64)?;
    each_proposed(alloc, line, numbered.arcs.as_slice())
}

/// The wishes that fields give, or the first reason why one is refused.
#[tactic(auto, using(crate::proofs::Within::set_contains_ends), unfolding(crate::specs::Limits::parse_wishes))]
fn parse_wishes(alloc: Global, line: u32, raw: &RawWishes<'_>) -> Result<Wishes, OfferFault>
    ensures exact { Gives (λ w. w) result (parse_wishes line raw.now) }
    ensures within { IfOk result AreWishesInLimits }
{
    let numbered = assign_numbers(alloc, line, raw)?;
    let (start, delta) = limited_times(alloc, line, raw)?;
    let arcs = make_proposals(alloc, line, &numbered)?;
    Ok(Wishes {
        start,
        delta,
        names: numbered.names,
        arcs,
    })
}

/// The wishes that the line's text gives, or the first reason why it is refused.
#[tactic(auto, unfolding(crate::specs::Limits::parse_wish_text))]
pub(crate) fn decode_wishes(alloc: Global, line: u32, text: &[u8]) -> Result<Wishes, OfferFault>
    ensures exact { Gives (λ w. w) result (parse_wish_text line text.now) }
    ensures within { IfOk result AreWishesInLimits }
{
    let object = parse_object(alloc, line, text)?;
    let raw = parse_raw(alloc, line, &object)?;
    parse_wishes(alloc, line, &raw)
}
