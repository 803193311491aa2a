//! What is cleared of a line of wishes.

ghost use Rattle.std.specs.Prelude.{◌≡◌, ◌<◌, ◌≤◌, length, position, IfOk};
ghost use Rattle.swap_base.specs.Fault.{Gives};
ghost use Rattle.swap_clear.specs.Refused.{IfRefused};
ghost use Rattle.swap_clear.specs.Cleared.{parse_cleared, make_clearing, clear_offer_fault, first_self, small, wished_start, without_self_arcs, Shows};
ghost use Rattle.swap_clear.specs.Limits.{AreWishesInLimits};

use crate::answer::Clearing;
use crate::clearing::clear;
use crate::fault::{ClearFault, ClearReason};
use crate::limits::{Wishes, decode_wishes};
use crate::proposed::Proposed;
use command_input::{OfferFault, Reason};
use std::alloc::Global;
use swap_base::{ArcId, Fault};

/// Wishes, and what of them can be swapped.
#[derive(Drop)]
pub struct Cleared {
    pub wishes: Wishes,
    pub clearing: Clearing,
}

/// The least arc that leads from a party to itself.
fn first_self(arcs: &[Proposed]) -> Option<usize>
    ensures { result ≡ first_self arcs.now }
{
    arcs.iter().position(|arc| arc.from == arc.to)
}

/// No arc leads from a party to itself.
#[tactic(auto, unfolding(crate::specs::Cleared::without_self_arcs))]
fn without_self_arcs(arcs: &[Proposed]) -> Result<(), OfferFault>
    requires { length arcs.now ≤ 128 }
    ensures { Gives (λ u. u) result (without_self_arcs arcs.now) }
{
    match first_self(arcs) {
        None => Ok(()),
        Some(arc) => Err(Fault::Refused(Reason::SelfArc(arc as ArcId))),
    }
}

/// The start is at least delta.
#[tactic(auto, unfolding(crate::specs::Cleared::wished_start))]
fn wished_start(start: u32, delta: u32) -> Result<(), OfferFault>
    ensures { Gives (λ u. u) result (wished_start start delta) }
{
    if start < delta {
        return Err(Fault::Refused(Reason::StartTooSoon(start as u64, delta as u64)));
    }
    Ok(())
}

fn clear_offer_fault(fault: ClearFault) -> OfferFault
    requires { IfRefused fault small }
    ensures { result ≡ clear_offer_fault fault }
{
    match fault {
        Fault::Refused(ClearReason::OutOfRange(arc)) => Fault::Refused(Reason::SelfArc(
            arc as ArcId,
        )),
        Fault::Refused(ClearReason::SelfArc(arc)) => Fault::Refused(Reason::SelfArc(arc as ArcId)),
        Fault::Refused(ClearReason::TooManyLeaders(group, count)) => {
            Fault::Refused(Reason::TooManyLeaders(group, count))
        }
        Fault::NoMemory => Fault::NoMemory,
    }
}

/// What of the wishes can be swapped, or the first reason against them.
#[tactic(auto, unfolding(crate::specs::Cleared::make_clearing))]
fn make_clearing(alloc: Global, wishes: &Wishes) -> Result<Clearing, OfferFault>
    requires { AreWishesInLimits wishes.now }
    ensures exact { Gives (λ c. c) result (make_clearing wishes.now) }
    ensures shows { IfOk result (λ c. Shows (record { wishes = wishes.now; clearing = c })) }
{
    without_self_arcs(wishes.arcs.as_slice())?;
    wished_start(wishes.start, wishes.delta)?;
    match clear(alloc, wishes.names.len() as u8, wishes.arcs.as_slice()) {
        Ok(clearing) => Ok(clearing),
        Err(fault) => Err(clear_offer_fault(fault)),
    }
}

/// What is cleared of a line's wishes, or the first reason why the line is refused.
#[tactic(auto, unfolding(crate::specs::Cleared::parse_cleared))]
pub fn read_cleared(alloc: Global, line: u32, text: &[u8]) -> Result<Cleared, OfferFault>
    ensures exact { Gives (λ c. c) result (parse_cleared line text.now) }
    ensures within { IfOk result (λ c. AreWishesInLimits c.wishes) }
    ensures shows { IfOk result Shows }
{
    let wishes = decode_wishes(alloc, line, text)?;
    let clearing = make_clearing(alloc, &wishes)?;
    Ok(Cleared { wishes, clearing })
}
