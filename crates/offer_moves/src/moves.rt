//! Moves, checked: names by their numbers, and numbers and texts in their ranges.

ghost use Rattle.std.specs.Prelude.{◌≡◌, ◌≤◌, length};
ghost use Rattle.swap_base.specs.Fault.{Gives};
ghost use Rattle.offer_moves.specs.Moves.{parse_arc, optional_arc, make_publish, parse_craft, parse_replay, checked_hashkey, parse_unlock, parse_claim, parse_refund, make_transfer};
ghost use Rattle.offer_moves.specs.Moves.{deal_sizes, parse_wait, parse_move};

use crate::field_limits::{check_range, ranged_number};
use crate::hexadecimal::parse_digest;
use crate::limits::{
    number_below_count, optional_locks, optional_most, optional_units, parse_sigs, units,
};
use crate::names::path_numbers;
use crate::party_names::party_of_name;
use crate::raw::{RawCraft, RawKey, RawMove, RawTerms};
use command_input::OfferFault;
use hashkey_path::Hashkey;
use std::alloc::Global;
use swap_base::{ArcId, ByteText, PartyId};
use swap_digraph::{Deal, PathList, path_limit};
use swap_job::Move;

/// How many arcs and locks there are for moves to name, and how long a path may be.
#[derive(Clone, Copy, Debug, PartialEq, Eq)]
pub struct Sizes {
    pub arcs: usize,
    pub locks: usize,
    /// Parties of a path.
    pub path: u64,
}

/// The sizes of a deal.
pub fn deal_sizes(deal: &Deal) -> Sizes
    ensures { result ≡ deal_sizes deal.now }
{
    Sizes {
        arcs: deal.graph.arcs().len(),
        locks: deal.leaders.len(),
        path: path_limit(deal) as u64,
    }
}

/// The arc of that number.
#[tactic(auto, unfolding(crate::specs::Moves::parse_arc))]
pub fn parse_arc(
    alloc: Global,
    sizes: Sizes,
    line: u32,
    field: &str,
    number: u64,
) -> Result<ArcId, OfferFault>
    ensures { Gives (λ a. a) result (parse_arc sizes line field.now number) }
{
    number_below_count(alloc, line, field, sizes.arcs, number)
}

#[tactic(auto, unfolding(crate::specs::Moves::make_publish))]
fn make_publish(
    alloc: Global,
    sizes: Sizes,
    line: u32,
    number: u64,
    terms: &RawTerms<'_>,
) -> Result<Move, OfferFault>
    ensures { Gives (λ m. m) result (make_publish sizes line number terms.now) }
{
    let arc = parse_arc(alloc, sizes, line, "arc", number)?;
    let start = optional_most(alloc, line, "start", terms.start)?;
    let delta = optional_most(alloc, line, "delta", terms.delta)?;
    let bound = optional_most(alloc, line, "bound", terms.bound)?;
    let timelock = optional_most(alloc, line, "timelock", terms.timelock)?;
    let amount = optional_units(alloc, line, "amount", terms.amount)?;
    let locks = optional_locks(alloc, line, sizes.locks, &terms.locks)?;
    Ok(Move::Publish {
        arc,
        start,
        delta,
        bound,
        timelock,
        amount,
        locks,
    })
}

/// The arc of that number, where there is one.
fn optional_arc(
    alloc: Global,
    sizes: Sizes,
    line: u32,
    field: &str,
    number: Option<u64>,
) -> Result<Option<ArcId>, OfferFault>
    ensures { Gives (λ o. o) result (optional_arc sizes line field.now number) }
{
    match number {
        None => Ok(None),
        Some(number) => Ok(Some(parse_arc(alloc, sizes, line, field, number)?)),
    }
}

#[tactic(auto, unfolding(crate::specs::Moves::parse_craft))]
fn parse_craft(
    alloc: Global,
    sizes: Sizes,
    names: &[ByteText],
    line: u32,
    number: u64,
    craft: &RawCraft<'_>,
) -> Result<Move, OfferFault>
    requires names { length names.now ≤ 256 }
    ensures { Gives (λ m. m) result (parse_craft sizes names.now line number craft.now) }
{
    let via = path_numbers(alloc, line, names, craft.via.as_slice())?;
    let arc = parse_arc(alloc, sizes, line, "arc", number)?;
    let lock = number_below_count(alloc, line, "lock", sizes.locks, craft.lock)?;
    check_range(alloc, line, "via", 1, sizes.path, craft.via.len() as u64)?;
    let onto = optional_arc(alloc, sizes, line, "onto", craft.onto)?;
    Ok(Move::Craft {
        arc,
        lock,
        via,
        onto,
    })
}

#[tactic(auto, unfolding(crate::specs::Moves::parse_replay))]
fn parse_replay(
    alloc: Global,
    sizes: Sizes,
    line: u32,
    number: u64,
    lock: u64,
    onto: u64,
) -> Result<Move, OfferFault>
    ensures { Gives (λ m. m) result (parse_replay sizes line number lock onto) }
{
    let arc = parse_arc(alloc, sizes, line, "arc", number)?;
    let lock = number_below_count(alloc, line, "lock", sizes.locks, lock)?;
    let onto = parse_arc(alloc, sizes, line, "onto", onto)?;
    Ok(Move::Replay { arc, lock, onto })
}

#[tactic(auto, unfolding(crate::specs::Moves::checked_hashkey))]
fn checked_hashkey(
    alloc: Global,
    sizes: Sizes,
    line: u32,
    path: PathList,
    key: &RawKey<'_>,
) -> Result<Hashkey, OfferFault>
    ensures { Gives (λ k. k) result (checked_hashkey sizes line path key.now) }
{
    let lock = number_below_count(alloc, line, "lock", sizes.locks, key.lock)?;
    let secret = parse_digest(alloc, line, "secret", key.secret.as_slice())?;
    check_range(alloc, line, "path", 0, sizes.path, key.path.len() as u64)?;
    check_range(alloc, line, "sigs", 0, sizes.path, key.sigs.len() as u64)?;
    let sigs = parse_sigs(alloc, line, key.sigs.as_slice())?;
    Ok(Hashkey {
        lock,
        secret,
        path,
        sigs,
    })
}

#[tactic(auto, unfolding(crate::specs::Moves::parse_unlock))]
fn parse_unlock(
    alloc: Global,
    sizes: Sizes,
    names: &[ByteText],
    line: u32,
    number: u64,
    key: &RawKey<'_>,
) -> Result<Move, OfferFault>
    requires names { length names.now ≤ 256 }
    ensures { Gives (λ m. m) result (parse_unlock sizes names.now line number key.now) }
{
    let path = path_numbers(alloc, line, names, key.path.as_slice())?;
    let arc = parse_arc(alloc, sizes, line, "arc", number)?;
    let key = checked_hashkey(alloc, sizes, line, path, key)?;
    Ok(Move::Raw { arc, key })
}

#[tactic(auto, unfolding(crate::specs::Moves::parse_claim))]
fn parse_claim(alloc: Global, sizes: Sizes, line: u32, number: u64) -> Result<Move, OfferFault>
    ensures { Gives (λ m. m) result (parse_claim sizes line number) }
{
    let arc = parse_arc(alloc, sizes, line, "arc", number)?;
    Ok(Move::Claim { arc })
}

#[tactic(auto, unfolding(crate::specs::Moves::parse_refund))]
fn parse_refund(alloc: Global, sizes: Sizes, line: u32, number: u64) -> Result<Move, OfferFault>
    ensures { Gives (λ m. m) result (parse_refund sizes line number) }
{
    let arc = parse_arc(alloc, sizes, line, "arc", number)?;
    Ok(Move::Refund { arc })
}

/// A transfer to a party that is known, or the first reason against its arc or its amount.
fn make_transfer(
    alloc: Global,
    sizes: Sizes,
    line: u32,
    number: u64,
    to: PartyId,
    amount: u64,
) -> Result<Move, OfferFault>
    ensures { Gives (λ m. m) result (make_transfer sizes line number to amount) }
{
    let arc = parse_arc(alloc, sizes, line, "arc", number)?;
    let units = units(alloc, line, "units", amount)?;
    Ok(Move::Transfer { arc, to, units })
}

#[tactic(auto, unfolding(crate::specs::Moves::parse_wait))]
fn parse_wait(
    alloc: Global,
    sizes: Sizes,
    line: u32,
    number: u64,
    height: u64,
) -> Result<Move, OfferFault>
    ensures { Gives (λ m. m) result (parse_wait sizes line number height) }
{
    let arc = parse_arc(alloc, sizes, line, "arc", number)?;
    let height = ranged_number(alloc, line, "height", 0, 1_000_000, height)?;
    Ok(Move::Wait { arc, height })
}

/// The move that a line asks for, or the first reason against a name or a limit of it.
#[tactic(auto, unfolding(crate::specs::Moves::parse_transfer))]
pub fn parse_move(
    alloc: Global,
    sizes: Sizes,
    names: &[ByteText],
    line: u32,
    raw: &RawMove<'_>,
) -> Result<Move, OfferFault>
    requires names { length names.now ≤ 256 }
    ensures { Gives (λ m. m) result (parse_move sizes names.now line raw.now) }
{
    match raw {
        RawMove::Publish { arc, terms } => make_publish(alloc, sizes, line, *arc, terms),
        RawMove::Craft { arc, craft } => parse_craft(alloc, sizes, names, line, *arc, craft),
        RawMove::Replay { arc, lock, onto } => parse_replay(alloc, sizes, line, *arc, *lock, *onto),
        RawMove::Raw { arc, key } => parse_unlock(alloc, sizes, names, line, *arc, key),
        RawMove::Claim { arc } => parse_claim(alloc, sizes, line, *arc),
        RawMove::Refund { arc } => parse_refund(alloc, sizes, line, *arc),
        RawMove::Transfer { arc, to, units } => {
            let to = party_of_name(alloc, line, names, to.as_slice())?;
            make_transfer(alloc, sizes, line, *arc, to, *units)
        }
        RawMove::Wait { arc, height } => parse_wait(alloc, sizes, line, *arc, *height),
    }
}
