//! Ranges of numbers and of lengths.

ghost use Rattle.std.specs.Prelude.{◌≤◌, IfOk};
ghost use Rattle.swap_base.specs.Fault.{Gives};
ghost use Rattle.offer_moves.specs.FieldLimits.{ranged_number, check_range};

use command_input::{OfferFault, over_limit};
use std::alloc::Global;

/// The number is from low to high.
#[tactic(auto, unfolding(crate::specs::FieldLimits::check_range))]
pub fn check_range(
    alloc: Global,
    line: u32,
    field: &str,
    low: u64,
    high: u64,
    number: u64,
) -> Result<(), OfferFault>
    ensures { Gives (λ u. u) result (check_range line field.now low high number) }
{
    if low <= number && number <= high {
        return Ok(());
    }
    Err(over_limit(alloc, line, field.as_bytes(), number))
}

/// The number itself, where it is from low to high.
#[tactic(auto, unfolding(crate::specs::FieldLimits::ranged_number, crate::specs::FieldLimits::check_range))]
pub fn ranged_number(
    alloc: Global,
    line: u32,
    field: &str,
    low: u32,
    high: u32,
    number: u64,
) -> Result<u32, OfferFault>
    ensures exact { Gives (λ n. n) result (ranged_number line field.now low high number) }
    ensures within { IfOk result (λ n. (low ≤ n) × (n ≤ high)) }
{
    if low as u64 <= number && number <= high as u64 {
        return Ok(number as u32);
    }
    Err(over_limit(alloc, line, field.as_bytes(), number))
}
