//! Numbers within limits.

ghost use Rattle.std.specs.Prelude.{◌≤◌, IfOk};
ghost use Rattle.swap_base.specs.Fault.{Gives};
ghost use Rattle.many_lines.specs.Fields.{most_units, parse_units};

use transcript_book::{WordFault, read_bounded};

/// The most units of an account, or of a payment.
const MOST_UNITS: u64 = 1_000_000_000_000_000;

/// The units that a field says.
pub(crate) fn parse_units(word: &[u8]) -> Result<u64, WordFault>
    ensures exact { Gives (λ n. n) result (parse_units word.now) }
    ensures low { IfOk result (λ n. n ≤ most_units) }
{
    read_bounded(MOST_UNITS + 1, word)
}
