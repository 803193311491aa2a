//! Which line stands next.

use crate::one_ledger::OneLedger;

/// Which line stands next.
#[derive(Drop)]
pub enum Stage {
    /// The line before those of a ledger, or the last line.
    Between,
    /// A line of a ledger that is passed over.
    Passing,
    /// A line of a ledger that is read.
    Reading(OneLedger),
    /// None: the last line was read.
    Over,
}
