//! Which line stands next.

/// Which line stands next, after the header line.
#[derive(Clone, Copy, Debug, PartialEq, Eq)]
pub enum Place {
    /// That of the next ledger, or the last one.
    Ledger,
    /// That of an entry.
    Entries,
    /// None: the last line was read.
    Over,
}
