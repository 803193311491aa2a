//! How a book ended for a party.

/// How a party ended, by what it lost and what it got (Herlihy 2018, section 3). It lost the
/// leaving arcs that were triggered. It got the entering arcs that were correct and claimed.
#[derive(Clone, Copy, Debug, PartialEq, Eq)]
pub enum Outcome {
    /// It lost nothing and got nothing.
    NoDeal,
    /// It lost nothing and got something.
    FreeRide,
    /// It lost something and didn't get all.
    Underwater,
    /// It lost all and got all.
    Deal,
    /// It lost something, but not all, and got all.
    Discount,
}
