//! How a line ended.

/// What a call of `Lines::next` found.
#[derive(Clone, Copy, Debug, PartialEq, Eq)]
pub enum LineEnd {
    /// A line that a line feed ended.
    Ended,
    /// Bytes at the end of the input that no line feed ends.
    Rest,
    /// No further byte.
    End,
}
