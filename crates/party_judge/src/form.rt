//! How a judgement is written.

/// How a judgement is written.
#[derive(Clone, Copy, Debug, PartialEq, Eq)]
pub enum Form {
    /// Line by line.
    Lines,
    /// As JSON, on one line.
    Json,
}
