//! What the program is asked to do.

/// What the words ask for.
#[derive(Clone, Copy, Debug, PartialEq, Eq)]
pub enum Task {
    /// An input is read, and what the order asks for is written.
    Input(Order),
    /// A job is read and raced on threads, with `ticks` ticks a round. Its report is written, or
    /// its transcript.
    Race { ticks: u32, transcript: bool },
    /// The job of a number is made, without an input.
    Number(Request),
}

/// What is done with an input by the thread that reads it.
#[derive(Clone, Copy, Debug, PartialEq, Eq)]
pub enum Order {
    /// A job is read, and the times of its deal are written.
    Check,
    /// A job is read, its events are replayed, and the report is written, or the transcript.
    Run { transcript: bool },
    /// A plain job is read, and the made one is written.
    Make,
    /// A transcript is read, and its report is written.
    Audit,
    /// Proposed transfers are read, and those that can be swapped are written as plain jobs.
    Clear,
    /// Several swaps on shared chains are read and run, and their reports are written with what the
    /// chains' accounts hold.
    Many,
}

/// The job of a number, with its first events, is written; or it is run and its summary is written.
#[derive(Clone, Copy, Debug, PartialEq, Eq)]
pub struct Request {
    pub seed: u32,
    pub parties: u8,
    pub events: u32,
    pub summary: bool,
}
