//! Which line stands next.

use swap_base::Listed;
use swap_job::Finish;

/// The line before a swap's header.
#[derive(Debug, Drop)]
pub struct SwapLine {
    /// The line's number.
    pub number: u32,
    /// The chains of the swap's arcs.
    pub chains: Listed<u8>,
}

/// Which line of many swaps stands next.
#[derive(Debug, Drop)]
pub enum Stage {
    /// The first one.
    First,
    /// A line of a chain, of a swap or of the finish.
    Words,
    /// The header of a swap, behind this line.
    Header(SwapLine),
    /// An event: the finish was read.
    Over(Finish),
}
