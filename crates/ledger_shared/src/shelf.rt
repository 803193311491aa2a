//! The ledger as the value of a lock, with a history that names its deal and its arc.

use ledger_core::{Entry, Ledger};
use swap_base::ArcId;
use swap_digraph::Deal;
use turn_lock::Journal;

/// A line of the history that the lock keeps: the deal and the arc, and then each entry with the
/// number of the seat that makes such entries. No value of it is made.
#[derive(Drop)]
pub enum Line {
    Head(Deal, ArcId),
    Made(u8, Entry),
}

/// The ledger lies in a box, so that what goes out of the lock and back is a pointer.
#[derive(Drop)]
pub struct Shelf {
    pub ledger: Box<Ledger>,
}

impl Journal for Shelf {
    type Entry = Line;

    ghost use Rattle.ledger_shared.specs.Lines.{entry_lines, line_author};

    ghost history = { λ s. entry_lines s.ledger.value.deal s.ledger.value.arc s.ledger.value.history };

    ghost author = { line_author };

    fn count(&self) -> u64 {
        self.ledger.len() as u64 + 1
    }
}
