//! An event line as it stands: names are texts that lie in the line, and numbers are of any size.

use offer_moves::{RawMove, TextRef};

/// An event.
#[derive(Debug, Drop)]
pub enum RawEvent<'v> {
    Tick {
        arc: u64,
        by: Option<u64>,
    },
    Look {
        name: TextRef<'v>,
        arc: u64,
    },
    Act {
        name: TextRef<'v>,
    },
    Call {
        name: TextRef<'v>,
        mv: RawMove<'v>,
    },
    Crash {
        name: TextRef<'v>,
        after: u64,
        image: u64,
    },
}
