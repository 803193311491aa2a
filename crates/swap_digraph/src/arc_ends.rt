//! The ends of an arc.

use swap_base::{NoMemory, PartyId, TryCopy};

/// A proposed transfer: it leaves `from`, its party, and enters `to`, its counterparty.
#[derive(Clone, Copy, Debug, PartialEq, Eq)]
pub struct ArcEnds {
    pub from: PartyId,
    pub to: PartyId,
}

impl TryCopy for ArcEnds {
    fn copy(&self) -> Result<ArcEnds, NoMemory> {
        Ok(*self)
    }
}
