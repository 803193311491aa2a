//! An unlock that is due.

use swap_base::{ArcId, LockId};

/// Where the hashkey of a due unlock comes from.
#[derive(Clone, Copy, Debug, PartialEq, Eq)]
pub enum Base {
    /// It was signed before.
    Signed,
    /// It is the party's own, which leads the lock.
    Own,
    /// The party puts its signature onto the hashkey that opened the lock on that leaving arc.
    Onto(ArcId),
}

/// An unlock that is due: on which arc, for which lock, and where its hashkey comes from.
#[derive(Clone, Copy, Debug, PartialEq, Eq)]
pub struct UnlockDue {
    pub arc: ArcId,
    pub lock: LockId,
    pub base: Base,
}
