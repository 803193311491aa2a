//! A hashkey.

use hash_signature::Sig;
use swap_base::{Digest, Listed, LockId, NoMemory, TryCopy};
use swap_digraph::PathList;

/// Signatures, one per vertex of a path.
pub type SigList = Listed<Sig>;

/// What opens a lock. In hashkeys mode `sigs[j]` is the signature of `path[j]` over the suffix that
/// begins at `j`, and the leader is last; in timelocks mode both lists are empty.
#[derive(Debug, Drop)]
pub struct Hashkey {
    pub lock: LockId,
    pub secret: Digest,
    pub path: PathList,
    pub sigs: SigList,
}

impl TryCopy for Hashkey {
    fn copy(&self) -> Result<Hashkey, NoMemory> {
        Ok(Hashkey {
            lock: self.lock,
            secret: self.secret,
            path: self.path.copy()?,
            sigs: self.sigs.copy()?,
        })
    }
}

/// Whether a hashkey opens a lock, or the first thing that is wrong with it.
#[derive(Clone, Copy, Debug, PartialEq, Eq)]
pub enum HashkeyAnswer {
    Valid,
    /// The secret doesn't hash to the hashlock.
    WrongSecret,
    /// The path isn't one from the arc's counterparty to the lock's leader, or the lists don't fit.
    WrongPath,
    /// The least place whose signature isn't its vertex's over its suffix.
    WrongSignature(u8),
}
