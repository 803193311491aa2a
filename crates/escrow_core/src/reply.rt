//! What a ledger replies to a call or a tick.

use swap_base::LockId;

/// A reply. Every one but `Accepted` is a refusal, which changes nothing but the history.
#[derive(Clone, Copy, Debug, PartialEq, Eq)]
pub enum Reply {
    Accepted,
    Settled,
    NotCounterparty,
    NotParty,
    AlreadyUnlocked,
    WrongSecret,
    WrongPath,
    WrongSignature,
    /// The last height at which the hashkey would have been accepted.
    TooLate(u64),
    /// The least closed lock.
    StillLocked(LockId),
    NothingLocked,
    /// The first height at which a refund is accepted.
    NotExpired(u64),
    NoContract,
    AlreadyPublished,
    /// The sender's balance, in units.
    NoFunds(u64),
    /// The sender has as many entries as a ledger takes; leaves no entry.
    SenderFull,
    /// The ledger has as many ticks as it takes, or would pass its last height; leaves no entry.
    ClockFull,
}
