//! Why a wallet isn't the one that a deal asks for.

use swap_base::{Fault, LockId};

/// What is wrong with a wallet.
#[derive(Clone, Copy, Debug, PartialEq, Eq)]
pub enum Misfit {
    /// The least lock with a key other than the deal's, or with a secret other than the deal's if
    /// the party leads it.
    WrongWallet(LockId),
}

/// Why there is no machine: the wallet, or want of memory.
pub type MachineFault = Fault<Misfit>;
