//! The units of one ledger.

/// The two balances and the held amount of a ledger, in units of its asset.
#[derive(Clone, Copy, Debug, PartialEq, Eq)]
pub struct Accounts {
    pub party: u64,
    pub counterparty: u64,
    pub held: u64,
}
