//! A job with its wallets.

use party_wallet::Wallet;
use swap_job::Job;

/// An accepted job, with the wallets that its purpose needs.
#[derive(Drop)]
pub struct Prepared {
    pub job: Job,
    /// One place per party, where the purpose needs wallets: that of a party that conforms and has
    /// a seed.
    pub wallets: Vec<Option<Wallet>>,
    /// The least bound that the deal may have, in arcs: no path that ends in a leader has more.
    pub need: u32,
}
