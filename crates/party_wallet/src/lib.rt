//! What a party of a deal signs with: from its seed one key for each lock, which is spent by the
//! one hashkey that is made with it.
//!
//! Read `specs/Keys.antt` first: what a seed gives a party to sign with. `specs/Fits.antt` says
//! whether that is what a deal states.
#![tactic(auto)]

mod anew;
mod bare;
mod fitting;
mod held;
mod signed;
mod wallet;
mod wallet_key;

pub use anew::{sign_onto_anew, sign_own_anew};
pub use signed::Signed;
pub use wallet::Wallet;
