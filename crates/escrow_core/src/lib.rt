//! The hashed timelock contract of an arc: its terms, and its replies to unlock, claim and refund
//! (Herlihy 2018, section 4).
//!
//! Read `specs/Table.antt` first: the rows of the table of replies.
#![tactic(auto)]

mod contract;
mod decisions;
mod lock_list;
mod reply;
mod terms;
mod times;

pub use contract::Contract;
pub use lock_list::LockList;
pub use reply::Reply;
pub use terms::{Terms, stated_terms};
pub use times::lesser;
