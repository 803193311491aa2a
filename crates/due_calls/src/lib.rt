//! What is due for a conforming party (Herlihy 2018, section 4.2), and what is read for it in a
//! book or in the party's knowledge of one.
//!
//! In the first phase a leader publishes the correct terms on its leaving arcs at once, and a
//! follower when every arc that enters it is good. In the second phase a party reveals hashkeys on
//! those arcs, claims where every lock is opened, and takes back what has expired.
//!
//! What is read is one `ledger_core::Facts` per arc. Nothing here takes memory, and each answer
//! asks a few questions per arc and lock.
//!
//! Read `Party.antt` and `Due.antt` of `swap_rules` first: the contracts cite their definitions;
//! then `specs/Unlocks.antt`.
#![tactic(auto)]

mod claim;
mod heights;
mod locks;
mod publish;
mod readings;
mod refund;
mod rest;
mod unlock;
mod unlock_due;

pub use claim::{due_claim, is_due_claim};
pub use heights::{arc_height, least_expiry, publish_height, ready_height};
pub use locks::{expiry, is_open, is_triggered, leads};
pub use publish::{due_publish, has_published, may_publish};
pub use readings::{is_correct, is_good, is_ready, leads_one, published};
pub use refund::{due_refund, is_due_refund};
pub use rest::rest_deadline;
pub use unlock::{due_base, due_unlock};
pub use unlock_due::{Base, UnlockDue};
