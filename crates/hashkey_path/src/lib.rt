//! Hashkeys: a secret, the path that it took from a party to its leader, and nested signatures over
//! the suffixes of that path (Herlihy 2018, section 4.1).
//!
//! Read `specs/Hashkey.antt` first: `IsValidHashkey` speaks of all suffixes at once,
//! `hashkey_answer` says what `check` answers. `specs/Signed.antt` says what `first`, `extend` and
//! their likes of `held.rt` make, and `specs/Digest.antt` what a deal's id is taken of.
#![tactic(auto)]

mod checking;
mod digest;
mod hashkey;
mod held;
mod law;
mod path;
mod sign;
mod suffix;

pub use checking::check;
pub use digest::deal_digest;
pub use hashkey::{Hashkey, HashkeyAnswer, SigList};
pub use held::{extend_held, first_held};
pub use law::deal_bytes_tell_apart;
pub use sign::{KeyBack, extend, first};
