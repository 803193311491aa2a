//! The party's own wallet for programs in C, and for whatever calls C: bytes in, bytes and a number
//! out. Nothing is kept between calls.
//!
//! Each call puts a text into the caller's buffer, whole or not at all, and answers a status with
//! the text's length. What C sees stands in `swap_party.h`.
//!
//! Read `specs/Said.antt` first: what the calls say; then `specs/Program.antt`: what is said of the
//! program `swap`.
#![tactic(auto)]

mod answer;
mod check;
mod deal;
mod judge;
mod keys;
mod next;
mod said;
mod terms;

pub use answer::swap_party_answer;
pub use check::swap_party_check;
pub use deal::swap_party_deal;
pub use judge::swap_party_judge;
pub use keys::swap_party_keys;
pub use next::swap_party_next;
pub use said::Said;
pub use terms::swap_party_terms;
