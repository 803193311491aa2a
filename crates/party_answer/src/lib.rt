//! The party's own wallet as a function over bytes: what a wallet wrote down and what each ledger
//! did so far go in, and all that is useful comes out.
//!
//! It watches no chain and keeps nothing: whatever a wallet must not lose is in what it hands over.
//! `party_notes` reads this, and `useful_calls` says what is useful.
//!
//! Read `specs/Lines.antt` and `specs/Text.antt` first: the text that answers an input; then
//! `specs/Promised.antt`: what holds of an answer. What a wallet is promised that keeps to them stands
//! in `wallet_promise`.
#![tactic(auto)]

mod answering;
mod calls;
mod given;
mod line;
mod stale;
mod text;
mod timed;
mod unkept;
mod warned;

pub use answering::answer;
pub use given::Answer;
