//! An arbiter's judgement: by what the wallets agreed on and a transcript of every ledger, which
//! deal it is, and what is found of it.
//!
//! Read `specs/Output.antt` first: what is written of a text, or the first reason against it; then
//! `specs/Agreements.antt`, `specs/Ledgers.antt`, `specs/Marks.antt` and `specs/Json.antt`; then
//! `specs/Promised.antt`: what is promised of it, and `specs/Harmless.antt`: what harmless has to do
//! with what is useful.
#![tactic(auto)]

mod agreements;
mod form;
mod json;
mod judging;
mod laws;
mod ledgers;
mod marks;
mod reason;
mod text;

pub use form::Form;
pub use judging::{Judgement, judge};
pub use laws::{harmless_is_useless, one_digest_one_agreement};
pub use marks::is_harmless;
pub use reason::{JudgeFault, JudgeReason};
