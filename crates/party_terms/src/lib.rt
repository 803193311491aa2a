//! The terms that a party's owner agrees to: what it pays and is paid, where and until when, and
//! the digest to agree on with the others.
//!
//! Read `specs/Terms.antt` first: `terms_output` says what is written of a header line and its
//! lines of context, or the first reason against them; then `specs/Context.antt`,
//! `specs/Times.antt` with its laws in `specs/Laws.antt`, and `specs/Text.antt`.
#![tactic(auto)]

mod agreed;
mod context;
mod heights;
mod laws;
mod lines;
mod own_terms;
mod text;

pub use agreed::{Agreed, read_agreed};
pub use context::ContextLine;
pub use laws::heights_hold;
pub use own_terms::terms;
