//! The rules of a swap over finished histories (Herlihy 2018, sections 3 and 4): what is due, which
//! parties kept their conduct, which were late or forged, how each party ended, and what is found
//! of a book.
//!
//! Read `specs/Conduct.antt` first, then `specs/Late.antt`, `specs/Forged.antt`,
//! `specs/Outcome.antt` and `specs/Findings.antt`: they are the rule book that every program above
//! answers by.
//!
//! `specs/Laws.antt` has the laws: what holds of every book that keeps the rules, whatever the
//! others do (Herlihy 2018, section 3).
#![tactic(auto)]

mod finding;
mod laws;
mod outcome;

pub use finding::{Finding, Rule};
pub use laws::{
    accepted_is_well_sized, all_is_dealt, all_is_transferred, every_book_is_safe,
    knowledge_conducts, late_publish_is_idle, nothing_found, nothing_is_forged,
    only_harm_is_left_out, rounds_are_in_time, ticks_make_nothing_due, units_are_kept,
    unnamed_is_safe, unpublished_loses_nothing, walking_away_is_safe,
};
pub use outcome::Outcome;
