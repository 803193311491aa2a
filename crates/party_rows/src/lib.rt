//! A deal without anybody's seed: `keys` gives a party's row of its seed, and `deal` makes a deal's
//! header line of everybody's rows; and what the inputs of all of a party's commands share: lines
//! that are each ended by a line feed, the lines that tell a digest behind a word, the party of a
//! name, and how long a header may be.
//!
//! Read `specs/Lines.antt`, `specs/Digests.antt` and `specs/Names.antt` first, then
//! `specs/Keys.antt`: `keys_output` and `deal_output` say what is written of a text, or the first
//! reason against it; then `specs/Offer.antt`, `specs/Row.antt`, `specs/Rows.antt` and
//! `specs/Dealt.antt`, which say what a plain offer and rows are, and which deal they make;
//! `specs/Laws.antt` has the law.
#![tactic(auto)]

mod dealing;
mod dealt;
mod digests;
mod laws;
mod lines;
mod names;
mod offer;
mod reason;
mod row;
mod row_line;
mod rows;
mod seeding;

pub use dealing::deal;
pub use digests::{agreed_line, read_seed_line, seed_line, this_word};
pub use laws::{dealt_is_made, dealt_line_is_made};
pub use lines::{ended_lines, first_line, no_line, refused, short_header};
pub use names::party_named;
pub use reason::{DealFault, DealReason};
pub use row::{NamedRow, Row};
pub use seeding::{keys, own_row};
