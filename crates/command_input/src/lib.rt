//! Input that is read line by line: its lines, what stops the reading, and how a command and its
//! program end; and why an input is refused: the reason, the names of the parties that it may speak
//! of, and the line that tells it.
//!
//! Read `specs/Lines.antt` first: the lines of a text, and those that aren't blank with their
//! numbers; then `specs/Input.antt`: what each step of reading promises of the lines ahead, and the
//! most bytes of an input. `specs/Line.antt` has the line of each reason.
#![tactic(auto)]

mod escaped;
mod exit;
mod fault;
mod input;
mod line;
mod lines;
mod makers;
mod party_words;
mod reason;
mod refusal;
mod status;
mod words;

pub use exit::{Exit, Told, refusal_text};
pub use fault::{InputFault, no_line};
pub use input::{INPUT_LIMIT, Input};
pub use line::{put_names, refusal_line};
pub use lines::{filled_lines, is_blank};
pub use makers::{
    bad_name, duplicate, missing, over_limit, unknown, unknown_field, wrong_hex, wrong_kind,
};
pub use party_words::{party_name, put_reply};
pub use reason::{OfferFault, Reason};
pub use refusal::{HeaderFault, Refusal, nameless, with_names};
pub use status::{Status, unread, written_status};
pub use words::collect_words;
