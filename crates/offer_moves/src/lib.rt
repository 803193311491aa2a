//! Reads the fields of a JSON object (RFC 8259), each with the reason why it refuses; and of such
//! fields one move of an offer, of an event line or of a script: its names, its numbers and texts,
//! and where it stands.
//!
//! Read `specs/Fields.antt` first: each reader answers what its definition answers, unless memory
//! runs out; then `specs/Moves.antt`: `parse_move` is the move that is asked for, or the first
//! reason against it.
#![tactic(auto)]

mod field_limits;
mod fields;
mod hexadecimal;
mod limits;
mod moves;
mod names;
mod object;
mod party_names;
mod placed;
mod raw;
mod reading;
mod text;

pub use field_limits::{check_range, ranged_number};
pub use fields::{
    Member, allow_only, field_array, field_value, is_object, member_text, read_list,
    read_number_field, read_optional_number, read_optional_text, read_text_field, read_texts,
};
pub use hexadecimal::parse_digest;
pub use moves::{Sizes, deal_sizes, parse_arc, parse_move};
pub use object::parse_object;
pub use party_names::party_of_name;
pub use placed::{check_adjacent, check_deviator, check_place};
pub use raw::{MoveKind, RawCraft, RawKey, RawMove, RawTerms};
pub use reading::read_move;
pub use text::TextRef;
