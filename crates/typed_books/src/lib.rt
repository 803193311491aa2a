//! What the program's own types say of a book, whoever made its calls: its numbers are below the
//! bounds of their types, its digests have 32 bytes and its signatures 67 digests.
//!
//! A type's bounds are known of a value once it is read, so a book is read from end to end; nothing
//! is changed or answered.
//!
//! Read `specs/Books.antt` first.
#![tactic(auto)]

mod book;
mod call;

pub use book::visit_book;
