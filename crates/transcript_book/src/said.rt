//! What the line of an entry says.

use escrow_core::Reply;
use ledger_core::{Sender, What};

/// An entry as its line says it: heights aren't written.
#[derive(Debug, Drop)]
pub struct Said {
    pub sender: Sender,
    pub what: What,
    pub reply: Reply,
}

/// Why a text says nothing.
#[derive(Clone, Copy, Debug, PartialEq, Eq)]
pub enum Misspelling {
    /// No transcript's writer writes it.
    Misspelt,
}
