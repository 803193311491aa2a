//! The auditor of a finished swap: every ledger is replayed, and a book is either legal, with its
//! report, or has a first reply that isn't the table's.
//!
//! Anyone can check a swap so: nothing that a book states is taken as it is but the calls and ticks
//! themselves.
//!
//! Read `WellFormed` of `ledger_core` first: the books that are audited; then `specs/Audit.antt`:
//! what an audit answers; and `specs/Accepted.antt`: a book without its refused calls. The report
//! is that of `outcome_rules`.
#![tactic(auto)]

mod accepted;
mod auditing;
mod found;
mod replay;
mod same_reply;

pub use accepted::accepted_only;
pub use auditing::{audit_book, replay_book};
pub use found::Found;
pub use outcome_rules::Report;
pub use replay::{AuditFault, BadReply, replay_entry};
