//! One ledger per arc: its history of calls and ticks, each with the reply of the table, and what
//! stands in it.
//!
//! The history of a `Ledger` is legal after any calls. Its answers are what the scans of that
//! history give. At every prefix the balances and the held amount add up to the arc's amount. A
//! refusal moves no units and leaves the contract as it was. `Facts` are answers over a list of
//! entries. A `LedgerHistory` and an `EntryList` keep ticks that follow each other by the same
//! number as one item, and contracts see the list of the entries.
//!
//! Read `specs/History.antt` first: legal histories, balances and the table of replies; then
//! `specs/Ledger.antt` for the words of the ledger's clauses.
#![tactic(auto)]

mod accounts;
mod balances;
mod boxed_entry;
mod entry;
mod entry_list;
mod facts;
mod fitting;
mod held_deal;
mod ledger;
mod ledger_history;
mod make_reply;
mod runs;
mod spread;

pub use accounts::Accounts;
pub use balances::history_accounts;
pub use boxed_entry::BoxedEntry;
pub use entry::{Book, Call, Entry, Sender, What};
pub use entry_list::EntryList;
pub use facts::{CallKind, Facts, Published, Settlement};
pub use fitting::{fits, is_adjacent};
pub use held_deal::share_deal;
pub use ledger::Ledger;
pub use ledger_history::LedgerHistory;
pub use runs::{Item, Run};
