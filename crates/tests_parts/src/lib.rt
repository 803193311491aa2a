//! Tests of digraphs, signatures and lists, of sources and sinks, and of the words after the
//! program's name, as tables; and the deal of two parties on which tests of ledgers run, by one
//! thread and by several.
#![tactic(auto)]

mod deals;
#[cfg(test)]
mod tests;

pub use deals::small_deal;
