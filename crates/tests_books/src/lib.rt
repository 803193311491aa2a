//! Tests of hashkeys, of the digests of deals, and of calls of libraries that the program never
//! makes; and of shared ledgers: a look, full senders, two ledgers at once, and threads against a
//! ledger of one thread.
#![tactic(auto)]

#[cfg(test)]
mod tests;
