//! Tests of single ledgers, their entries and the indexes over them, of what a party learns, and of
//! journals of hashkeys, most as tables.
#![tactic(auto)]

#[cfg(test)]
mod tests;
