//! Tests of the whole program that need something within its process: a strategy or a gate of a
//! test's own, a source that is watched, a call of a library. What is told of the program by texts
//! alone is asked of the built program.
#![tactic(auto)]

#[cfg(test)]
mod tests;
