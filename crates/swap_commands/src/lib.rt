//! What the program does for each command, over a source and a sink.
//!
//! Read `specs/Output.antt` first: what is written for an input (of several swaps,
//! `specs/Many.antt`); then `specs/Promised.antt`: what is promised of the histories that a report
//! shows; then `specs/Says.antt`: what each status says of a command. A job is read line by line
//! (`Input.antt` of `command_input`), its events by one walk (`walk.rt`), and each command but the
//! audit has a file of its own, whose function says `StatusSays`.
#![tactic(auto)]

mod check;
mod clear;
mod finish;
mod generating;
mod header;
mod make;
mod many;
mod orders;
mod racing;
mod replay;
mod run;
mod walk;

pub use generating::generate;
pub use orders::run_order;
pub use racing::{RaceOrder, enter, race};
