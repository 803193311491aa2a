//! Jobs that nobody writes by hand: `make` fills in what the parties' seeds give a deal. A
//! `Generator` gives a whole job and its events from a number, and the wallets of its parties to a
//! caller that runs it.
//!
//! Read `specs/Made.antt` first: what seeds give. Then read `specs/Drawn.antt` and
//! `specs/Events.antt`: what a number gives. `specs/Word.antt` says what is drawn.
#![tactic(auto)]

mod arcs;
mod draws;
mod generator;
mod line;
mod making;
mod plain;
mod seeds;
mod wallets;

pub use generator::{Generator, generate};
pub use line::put_event;
pub use making::{all_timelocks, make};
