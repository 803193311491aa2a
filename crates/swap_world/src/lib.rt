//! The world of a schedule: one ledger per arc, which events tick and call, and what each
//! conforming party knows and does.
//!
//! Read the run's definition in `swap_run` first, then `specs/Cast.antt`: who takes part in a job's
//! run.
#![tactic(auto)]

mod call_outcome;
mod chain_tick;
mod fair;
mod journals;
mod many;
mod player;
mod players;
mod quiet;
mod touching_arcs;
mod turn;
mod world;

pub use call_outcome::Told;
pub use fair::most_acts;
pub use player::Player;
pub use players::{WorldFault, WrongWallet, new_players, wrong_wallet};
pub use touching_arcs::arcs_by_party;
pub use world::World;
