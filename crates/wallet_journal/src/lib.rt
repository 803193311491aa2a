//! A journal of the hashkeys that a party signed, on a disk that may lose what isn't synced.
//!
//! Read `specs/Device.antt` first: what a crash may leave. `specs/Layout.antt` says what is
//! recorded, `specs/Journal.antt` what the calls keep.
#![tactic(auto)]

mod bodies;
mod contents;
mod disk;
mod failures;
mod fault;
mod journal;
mod making;
mod memory;
mod opening;
mod reading;
mod storing;
mod writing;

pub use disk::{DISK_BYTES, Disk};
pub use fault::{OpenFault, RecordFault, Unopened};
pub use journal::Journal;
pub use memory::MemoryDisk;
pub use reading::SignedKeys;
