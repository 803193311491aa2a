//! Where a party broke a rule of conduct, which entries are forged in its name (Herlihy 2018,
//! section 3), and where it was late: what a rule asked of it wasn't done within delta (section
//! 4.2).
//!
//! A party is judged (`Judged`) by the indexes of a swap and by the hashkeys of its unlock calls,
//! which are read once. What a rule asks is found once per party, lock or arc, and only then the
//! party's calls on the arc are gone over, so the ticks of a history cost nothing.
//!
//! Read `Conduct.antt`, `Forged.antt` and `Late.antt` of `swap_rules` first: the contracts cite
//! their definitions. `specs/Sent.antt` has the hashkeys that a party sent, in order of arc and
//! entry, and `specs/Standing.antt` what is read once of a party.
#![tactic(auto)]

mod bases;
mod calls;
mod conduct;
mod counting;
mod extending;
mod forged;
mod froms;
mod judged;
mod keys;
mod lates;
mod listing;
mod openings;
mod origin;
mod past;
mod standing;
mod validity;

pub use calls::{accepted, pick_call};
pub use extending::{extends, extends_without_party};
pub use froms::{claim_start, publish_start, refund_start, unlock_start};
pub use judged::Judged;
pub use keys::{first_key, has_parts, is_first_key, same_key, unlocks_on_own_arcs};
pub use lates::put_lates;
pub use listing::{put_broken, put_forgeries};
