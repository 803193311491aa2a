//! What a seat knows, and the rule of the table at which the seats are.

use crate::journal::Journal;
use atomic_table::{Seat, Table, TableRule};
use std::alloc::Global;
use std::collections::LinkedList;
use std::snapshot::Snapshot;

/// What a seat knows: whether it has the turn, the history that the lock was made with, and its
/// numbers, each with the history that was seen. No value of it is made.
pub struct View<E> {
    pub holds: bool,
    pub opening: LinkedList<E>,
    pub parts: LinkedList<(u64, LinkedList<E>)>,
}

/// What the table is told: the value at the start, and how many seats there are.
#[derive(Drop)]
pub(crate) struct Start<T> {
    pub value: Snapshot<T>,
    pub seats: u32,
}

/// The rule of the table: of its two words the first counts the history, and says whether a turn is
/// out and whether a seat waits for it; the second says which numbers were claimed. Its one slot
/// has the value.
pub(crate) struct Turns;

impl<T: Journal> TableRule<Option<T>, View<T::Entry>, Start<T>> for Turns {
    ghost use Rattle.turn_lock.specs.Turns.{IsKept, fresh};

    ghost holds = { λ key s. IsKept T.history T.author (T.history key.value.value) key.seats s };

    ghost first = { λ key. fresh (T.history key.value.value) };
}

/// A caller's seat at one lock. It has no bytes.
pub type TurnSeat<T> = Seat<Option<T>, View<<T as Journal>::Entry>>;

pub(crate) type TurnTable<T> = Table<
    Option<T>,
    View<<T as Journal>::Entry>,
    Start<T>,
    Turns,
    Global,
>;
