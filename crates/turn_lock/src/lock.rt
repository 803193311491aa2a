//! The lock.

ghost use Rattle.std.specs.Prelude.{◌≡◌, ℕ, ◌+◌, ◌<◌, ◌≤◌, [], ◌∷◌, ◌++◌, length, vec_len, vec_capacity, false, IfOk, IfErr, IsTrue};
ghost use Rattle.std.specs.List.{AllByRecursion};
ghost use Rattle.turn_lock.specs.SeatHistory.{HaveAuthorsBelow, IsContinuedByAuthor, has_number, Covers};
ghost use Rattle.turn_lock.specs.Turns.{idle, busy, joined_view, key_opening, seat_number, known_key, IsIdle, IsBusy, IsResting, AreNumberedSeats};

use crate::journal::Journal;
use crate::plays::{Glue, Take};
use crate::seating::{ask, claim_first, give_back, next_seat, split, taken, vacant};
use crate::view::{TurnSeat, TurnTable};
use std::alloc::Global;
use std::marker::Model;
use std::sync::Wait;

/// A lock round a value.
#[derive(Drop)]
pub struct TurnLock<T: Journal> {
    table: TurnTable<T>,
    seats: u32,
}

impl<T: Journal> Model for TurnLock<T> {
    ghost use Rattle.std.specs.Prelude.{◌≡◌, ◌<◌};
    ghost use Rattle.turn_lock.specs.Value.{LockState};

    ghost Value = { LockState };

    ghost view = { λ l. record { lock = l.table.shared.table_id; seats = l.seats } };

    ghost invariant = { λ l. ((l.table.shared.table_id.words ≡ 2) × (l.table.shared.table_id.slots ≡ 1))
        × ((l.table.shared.key.seats ≡ l.seats) × (0 < l.seats)) };
}

/// No memory for the lock: the value comes back.
#[derive(Drop)]
pub struct ValueBack<T> {
    pub value: T,
}

impl<T: Journal> TurnLock<T> {
    /// A lock round the value, and a seat for each number below `seats`. It waits where a number
    /// can't be claimed, which no run meets.
    pub fn new<R: Wait>(
        rt: &R,
        alloc: Global,
        value: T,
        seats: u32,
    ) -> Result<(TurnLock<T>, Vec<TurnSeat<T>>), ValueBack<T>>
        requires seats { (1 ≤ seats) × (seats ≤ 8) }
        requires authors { HaveAuthorsBelow T.author seats (T.history value) }
        ensures lock { IfOk result (λ r. r.0.seats ≡ seats) }
        ensures count { IfOk result (λ r. length r.1.items ≡ seats) }
        ensures seats { IfOk result (λ r. AreNumberedSeats r.0.lock (T.history value) 0 r.1.items) }
        ensures back { IfErr result (λ b. b.value ≡ value) }
    {
        let Ok(mut all) = Vec::with_capacity(alloc, seats as usize) else {
            return Err(ValueBack { value });
        };
        let Some((table, mut maker)) = vacant(alloc, &value, seats) else {
            return Err(ValueBack { value });
        };
        let mut first = split(&table, &mut maker);
        claim_first(rt, &table, &mut first);
        give_back(&table, &mut first, value);
        add(&mut all, first);
        for k in 1..seats {
            let seat = next_seat(rt, &table, &mut maker, k);
            add(&mut all, seat);
        }
        Ok((TurnLock { table, seats }, all))
    }

    /// Waits for the turn, and gives the value. Its history goes on from what the seat knew, and
    /// has no further entry of the seat's number.
    pub fn take<R: Wait>(&self, rt: &R, seat: &mut TurnSeat<T>) -> T
        requires lock { seat.old.table_id ≡ self.now.lock }
        requires idle { IsIdle seat.old.me }
        ensures lock { seat.new.table_id ≡ seat.old.table_id }
        ensures turn { seat.new.me ≡ busy (key_opening seat.old.me) (seat_number seat.old.me) (T.history result) }
        ensures further { Covers T.author (T.history result) (seat_number seat.old.me, known_key seat.old.me) }
    {
        let shared = &self.table.shared;
        // Who slept can't know whether others sleep still, and takes the turn as one for which
        // somebody waits.
        let mut waited = false;
        for _ in rt.forever() {
            let word = shared.peek(0);
            if word % 4 == 0 {
                let next = taken(word, waited);
                let found = shared.compare_exchange::<Take>(seat, 0, word, next);
                if found == word {
                    let Some(value) = shared.exchange(seat, 0, None) else {
                        unreachable!()
                    };
                    return value;
                }
            } else {
                ask(&self.table, seat, word);
                waited = true;
                shared.park(rt, 0, (word % 0x1_0000_0000) as u32 | 2);
            }
        }
        unreachable!()
    }

    /// Gives the turn back, and waits for nobody. Each entry past those that were taken has the
    /// seat's number.
    pub fn give(&self, seat: &mut TurnSeat<T>, value: T)
        requires lock { seat.old.table_id ≡ self.now.lock }
        requires turn { IsBusy seat.old.me }
        requires further { IsContinuedByAuthor T.author (seat_number seat.old.me) (known_key seat.old.me) (T.history value) }
        ensures lock { seat.new.table_id ≡ seat.old.table_id }
        ensures idle { seat.new.me ≡ idle (key_opening seat.old.me) (seat_number seat.old.me) (T.history value) }
    {
        give_back(&self.table, seat, value);
    }

    /// The seat has the numbers of both, each with what its seat knew. It takes no memory and waits
    /// for nobody.
    pub fn join(&self, seat: &mut TurnSeat<T>, other: TurnSeat<T>)
        requires lock { (seat.old.table_id ≡ self.now.lock) × (other.table_id ≡ self.now.lock) }
        requires idle { IsResting seat.old.me }
        requires other { IsResting other.me }
        ensures lock { seat.new.table_id ≡ seat.old.table_id }
        ensures both { seat.new.me ≡ (joined_view seat.old.me.0 other.me.0, []) }
    {
        self.table.shared.join_seat::<Glue>(seat, other);
    }

    /// The value. Its history goes on from all that each seat knew, and each number's entries in it
    /// are exactly those that its seat knew. It takes no memory.
    pub fn close(self, seat: TurnSeat<T>) -> T
        requires lock { seat.table_id ≡ self.lock }
        requires idle { IsResting seat.me }
        requires all { (k : ℕ) → k < self.seats → IsTrue (has_number k seat.me.0.parts) }
        ensures { AllByRecursion (Covers T.author (T.history result)) seat.me.0.parts }
    {
        let TurnLock { table, seats: _ } = self;
        let mut closed = table.close_with(seat);
        let slot = closed.take(0);
        closed.free();
        let Some(value) = slot else { unreachable!() };
        value
    }
}

/// Adds an item where there is room.
fn add<X: Drop>(all: &mut Vec<X>, item: X)
    requires { vec_len all.old < vec_capacity all.old }
    ensures items { all.new.items ≡ all.old.items ++ item ∷ [] }
    ensures capacity { vec_capacity all.old ≤ vec_capacity all.new }
{
    match all.push(item) {
        Ok(()) => {}
        Err(_) => unreachable!(),
    }
}
