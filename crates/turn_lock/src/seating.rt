//! How a lock gets its seats: each is split from the maker's, and claims its number.

ghost use Rattle.std.specs.Prelude.{◌≡◌, ◌+◌, ◌*◌, ◌%◌, ◌<◌, [], IfSome};
ghost use Rattle.turn_lock.specs.SeatHistory.{HaveAuthorsBelow, IsContinuedByAuthor};
ghost use Rattle.turn_lock.specs.Turns.{fresh, idle, busy, mark, key_opening, seat_number, known_key, IsBusy};

use crate::journal::Journal;
use crate::plays::{Ask, Claim, ClaimFirst, Give, Same};
use crate::view::{Start, TurnSeat, TurnTable};
use atomic_table::Table;
use std::alloc::Global;
use std::snapshot::Snapshot;
use std::sync::Wait;

/// A table with no number claimed, whose value is still with the caller, and its first seat.
pub(crate) fn vacant<T: Journal>(
    alloc: Global,
    value: &T,
    seats: u32,
) -> Option<(TurnTable<T>, TurnSeat<T>)>
    requires { HaveAuthorsBelow T.author seats (T.history value.now) }
    ensures history { IfSome result (λ r. T.history r.0.shared.key.value.value ≡ T.history value.now) }
    ensures seats { IfSome result (λ r. r.0.shared.key.seats ≡ seats) }
    ensures shape { IfSome result (λ r. (r.0.shared.table_id.words ≡ 2) × (r.0.shared.table_id.slots ≡ 1)) }
    ensures seat { IfSome result (λ r. (r.1.table_id ≡ r.0.shared.table_id) × (r.1.me ≡ (fresh (T.history value.now), []))) }
{
    let start = Start {
        value: Snapshot::of(value),
        seats,
    };
    let words = [4 * value.count() + 1, 0];
    match Table::vacant(alloc, &words, 1, &start) {
        Ok(pair) => Some(pair),
        Err(_) => None,
    }
}

/// A further seat, with no number.
pub(crate) fn split<T: Journal>(table: &TurnTable<T>, seat: &mut TurnSeat<T>) -> TurnSeat<T>
    requires table { seat.old.table_id ≡ table.now.shared.table_id }
    requires shape { (table.now.shared.table_id.words ≡ 2) × (table.now.shared.table_id.slots ≡ 1) }
    requires new { seat.old.me ≡ (fresh (T.history table.now.shared.key.value.value), []) }
    ensures seat { (seat.new.table_id ≡ seat.old.table_id) × (seat.new.me ≡ seat.old.me) }
    ensures other { (result.table_id ≡ seat.old.table_id) × (result.me ≡ seat.old.me) }
{
    table.shared.split_seat::<Same>(seat)
}

/// Claims the number 0. The seat then has the turn.
pub(crate) fn claim_first<T: Journal, R: Wait>(rt: &R, table: &TurnTable<T>, seat: &mut TurnSeat<T>)
    requires table { seat.old.table_id ≡ table.now.shared.table_id }
    requires shape { (table.now.shared.table_id.words ≡ 2) × (table.now.shared.table_id.slots ≡ 1) }
    requires some { 0 < table.now.shared.key.seats }
    requires new { seat.old.me ≡ (fresh (T.history table.now.shared.key.value.value), []) }
    ensures seat { seat.new.table_id ≡ seat.old.table_id }
    ensures turn { seat.new.me ≡ busy (T.history table.now.shared.key.value.value) 0 (T.history table.now.shared.key.value.value) }
{
    for _ in rt.forever() {
        let found = table.shared.fetch_or::<ClaimFirst>(seat, 1, 1);
        if found % 2 == 0 {
            return;
        }
    }
    unreachable!()
}

/// The first word of a turn that goes out, where it was free at that word.
pub(crate) fn taken(word: u64, waited: bool) -> u64
    requires { word % 4 ≡ 0 }
    ensures { result ≡ word + mark waited }
{
    if waited { word + 3 } else { word + 1 }
}

/// Says that a seat waits for the turn, which was out at that word. The seat that gives the turn
/// back then wakes one that sleeps.
pub(crate) fn ask<T: Journal>(table: &TurnTable<T>, seat: &mut TurnSeat<T>, word: u64)
    requires table { seat.old.table_id ≡ table.now.shared.table_id }
    requires shape { (table.now.shared.table_id.words ≡ 2) × (table.now.shared.table_id.slots ≡ 1) }
    ensures table { seat.new.table_id ≡ seat.old.table_id }
    ensures same { seat.new.me ≡ seat.old.me }
{
    let shared = &table.shared;
    if word % 4 == 1 {
        shared.compare_exchange::<Ask>(seat, 0, word, word + 2);
    }
}

/// Gives the turn back, with the value, whose further entries have the seat's number. It wakes one
/// that sleeps, where a seat said that it waits.
pub(crate) fn give_back<T: Journal>(table: &TurnTable<T>, seat: &mut TurnSeat<T>, value: T)
    requires table { seat.old.table_id ≡ table.now.shared.table_id }
    requires shape { (table.now.shared.table_id.words ≡ 2) × (table.now.shared.table_id.slots ≡ 1) }
    requires turn { IsBusy seat.old.me }
    requires further { IsContinuedByAuthor T.author (seat_number seat.old.me) (known_key seat.old.me) (T.history value) }
    ensures table { seat.new.table_id ≡ seat.old.table_id }
    ensures idle { seat.new.me ≡ idle (key_opening seat.old.me) (seat_number seat.old.me) (T.history value) }
{
    let shared = &table.shared;
    let count = value.count();
    let None = shared.exchange(seat, 0, Some(value)) else {
        unreachable!()
    };
    let found = shared.swap::<Give>(seat, 0, 4 * count);
    if found % 4 == 3 {
        shared.wake_one(0);
    }
}

fn claim<T: Journal, R: Wait>(rt: &R, table: &TurnTable<T>, seat: &mut TurnSeat<T>, k: u32)
    requires table { seat.old.table_id ≡ table.now.shared.table_id }
    requires shape { (table.now.shared.table_id.words ≡ 2) × (table.now.shared.table_id.slots ≡ 1) }
    requires below { k < table.now.shared.key.seats }
    requires number { (0 < k) × (k < 64) }
    requires new { seat.old.me ≡ (fresh (T.history table.now.shared.key.value.value), []) }
    ensures seat { seat.new.table_id ≡ seat.old.table_id }
    ensures number { seat.new.me ≡ idle (T.history table.now.shared.key.value.value) k (T.history table.now.shared.key.value.value) }
{
    for _ in rt.forever() {
        let found = table.shared.fetch_or::<Claim>(seat, 1, 1 << k);
        if (found >> k) % 2 == 0 {
            return;
        }
    }
    unreachable!()
}

/// The seat with the number k, which isn't 0.
pub(crate) fn next_seat<T: Journal, R: Wait>(
    rt: &R,
    table: &TurnTable<T>,
    maker: &mut TurnSeat<T>,
    k: u32,
) -> TurnSeat<T>
    requires table { maker.old.table_id ≡ table.now.shared.table_id }
    requires shape { (table.now.shared.table_id.words ≡ 2) × (table.now.shared.table_id.slots ≡ 1) }
    requires below { k < table.now.shared.key.seats }
    requires number { (0 < k) × (k < 64) }
    requires new { maker.old.me ≡ (fresh (T.history table.now.shared.key.value.value), []) }
    ensures maker { (maker.new.table_id ≡ maker.old.table_id) × (maker.new.me ≡ maker.old.me) }
    ensures table { result.table_id ≡ table.now.shared.table_id }
    ensures seat { result.me ≡ idle (T.history table.now.shared.key.value.value) k (T.history table.now.shared.key.value.value) }
{
    let mut seat = split(table, maker);
    claim(rt, table, &mut seat, k);
    seat
}
