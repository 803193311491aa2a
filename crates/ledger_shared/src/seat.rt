//! Seats at the lock of a ledger, which know entries.

ghost use Rattle.std.specs.Prelude.{◌≡◌, true, false, length, ◌∷◌, [], IfOk, IfErr};
ghost use Rattle.ledger_shared.specs.Seat.{knowing, new_seat, ContinuesSeat, IsContinued};

use crate::shelf::Shelf;
use ledger_core::Ledger;
use std::alloc::Global;
use std::marker::Model;
use std::sync::Wait;
use turn_lock::{TurnLock, TurnSeat, ValueBack};

/// A seat at the lock of one ledger.
#[derive(Drop)]
pub(crate) struct LedgerSeat {
    seat: TurnSeat<Shelf>,
}

impl Model for LedgerSeat {
    ghost use Rattle.ledger_shared.specs.Seat.{SeatState, inside_seat, KnowsLines};

    ghost Value = { SeatState };

    ghost view = { inside_seat };

    ghost invariant = { KnowsLines };
}

/// A lock round a ledger, and its three seats.
#[derive(Drop)]
pub(crate) struct Seated {
    pub lock: TurnLock<Shelf>,
    pub first: LedgerSeat,
    pub second: LedgerSeat,
    pub clock: LedgerSeat,
}

/// A lock round the ledger, with the seats of the arc's party, of its counterparty and of the
/// clock. Without memory the ledger comes back.
pub(crate) fn seat_three<R: Wait>(
    rt: &R,
    alloc: Global,
    ledger: Box<Ledger>,
) -> Result<Seated, Box<Ledger>>
    ensures first { IfOk result (λ s. s.first ≡ new_seat s.lock.lock ledger.value 0) }
    ensures second { IfOk result (λ s. s.second ≡ new_seat s.lock.lock ledger.value 1) }
    ensures clock { IfOk result (λ s. s.clock ≡ new_seat s.lock.lock ledger.value 2) }
    ensures three { IfOk result (λ s. s.lock.seats ≡ 3) }
    ensures back { IfErr result (λ l. l ≡ ledger) }
{
    match TurnLock::new(rt, alloc, Shelf { ledger }, 3) {
        Ok((lock, seats)) => {
            let (first, second, clock) = three(seats);
            Ok(Seated {
                lock,
                first: LedgerSeat { seat: first },
                second: LedgerSeat { seat: second },
                clock: LedgerSeat { seat: clock },
            })
        }
        Err(back) => {
            let ValueBack { value } = back;
            Err(value.ledger)
        }
    }
}

/// The members of a list of three.
fn three<X: Drop>(mut list: Vec<X>) -> (X, X, X)
    requires { length list.items ≡ 3 }
    ensures { list.items ≡ result.0 ∷ result.1 ∷ result.2 ∷ [] }
{
    let c = list.remove(2);
    let b = list.remove(1);
    let a = list.remove(0);
    (a, b, c)
}

/// Waits for the turn, and gives the ledger.
pub(crate) fn take<R: Wait>(rt: &R, lock: &TurnLock<Shelf>, seat: &mut LedgerSeat) -> Box<Ledger>
    requires lock { seat.old.lock ≡ lock.now.lock }
    requires idle { seat.old.holds ≡ false }
    ensures turn { seat.new ≡ knowing seat.old true result.value.history }
    ensures ledger { ContinuesSeat seat.old result.value }
{
    let Shelf { ledger } = lock.take(rt, &mut seat.seat);
    ledger
}

/// Gives the turn back, where each further entry is of the seat's side. It waits for nobody.
pub(crate) fn give(lock: &TurnLock<Shelf>, seat: &mut LedgerSeat, ledger: Box<Ledger>)
    requires lock { seat.old.lock ≡ lock.now.lock }
    requires turn { seat.old.holds ≡ true }
    requires deal { ledger.value.deal ≡ seat.old.deal }
    requires arc { ledger.value.arc ≡ seat.old.arc }
    requires further { IsContinued seat.old ledger.value.history }
    ensures { seat.new ≡ knowing seat.old false ledger.value.history }
{
    lock.give(&mut seat.seat, Shelf { ledger });
}

/// The ledger, which goes on from what each seat knows, and has of each side just what its seat
/// knows.
pub(crate) fn close(
    lock: TurnLock<Shelf>,
    first: LedgerSeat,
    second: LedgerSeat,
    clock: LedgerSeat,
) -> Box<Ledger>
    requires three { lock.seats ≡ 3 }
    requires first { (first.lock ≡ lock.lock) × (first.number ≡ 0) × (first.holds ≡ false) }
    requires second { (second.lock ≡ lock.lock) × (second.number ≡ 1) × (second.holds ≡ false) }
    requires clock { (clock.lock ≡ lock.lock) × (clock.number ≡ 2) × (clock.holds ≡ false) }
    ensures first { ContinuesSeat first result.value }
    ensures second { ContinuesSeat second result.value }
    ensures clock { ContinuesSeat clock result.value }
{
    let mut all = first.seat;
    lock.join(&mut all, second.seat);
    lock.join(&mut all, clock.seat);
    let Shelf { ledger } = lock.close(all);
    ledger
}
