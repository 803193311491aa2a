//! The turn of one ledger is taken while a call on another is answered.

ghost use Rattle.std.specs.Prelude.{◌≡◌, ◌∷◌, [], length, IfOk};
ghost use Rattle.turn_lock.specs.Turns.{IsIdle};
ghost use Rattle.swap_digraph.specs.Deal.{IsWellSized};

use crate::tests::passes::shared_ledger;
use ledger_core::{Call, Entry, Ledger, share_deal};
use ledger_shared::{Pass, SharedLedger};
use std::alloc::Global;
use std::process::Abort;
use std::sync::Wait;
use std::sync::atomic::{AtomicU64, Ordering};
use std::test::Fail;
use std::thread;
use std::thread::Threads;
use swap_digraph::Deal;
use tests_parts::small_deal;
use turn_lock::{Journal, TurnLock, TurnSeat};

const TRIES: u64 = 1_000_000_000;

/// A ledger of whose entries one seat makes all.
#[derive(Drop)]
struct Held {
    ledger: Ledger,
}

impl Journal for Held {
    type Entry = Entry;

    ghost history = { λ h. h.ledger.history };

    ghost author = { λ e. 0 };

    fn count(&self) -> u64 {
        self.ledger.len() as u64
    }
}

/// The first arc's ledger under a lock with one seat.
fn locked<R: Wait>(
    rt: &R,
    alloc: Global,
    deal: &Deal,
) -> Result<(TurnLock<Held>, TurnSeat<Held>), Fail>
    requires { IsWellSized deal.now }
    ensures lock { IfOk result (λ l. l.1.table_id ≡ l.0.lock) }
    ensures idle { IfOk result (λ l. IsIdle l.1.me) }
{
    let ledger = Ledger::new(alloc, &share_deal(alloc, deal)?, 0)?;
    match TurnLock::new(rt, alloc, Held { ledger }, 1) {
        Ok((lock, seats)) => Ok((lock, only(seats))),
        Err(_) => Err("no memory".into()),
    }
}

fn only<X: Drop>(mut list: Vec<X>) -> X
    requires { length list.items ≡ 1 }
    ensures { list.items ≡ result ∷ [] }
{
    list.remove(0)
}

fn is_set(flag: &AtomicU64) -> bool {
    for _ in 0..TRIES {
        if flag.load(Ordering::SeqCst) == 1 {
            return true;
        }
    }
    false
}

/// Keeps the turn until the flag is set, and tells whether it was.
fn hold_turn<R: Wait>(
    rt: &R,
    lock: &TurnLock<Held>,
    mut seat: TurnSeat<Held>,
    taken: &AtomicU64,
    done: &AtomicU64,
) -> bool
    requires lock { seat.table_id ≡ lock.now.lock }
    requires idle { IsIdle seat.me }
{
    let value = lock.take(rt, &mut seat);
    taken.store(1, Ordering::SeqCst);
    let answered = is_set(done);
    lock.give(&mut seat, value);
    answered
}

fn claims<R: Wait>(rt: &R, ledger: &SharedLedger, pass: &mut Pass) -> bool
    requires { pass.old.lock ≡ ledger.now.lock }
{
    ledger.call(rt, pass, Call::Claim).is_ok()
}

/// Claims once the flag is set, and then sets the other.
fn delayed_claim<R: Wait>(
    rt: &R,
    ledger: &SharedLedger,
    mut pass: Pass,
    taken: &AtomicU64,
    done: &AtomicU64,
)
    requires { pass.lock ≡ ledger.now.lock }
{
    if is_set(taken) && claims(rt, ledger, &mut pass) {
        done.store(1, Ordering::SeqCst);
    }
}

/// A call on a ledger is answered beside the turn.
fn check_neighbor_answered<R: Threads + Wait + Sync + Abort>(
    rt: &R,
    lock: &TurnLock<Held>,
    seat: TurnSeat<Held>,
    ledger: &SharedLedger,
    pass: Pass,
)
    requires lock { seat.table_id ≡ lock.now.lock }
    requires idle { IsIdle seat.me }
    requires pass { pass.lock ≡ ledger.now.lock }
{
    let taken = AtomicU64::new(0);
    let done = AtomicU64::new(0);
    let (taken, done) = (&taken, &done);
    let (_, answered) = thread::join(
        rt,
        move ||
            requires { pass.lock ≡ ledger.now.lock }
        { delayed_claim(rt, ledger, pass, taken, done) },
        move ||
            requires { (seat.table_id ≡ lock.now.lock) × IsIdle seat.me }
        { hold_turn(rt, lock, seat, taken, done) },
    );
    assert!(rt; answered);
}

/// Whether a call is answered beside the turn, on another ledger that is shared for it.
fn is_answered<R: Threads + Wait + Sync + Abort>(
    rt: &R,
    alloc: Global,
    deal: &Deal,
    lock: &TurnLock<Held>,
    seat: TurnSeat<Held>,
) -> Result<(), Fail>
    requires sized { IsWellSized deal.now }
    requires lock { seat.table_id ≡ lock.now.lock }
    requires idle { IsIdle seat.me }
{
    let (ledger, pass, _, _) = shared_ledger(rt, alloc, deal)?;
    check_neighbor_answered(rt, lock, seat, &ledger, pass);
    Ok(())
}

fn check_answered<R: Threads + Wait + Sync + Abort>(
    rt: &R,
    alloc: Global,
    deal: &Deal,
) -> Result<(), Fail>
    requires { IsWellSized deal.now }
{
    let (lock, seat) = locked(rt, alloc, deal)?;
    is_answered(rt, alloc, deal, &lock, seat)
}

#[test]
fn a_call_is_answered_while_another_ledgers_turn_is_taken(rt: HostRuntime) -> Result<(), Fail> {
    let deal = small_deal(rt.alloc())?;
    check_answered(&rt, rt.alloc(), &deal)
}
