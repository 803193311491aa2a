//! A round: every ledger is shared, every party and the clock have their turns, and every ledger is
//! closed.

ghost use Rattle.std.specs.Prelude.{◌≡◌, ◌<◌, ◌≤◌, ℕ, OnOk, length, slice_index_or, All, false, true};
ghost use Rattle.swap_world.specs.Actors.{AreHeld};
ghost use Rattle.swap_world.specs.Cast.{job_cast};
ghost use Rattle.party_threads.specs.Took.{IsSeated, Took};
ghost use Rattle.party_threads.specs.Race.{IsRound};
ghost use Rattle.party_threads.specs.Standing.{StandsHome, AllHaveRoom, race_book, race_state};

use crate::gate::Gate;
use crate::handing::{close, hand_out};
use crate::home::Home;
use crate::play::play;
use crate::setting::Setting;
use crate::side::Side;
use crate::turn::Turn;
use ledger_shared::SharedLedger;
use std::sync::Wait;
use std::thread;
use std::thread::Threads;
use swap_base::{NoMemory, PartyId};
use swap_run::Strategies;

fn take_turn<R: Wait, A: Strategies>(
    rt: &R,
    side: &Side<'_>,
    strategies: &A,
    ticks: u32,
    turn: &mut Turn,
)
    requires some { 1 ≤ ticks }
    requires below { ticks ≤ 1000 }
    requires seated { IsSeated (A.holds strategies.now) side.now.job.now side.now.ledgers.now ticks side.now.me turn.old }
    ensures { Took (A.gives strategies.now) side.now.job.now ticks side.now.me turn.old turn.new }
{
    turn.failed = play(rt, side, strategies, ticks, turn).is_err();
}

/// Every actor's turn, on at most this number of threads. Each thread takes turns that follow one
/// another, and one of the threads is the caller's.
fn take_turns<R: Threads + Wait + Sync, A: Strategies + Sync, G: Gate>(
    rt: &R,
    setting: &Setting<'_, A, G>,
    round: u32,
    ledgers: &[SharedLedger],
    threads: usize,
    turns: &mut [Turn],
)
    requires threads { 0 < threads }
    requires few { length turns.old ≤ 256 }
    requires some { 1 ≤ setting.now.ticks }
    requires below { setting.now.ticks ≤ 1000 }
    requires seated { (i : ℕ) (t : Turn) → i < length turns.old
        → IsSeated (A.holds setting.now.hooks.strategies.now) setting.now.job.now ledgers.now setting.now.ticks i (slice_index_or turns.old i t) }
    ensures took { (i : ℕ) (t : Turn) → i < length turns.old
        → Took (A.gives setting.now.hooks.strategies.now) setting.now.job.now setting.now.ticks i (slice_index_or turns.old i t) (slice_index_or turns.new i t) }
    ensures number { length turns.new ≡ length turns.old }
{
    let job = setting.job;
    let strategies = setting.hooks.strategies;
    let gate = setting.hooks.gate;
    let ticks = setting.ticks;
    thread::for_each_mut(
        rt,
        turns,
        threads,
        &|i, turn: &mut Turn|
            requires { IsSeated (A.holds strategies.now) job.now ledgers.now ticks i turn.now × (i < 256) × (1 ≤ ticks) × (ticks ≤ 1000) }
            ensures { Took (A.gives strategies.entry.now) job.entry.now ticks i turn.entry.now turn.exit.now }
        {
            gate.pass(rt, i as PartyId, round);
            let side = Side {
                ledgers,
                job,
                me: i as PartyId,
            };
            take_turn(rt, &side, strategies, ticks, turn)
        },
    );
}

/// Whether each turn had memory enough.
fn all_done(turns: &[Turn]) -> bool
    ensures { result ≡ true → All (λ t. t.failed ≡ false) turns.now }
{
    turns.iter().all(|t| !t.failed)
}

/// One round. Where a turn wanted memory the others have their turns all the same, and every ledger
/// is closed.
pub(crate) fn round<R: Threads + Wait + Sync, A: Strategies + Sync, G: Gate>(
    rt: &R,
    setting: &Setting<'_, A, G>,
    number: u32,
    threads: usize,
    ledgers: &mut [Option<Home>],
    turns: &mut [Turn],
) -> Result<(), NoMemory>
    requires threads { 0 < threads }
    requires some { 1 ≤ setting.now.ticks }
    requires below { setting.now.ticks ≤ 1000 }
    requires stands { StandsHome setting.now.job.now ledgers.old turns.old }
    requires held { AreHeld (A.holds setting.now.hooks.strategies.now) setting.now.job.now.roles }
    requires room { AllHaveRoom setting.now.ticks setting.now.job.now.deal (race_book ledgers.old) }
    ensures stands { OnOk result (StandsHome setting.now.job.now ledgers.new turns.new) }
    ensures round { OnOk result (IsRound (A.gives setting.now.hooks.strategies.now) (job_cast setting.now.job.now) setting.now.ticks
        (race_state setting.now.job.now ledgers.old turns.old) (race_state setting.now.job.now ledgers.new turns.new)) }
{
    let deal = &setting.job.deal;
    let shared = hand_out(rt, setting.alloc, deal, ledgers, turns)?;
    take_turns(rt, setting, number, shared.as_slice(), threads, turns);
    let done = all_done(turns);
    close(deal, shared, ledgers, turns);
    if done { Ok(()) } else { Err(NoMemory) }
}
