//! The clock's turn: each ledger ticks once.

ghost use Rattle.std.specs.Prelude.{◌≡◌, ◌<◌, ◌≤◌, OnOk};
ghost use Rattle.party_threads.specs.Later.{IsClockLater};
ghost use Rattle.party_threads.specs.Ticks.{HasRoomForTicks, HasTickedOnce, HaveTicked, HaveClocksAdvanced, AreLedgerClocks};

use ledger_shared::{ClockPass, SharedLedger};
use std::sync::Wait;
use swap_base::NoMemory;

/// Ticks a ledger that has room for it.
fn tick<R: Wait>(
    rt: &R,
    ledger: &SharedLedger,
    pass: &mut ClockPass,
    ticks: u32,
) -> Result<(), NoMemory>
    requires lock { pass.old.lock ≡ ledger.now.lock }
    requires some { 1 ≤ ticks }
    requires below { ticks ≤ 1000 }
    requires room { HasRoomForTicks ticks pass.old }
    ensures later { IsClockLater pass.old pass.new }
    ensures ticked { OnOk result (HasTickedOnce ticks pass.old pass.new) }
{
    let _accepted = ledger.tick(rt, pass, ticks)?;
    Ok(())
}

/// Ticks each ledger in arc order.
pub fn take_clock_turn<R: Wait>(
    rt: &R,
    ledgers: &[SharedLedger],
    passes: &mut [Option<ClockPass>],
    ticks: u32,
) -> Result<(), NoMemory>
    requires some { 1 ≤ ticks }
    requires below { ticks ≤ 1000 }
    requires passes { AreLedgerClocks ticks ledgers.now passes.old }
    ensures gone_on { HaveClocksAdvanced passes.old passes.new }
    ensures ticked { OnOk result (HaveTicked ticks passes.old passes.new) }
{
    'arcs: for arc in 0..passes.len() {
        if let Some(pass) = &mut passes[arc] {
            tick(rt, &ledgers[arc], pass, ticks)?;
        }
    }
    Ok(())
}
