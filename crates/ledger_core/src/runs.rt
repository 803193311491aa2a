//! Ticks by the same number, as one.

ghost use Rattle.std.specs.Prelude.{◌≡◌, ◌<◌, ◌≤◌, ◌-◌, ◌+◌, ◌++◌, ◌∷◌, ◌^◌, [], IfOk, IfSome, length, drop, count_by};
ghost use Rattle.ledger_core.specs.Facts.{is_call};
ghost use Rattle.ledger_core.specs.History.{height};
ghost use Rattle.ledger_core.specs.Ledger.{tick_entry};
ghost use Rattle.ledger_core.specs.Runs.{run_ticks, ledger_entries, IsRight, IsRightRun};

use crate::boxed_entry::BoxedEntry;
use crate::entry::What;
use escrow_core::Reply;
use swap_base::{NoMemory, TryCopy};

/// Ticks by the same number of heights, one after another.
#[derive(Clone, Copy, Debug, PartialEq, Eq)]
pub struct Run {
    /// The height before the first.
    pub above: u32,
    /// By how many heights each of them raises the ledger.
    pub by: u32,
    /// How many there are.
    pub count: u32,
}

/// An entry, or ticks that follow each other by the same number. Ticks are many and calls are few,
/// so only these have memory of their own.
#[derive(Debug, Drop)]
pub enum Item {
    One(BoxedEntry),
    Ticks(Run),
}

impl TryCopy for Item {
    fn copy(&self) -> Result<Item, NoMemory> {
        match self {
            Item::One(entry) => Ok(Item::One(entry.copy()?)),
            Item::Ticks(run) => Ok(Item::Ticks(*run)),
        }
    }
}

/// A run without ticks.
pub(crate) fn no_ticks() -> Run
    ensures ticks { run_ticks result ≡ [] }
    ensures right { IsRightRun result }
    ensures count { result.count ≡ 0 }
{
    Run {
        above: 0,
        by: 0,
        count: 0,
    }
}

/// A run of one tick by k, after which the height is `height`.
pub(crate) fn single(k: u32, height: u32) -> Run
    requires { k ≤ height }
    ensures ticks { run_ticks result ≡ tick_entry k height Reply.Accepted ∷ [] }
    ensures right { IsRightRun result }
{
    Run {
        above: height - k,
        by: k,
        count: 1,
    }
}

/// The run with one more tick, where that goes on from it.
pub(crate) fn longer(run: Run, k: u32, height: u32) -> Option<Run>
    requires low { k ≤ height }
    requires right { IsRightRun run }
    ensures ticks { IfSome result (λ r. run_ticks r ≡ run_ticks run ++ tick_entry k height Reply.Accepted ∷ []) }
    ensures right { IfSome result IsRightRun }
{
    if run.by == k && run.above + run.by * run.count == height - k && run.count < u32::MAX {
        Some(Run {
            above: run.above,
            by: k,
            count: run.count + 1,
        })
    } else {
        None
    }
}

/// Two runs as one, where the second goes on from the first.
#[tactic(auto, using(crate::proofs::Ticks::ticks_join))]
pub(crate) fn joined(run: Run, more: Run) -> Option<Run>
    requires right { IsRightRun run }
    requires right_more { IsRightRun more }
    ensures ticks { IfSome result (λ r. run_ticks r ≡ run_ticks run ++ run_ticks more) }
    ensures right { IfSome result IsRightRun }
{
    if run.by == more.by
        && run.above + run.by * run.count == more.above
        && run.count <= u32::MAX - more.count
    {
        Some(Run {
            above: run.above,
            by: run.by,
            count: run.count + more.count,
        })
    } else {
        None
    }
}

/// The last n ticks of a run.
#[tactic(auto, using(crate::proofs::Ticks::last_right))]
pub(crate) fn last_run(run: Run, n: usize) -> Run
    requires within { n ≤ run.count }
    requires right { IsRightRun run }
    ensures ticks { run_ticks result ≡ drop (run.count - n) (run_ticks run) }
    ensures right { IsRightRun result }
{
    let count = n as u32;
    Run {
        above: run.above + run.by * (run.count - count),
        by: run.by,
        count,
    }
}

/// How many entries an item stands for.
#[tactic(auto, using(crate::proofs::Ticks::length_ticks))]
pub(crate) fn all_entries(item: &Item) -> usize
    ensures { result ≡ length (ledger_entries item.now) }
{
    match item {
        Item::One(_) => 1,
        Item::Ticks(run) => run.count as usize,
    }
}

/// A copy of the last n entries of an item.
#[tactic(auto, using(crate::proofs::Ticks::length_ticks))]
pub(crate) fn ending(item: &Item, n: usize) -> Result<Item, NoMemory>
    requires some { 0 < n }
    requires within { n ≤ length (ledger_entries item.now) }
    requires right { IsRight item.now }
    ensures entries { IfOk result (λ i. ledger_entries i ≡ drop (length (ledger_entries item.now) - n) (ledger_entries item.now)) }
    ensures right { IfOk result IsRight }
{
    match item {
        Item::One(entry) => Ok(Item::One(entry.copy()?)),
        Item::Ticks(run) => Ok(Item::Ticks(last_run(*run, n))),
    }
}

/// By how many heights a run raises the ledger.
#[tactic(auto, using(crate::proofs::Ticks::height_ticks))]
pub(crate) fn run_rise(run: Run) -> u32
    requires { height (run_ticks run) < 2 ^ 32 }
    ensures { result ≡ height (run_ticks run) }
{
    run.by * run.count
}

/// By how many heights an item raises the ledger.
pub(crate) fn item_rise(item: &Item) -> u32
    requires { height (ledger_entries item.now) < 2 ^ 32 }
    ensures { result ≡ height (ledger_entries item.now) }
{
    match item {
        Item::One(entry) => match &entry.what {
            What::Call(_) => 0,
            What::Tick(k) => *k,
        },
        Item::Ticks(run) => run_rise(*run),
    }
}

/// How many calls an item stands for.
#[tactic(auto, using(crate::proofs::Ticks::calls_ticks))]
pub(crate) fn call_count(item: &Item) -> usize
    ensures value { result ≡ count_by (λ e. is_call e.what) (ledger_entries item.now) }
    ensures few { result ≤ 1 }
{
    match item {
        Item::One(entry) => match &entry.what {
            What::Call(_) => 1,
            What::Tick(_) => 0,
        },
        Item::Ticks(_) => 0,
    }
}
