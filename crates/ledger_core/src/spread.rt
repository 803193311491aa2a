//! Entries one by one.

ghost use Rattle.std.specs.Prelude.{◌≡◌, ◌++◌, ◌∷◌, [], OnOk};
ghost use Rattle.std.specs.List.{AllByRecursion};
ghost use Rattle.ledger_core.specs.Runs.{run_ticks, ledger_entries, expand, IsRight, IsRightRun};

use crate::entry::{Entry, Sender, What};
use crate::runs::{Item, Run};
use escrow_core::Reply;
use swap_base::{NoMemory, TryCopy};

/// Adds the ticks of a run, one by one.
pub(crate) fn put_ticks(out: &mut Vec<Entry>, run: Run) -> Result<(), NoMemory>
    requires { IsRightRun run }
    ensures { OnOk result (out.new.items ≡ out.old.items ++ run_ticks run) }
{
    let mut height = run.above;
    'ticks: for _ in 0..run.count {
        height += run.by;
        out.push(Entry {
            sender: Sender::Clock,
            height,
            what: What::Tick(run.by),
            reply: Reply::Accepted,
        })?;
    }
    Ok(())
}

fn put_entry(out: &mut Vec<Entry>, entry: &Entry) -> Result<(), NoMemory>
    ensures { OnOk result (out.new.items ≡ out.old.items ++ entry.now ∷ []) }
{
    out.push(entry.copy()?)?;
    Ok(())
}

fn put_item(out: &mut Vec<Entry>, item: &Item) -> Result<(), NoMemory>
    requires { IsRight item.now }
    ensures { OnOk result (out.new.items ≡ out.old.items ++ ledger_entries item.now) }
{
    match item {
        Item::One(entry) => put_entry(out, entry)?,
        Item::Ticks(run) => put_ticks(out, *run)?,
    }
    Ok(())
}

/// Adds the entries of the items, one by one.
pub(crate) fn put_items(out: &mut Vec<Entry>, items: &[Item]) -> Result<(), NoMemory>
    requires { AllByRecursion IsRight items.now }
    ensures { OnOk result (out.new.items ≡ out.old.items ++ expand items.now) }
{
    for item in items {
        put_item(out, item)?;
    }
    Ok(())
}
