//! The lines of ledgers, handed on to a sink.

ghost use Rattle.std.specs.Prelude.{◌≡◌, ◌≤◌, ◌++◌, ◌∷◌, ℕ, [], length, OnOk};
ghost use Rattle.swap_base.specs.Text.{lines};
ghost use Rattle.swap_io.specs.Handed.{Hands};
ghost use Rattle.ledger_core.specs.Runs.{run_ticks};
ghost use Rattle.run_texts.specs.Texts.{count_text, entries_text, item_text, ledger_text};

use crate::entry::{put_entry, put_tick};
use ledger_core::{Book, Entry, EntryList, Item, Run};
use swap_base::{ArcId, NoMemory, Piece, put};
use swap_io::{Sink, TextFault, flush_waiting};

/// The lines of ticks, each handed on.
fn write_ticks<K: Sink>(sink: &mut K, out: &mut Vec<u8>, run: Run) -> Result<(), TextFault>
    ensures { Hands (K.taken sink.old) (K.taken sink.new) (K.faults sink.old) (K.faults sink.new) out.old.items out.new.items
        (entries_text (run_ticks run)) result }
{
    'ticks: for _ in 0..run.count {
        put_tick(out, run.by)?;
        flush_waiting(sink, out)?;
    }
    Ok(())
}

/// The line of an entry, handed on.
fn write_entry<K: Sink>(sink: &mut K, out: &mut Vec<u8>, entry: &Entry) -> Result<(), TextFault>
    ensures { Hands (K.taken sink.old) (K.taken sink.new) (K.faults sink.old) (K.faults sink.new) out.old.items out.new.items
        (entries_text (entry.now ∷ [])) result }
{
    put_entry(out, entry)?;
    flush_waiting(sink, out)
}

fn write_item<K: Sink>(sink: &mut K, out: &mut Vec<u8>, item: &Item) -> Result<(), TextFault>
    ensures { (number : ℕ) → Hands (K.taken sink.old) (K.taken sink.new) (K.faults sink.old) (K.faults sink.new) out.old.items out.new.items
        (item_text number item.now) result }
{
    match item {
        Item::One(entry) => write_entry(sink, out, entry),
        Item::Ticks(run) => write_ticks(sink, out, *run),
    }
}

/// The lines of the entries that items stand for, each handed on.
fn write_items<K: Sink>(sink: &mut K, out: &mut Vec<u8>, items: &[Item]) -> Result<(), TextFault>
    ensures { Hands (K.taken sink.old) (K.taken sink.new) (K.faults sink.old) (K.faults sink.new) out.old.items out.new.items
        (lines item_text 0 items.now) result }
{
    for item in items {
        write_item(sink, out, item)?;
    }
    Ok(())
}

/// The lines of entries, each handed on.
fn write_entries<K: Sink>(
    sink: &mut K,
    out: &mut Vec<u8>,
    entries: &EntryList,
) -> Result<(), TextFault>
    ensures { Hands (K.taken sink.old) (K.taken sink.new) (K.faults sink.old) (K.faults sink.new) out.old.items out.new.items
        (entries_text entries.now) result }
{
    let (items, last) = entries.parts();
    write_items(sink, out, items)?;
    write_ticks(sink, out, last)
}

/// Appends the line before the entries of an arc, with their number.
fn put_count(out: &mut Vec<u8>, arc: ArcId, entries: &EntryList) -> Result<(), NoMemory>
    ensures { OnOk result (out.new.items ≡ out.old.items ++ count_text arc entries.now) }
{
    put(
        out,
        &[
            Piece::Text("ledger "),
            Piece::Number(arc as u64),
            Piece::Text(" "),
            Piece::Number(entries.len() as u64),
            Piece::Text("\n"),
        ],
    )
}

/// The lines of a ledger, handed on.
fn write_ledger<K: Sink>(
    sink: &mut K,
    out: &mut Vec<u8>,
    arc: ArcId,
    entries: &EntryList,
) -> Result<(), TextFault>
    ensures { Hands (K.taken sink.old) (K.taken sink.new) (K.faults sink.old) (K.faults sink.new) out.old.items out.new.items
        (ledger_text arc entries.now) result }
{
    put_count(out, arc, entries)?;
    write_entries(sink, out, entries)
}

/// The lines of each ledger of the book, handed on.
pub(crate) fn write_ledgers<K: Sink>(
    sink: &mut K,
    out: &mut Vec<u8>,
    book: &Book,
) -> Result<(), TextFault>
    requires few { length book.now.histories ≤ 256 }
    ensures { Hands (K.taken sink.old) (K.taken sink.new) (K.faults sink.old) (K.faults sink.new) out.old.items out.new.items
        (lines ledger_text 0 book.now.histories) result }
{
    for (arc, entries) in book.histories.as_slice().iter().enumerate() {
        write_ledger(sink, out, arc as ArcId, entries)?;
    }
    Ok(())
}
