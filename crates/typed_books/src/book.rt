//! Books, read entry by entry.

ghost use Rattle.ledger_core.specs.Runs.{ledger_entries, expand, run_ticks};
ghost use Rattle.typed_books.specs.Books.{AreTyped, IsTypedBook, IsTypedEntry};

use crate::call::visit_call;
use ledger_core::{Book, Entry, EntryList, Item, Run, What};

fn visit_entry(entry: &Entry)
    ensures { IsTypedEntry entry.now }
{
    match &entry.what {
        What::Call(call) => visit_call(call),
        What::Tick(by) => {
            let _by = *by;
        }
    }
}

fn visit_ticks(run: Run)
    ensures { AreTyped (run_ticks run) }
{
    let _by = run.by;
}

fn visit_item(item: &Item)
    ensures { AreTyped (ledger_entries item.now) }
{
    match item {
        Item::One(entry) => visit_entry(entry),
        Item::Ticks(run) => visit_ticks(*run),
    }
}

fn visit_items(items: &[Item])
    ensures { AreTyped (expand items.now) }
{
    'items: for item in items {
        visit_item(item);
    }
}

fn visit_history(history: &EntryList)
    ensures { AreTyped history.now }
{
    let (items, last) = history.parts();
    visit_items(items);
    visit_ticks(last);
}

fn visit_histories(histories: &[EntryList])
    ensures { IsTypedBook histories.now }
{
    'histories: for history in histories {
        visit_history(history);
    }
}

/// Reads a book from end to end.
pub fn visit_book(book: &Book)
    ensures { IsTypedBook book.now.histories }
{
    visit_histories(book.histories.as_slice());
}
