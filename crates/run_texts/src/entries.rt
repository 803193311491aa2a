//! The line of an entry.

ghost use Rattle.std.specs.Prelude.{◌≡◌, ◌++◌, ◌∷◌, ℕ, OnOk};
ghost use Rattle.swap_base.specs.Text.{lines};
ghost use Rattle.swap_io.specs.Handed.{Hands};
ghost use Rattle.run_texts.specs.Words.{comma_name, path_text, unlock_text, call_text, publish_text, sender_text as sender_of};
ghost use Rattle.run_texts.specs.Report.{what_line, report_entry_line};
ghost use Rattle.run_texts.specs.Items.{item_line};

use command_input::{party_name, put_reply};
use escrow_core::Terms;
use ledger_core::{Call, Entry, EntryList, Item, Sender, What};
use swap_base::{ByteText, LockId, NoMemory, PartyId, Piece, put};
use swap_io::{Sink, TextFault, flush_waiting};

fn put_comma_name(out: &mut Vec<u8>, names: &[ByteText], p: PartyId) -> Result<(), NoMemory>
    ensures { OnOk result (out.new.items ≡ out.old.items ++ comma_name names.now 0 p) }
{
    put(out, &[Piece::Text(","), Piece::Bytes(party_name(names, p))])
}

/// The further names of a path, each after a comma.
fn put_further(out: &mut Vec<u8>, names: &[ByteText], path: &[PartyId]) -> Result<(), NoMemory>
    ensures { OnOk result (out.new.items ≡ out.old.items ++ lines (comma_name names.now) 0 path.now) }
{
    for p in path {
        put_comma_name(out, names, *p)?;
    }
    Ok(())
}

#[tactic(auto, unfolding(crate::specs::Words::path_text))]
fn put_path(
    out: &mut Vec<u8>,
    names: &[ByteText],
    first: PartyId,
    further: &[PartyId],
) -> Result<(), NoMemory>
    ensures { OnOk result (out.new.items ≡ out.old.items ++ path_text names.now (first ∷ further.now)) }
{
    put(out, &[Piece::Bytes(party_name(names, first))])?;
    put_further(out, names, further)?;
    Ok(())
}

#[tactic(auto, unfolding(crate::specs::Words::unlock_text))]
fn put_unlock(
    out: &mut Vec<u8>,
    names: &[ByteText],
    lock: LockId,
    path: &[PartyId],
) -> Result<(), NoMemory>
    ensures { OnOk result (out.new.items ≡ out.old.items ++ unlock_text names.now lock path.now) }
{
    match path {
        [] => put(out, &[Piece::Text("unlock "), Piece::Number(lock as u64)]),
        [first, further @ ..] => {
            put(
                out,
                &[
                    Piece::Text("unlock "),
                    Piece::Number(lock as u64),
                    Piece::Text(" via "),
                ],
            )?;
            put_path(out, names, *first, further)
        }
    }
}

#[tactic(auto, unfolding(crate::specs::Words::publish_text))]
fn put_publish(out: &mut Vec<u8>, is_correct: bool) -> Result<(), NoMemory>
    ensures { OnOk result (out.new.items ≡ out.old.items ++ publish_text is_correct) }
{
    if is_correct {
        put(out, &[Piece::Text("publish correct")])
    } else {
        put(out, &[Piece::Text("publish wrong")])
    }
}

#[tactic(auto, unfolding(crate::specs::Words::call_text))]
fn put_call(
    out: &mut Vec<u8>,
    names: &[ByteText],
    correct: &Terms,
    call: &Call,
) -> Result<(), NoMemory>
    ensures { OnOk result (out.new.items ≡ out.old.items ++ call_text names.now correct.now call.now) }
{
    match call {
        Call::Publish(terms) => put_publish(out, terms.same(correct)),
        Call::Unlock(key) => put_unlock(out, names, key.lock, key.path.as_slice()),
        Call::Claim => put(out, &[Piece::Text("claim")]),
        Call::Refund => put(out, &[Piece::Text("refund")]),
        Call::Transfer(to, units) => put(
            out,
            &[
                Piece::Text("transfer "),
                Piece::Number(*units),
                Piece::Text(" to "),
                Piece::Bytes(party_name(names, *to)),
            ],
        ),
    }
}

fn sender_text(names: &[ByteText], sender: Sender) -> &[u8]
    ensures { result.now ≡ sender_of names.now sender }
{
    match sender {
        Sender::Party(p) => party_name(names, p),
        Sender::Clock => &[],
    }
}

#[tactic(auto, unfolding(crate::specs::Report::what_line))]
fn put_entry(
    out: &mut Vec<u8>,
    names: &[ByteText],
    correct: &Terms,
    entry: &Entry,
) -> Result<(), NoMemory>
    ensures { OnOk result (out.new.items ≡ out.old.items ++ what_line names.now correct.now entry.now entry.now.what) }
{
    let What::Call(call) = &entry.what else {
        return Ok(());
    };
    put(
        out,
        &[
            Piece::Number(entry.height as u64),
            Piece::Text(" "),
            Piece::Bytes(sender_text(names, entry.sender)),
            Piece::Text(" "),
        ],
    )?;
    put_call(out, names, correct, call)?;
    put(out, &[Piece::Text(": ")])?;
    put_reply(out, entry.reply)?;
    put(out, &[Piece::Text("\n")])
}

fn put_item(
    out: &mut Vec<u8>,
    names: &[ByteText],
    correct: &Terms,
    item: &Item,
) -> Result<(), NoMemory>
    ensures { (number : ℕ) → OnOk result (out.new.items ≡ out.old.items ++ item_line names.now correct.now number item.now) }
{
    match item {
        Item::One(entry) => put_entry(out, names, correct, entry),
        Item::Ticks(_) => Ok(()),
    }
}

/// The lines of items, each handed on.
fn write_items<K: Sink>(
    sink: &mut K,
    out: &mut Vec<u8>,
    names: &[ByteText],
    correct: &Terms,
    items: &[Item],
) -> Result<(), TextFault>
    ensures { Hands (K.taken sink.old) (K.taken sink.new) (K.faults sink.old) (K.faults sink.new) out.old.items out.new.items
        (lines (item_line names.now correct.now) 0 items.now) result }
{
    for item in items {
        put_item(out, names, correct, item)?;
        flush_waiting(sink, out)?;
    }
    Ok(())
}

/// The lines of the entries that aren't ticks, handed on.
pub(crate) fn write_entries<K: Sink>(
    sink: &mut K,
    out: &mut Vec<u8>,
    names: &[ByteText],
    correct: &Terms,
    entries: &EntryList,
) -> Result<(), TextFault>
    ensures { Hands (K.taken sink.old) (K.taken sink.new) (K.faults sink.old) (K.faults sink.new) out.old.items out.new.items
        (lines (report_entry_line names.now correct.now) 0 entries.now) result }
{
    let (items, _) = entries.parts();
    write_items(sink, out, names, correct, items)
}
