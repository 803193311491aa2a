//! The lines of a ledger.

ghost use Rattle.std.specs.Prelude.{◌≡◌, ◌++◌, ◌<◌, OnOk, length};
ghost use Rattle.swap_base.specs.Text.{lines};
ghost use Rattle.swap_io.specs.Handed.{Hands};
ghost use Rattle.swap_digraph.specs.Deal.{IsWellSized, amount};
ghost use Rattle.swap_digraph.specs.Graph.{ends};
ghost use Rattle.ledger_core.specs.History.{IsLegal, accounts, height};
ghost use Rattle.ledger_core.specs.Book.{IsLegalBook};
ghost use Rattle.run_texts.specs.Report.{ledger_head, ledger_end, ledger_report_text};

use crate::entries::write_entries;
use command_input::party_name;
use escrow_core::stated_terms;
use ledger_core::{Accounts, Book, EntryList, history_accounts};
use swap_base::{ArcId, ByteText, NoMemory, Piece, put};
use swap_digraph::{ArcEnds, Deal};
use swap_io::{Sink, TextFault, flush_waiting};

#[tactic(auto, unfolding(crate::specs::Report::ledger_head))]
fn put_head(
    out: &mut Vec<u8>,
    names: &[ByteText],
    deal: &Deal,
    number: ArcId,
) -> Result<(), NoMemory>
    requires sized { IsWellSized deal.now }
    requires arc { number < length deal.now.graph.arcs }
    ensures { OnOk result (out.new.items ≡ out.old.items ++ ledger_head names.now number (ends deal.now.graph number) (amount deal.now number)) }
{
    let arc = deal.graph.arcs()[number as usize];
    put(
        out,
        &[
            Piece::Text("ledger "),
            Piece::Number(number as u64),
            Piece::Text(" "),
            Piece::Bytes(party_name(names, arc.from)),
            Piece::Text(" -> "),
            Piece::Bytes(party_name(names, arc.to)),
            Piece::Text(" amount "),
            Piece::Number(deal.amounts.as_slice()[number as usize]),
            Piece::Text("\n"),
        ],
    )
}

#[tactic(auto, unfolding(crate::specs::Report::ledger_end))]
fn put_end(
    out: &mut Vec<u8>,
    names: &[ByteText],
    arc: ArcEnds,
    height: u32,
    accounts: Accounts,
) -> Result<(), NoMemory>
    ensures { OnOk result (out.new.items ≡ out.old.items ++ ledger_end names.now arc height accounts) }
{
    put(
        out,
        &[
            Piece::Text("end height "),
            Piece::Number(height as u64),
            Piece::Text(" "),
            Piece::Bytes(party_name(names, arc.from)),
            Piece::Text(" "),
            Piece::Number(accounts.party),
            Piece::Text(" "),
            Piece::Bytes(party_name(names, arc.to)),
            Piece::Text(" "),
            Piece::Number(accounts.counterparty),
            Piece::Text(" held "),
            Piece::Number(accounts.held),
            Piece::Text("\n"),
        ],
    )
}

/// The last line of a ledger.
fn put_last(
    out: &mut Vec<u8>,
    names: &[ByteText],
    deal: &Deal,
    number: ArcId,
    entries: &EntryList,
) -> Result<(), NoMemory>
    requires sized { IsWellSized deal.now }
    requires arc { number < length deal.now.graph.arcs }
    requires legal { IsLegal deal.now number entries.now }
    ensures { OnOk result (out.new.items ≡ out.old.items ++ ledger_end names.now (ends deal.now.graph number) (height entries.now)
        (accounts deal.now number entries.now)) }
{
    put_end(
        out,
        names,
        deal.graph.arcs()[number as usize],
        entries.height(),
        history_accounts(deal, number, entries),
    )
}

/// The lines of a ledger, handed on.
fn write_ledger<K: Sink>(
    sink: &mut K,
    out: &mut Vec<u8>,
    names: &[ByteText],
    deal: &Deal,
    number: ArcId,
    entries: &EntryList,
) -> Result<(), TextFault>
    requires sized { IsWellSized deal.now }
    requires arc { number < length deal.now.graph.arcs }
    requires legal { IsLegal deal.now number entries.now }
    ensures { Hands (K.taken sink.old) (K.taken sink.new) (K.faults sink.old) (K.faults sink.new) out.old.items out.new.items
        (ledger_report_text names.now deal.now number entries.now) result }
{
    let correct = stated_terms(deal, number);
    put_head(out, names, deal, number)?;
    write_entries(sink, out, names, &correct, entries)?;
    put_last(out, names, deal, number, entries)?;
    flush_waiting(sink, out)
}

/// The lines of each ledger of the book, handed on.
pub(crate) fn write_ledgers<K: Sink>(
    sink: &mut K,
    out: &mut Vec<u8>,
    names: &[ByteText],
    deal: &Deal,
    book: &Book,
) -> Result<(), TextFault>
    requires sized { IsWellSized deal.now }
    requires legal { IsLegalBook deal.now book.now.histories }
    ensures { Hands (K.taken sink.old) (K.taken sink.new) (K.faults sink.old) (K.faults sink.new) out.old.items out.new.items
        (lines (ledger_report_text names.now deal.now) 0 book.now.histories) result }
{
    for (number, entries) in book.histories.as_slice().iter().enumerate() {
        write_ledger(sink, out, names, deal, number as ArcId, entries)?;
    }
    Ok(())
}
