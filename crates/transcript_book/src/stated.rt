//! The entry that a line states.

ghost use Rattle.std.specs.Prelude.{◌<◌, length};
ghost use Rattle.swap_base.specs.Fault.{Gives};
ghost use Rattle.swap_digraph.specs.Deal.{IsWellSized};
ghost use Rattle.ledger_core.specs.declared.entry.Sender.TheVariants.{Party, Clock};
ghost use Rattle.ledger_core.specs.declared.entry.What.TheVariants.{Call as Made, Tick};
ghost use Rattle.transcript_book.specs.Entries.{parse_entry, said_entry, placed_entry};

use crate::entry::read_entry;
use crate::number::{WordFault, misspelt};
use crate::said::Said;
use escrow_core::Reply;
use ledger_core::{Call, Entry, Sender, What, fits, is_adjacent};
use std::alloc::Global;
use swap_base::{ArcId, PartyId};
use swap_digraph::Deal;

fn place_call(
    deal: &Deal,
    arc: ArcId,
    height: u32,
    p: PartyId,
    call: Call,
    reply: Reply,
) -> Result<Entry, WordFault>
    requires { arc < length deal.now.graph.arcs }
    ensures { Gives (λ e. e) result (placed_entry deal.now arc height reply (Party p) (Made call)) }
{
    if is_adjacent(deal, arc, p) && fits(deal, arc, &call) {
        Ok(Entry {
            sender: Sender::Party(p),
            height,
            what: What::Call(call),
            reply,
        })
    } else {
        Err(misspelt())
    }
}

fn place_tick(
    deal: &Deal,
    arc: ArcId,
    height: u32,
    by: u32,
    reply: Reply,
) -> Result<Entry, WordFault>
    ensures { Gives (λ e. e) result (placed_entry deal.now arc height reply Clock (Tick by)) }
{
    if 1 <= by && by <= 1_000_000 {
        Ok(Entry {
            sender: Sender::Clock,
            height: height.saturating_add(by),
            what: What::Tick(by),
            reply,
        })
    } else {
        Err(misspelt())
    }
}

/// The entry that is said at a height.
fn place(deal: &Deal, arc: ArcId, height: u32, said: Said) -> Result<Entry, WordFault>
    requires { arc < length deal.now.graph.arcs }
    ensures { Gives (λ e. e) result (said_entry deal.now arc height said) }
{
    match (said.sender, said.what) {
        (Sender::Party(p), What::Call(call)) => place_call(deal, arc, height, p, call, said.reply),
        (Sender::Clock, What::Tick(by)) => place_tick(deal, arc, height, by, said.reply),
        _ => Err(misspelt()),
    }
}

/// The entry that a line states at a height of its arc's ledger.
#[tactic(auto, unfolding(crate::specs::Entries::parse_entry))]
pub fn parse_entry(
    alloc: Global,
    deal: &Deal,
    arc: ArcId,
    height: u32,
    line: &[u8],
) -> Result<Entry, WordFault>
    requires sized { IsWellSized deal.now }
    requires arc { arc < length deal.now.graph.arcs }
    ensures { Gives (λ e. e) result (parse_entry deal.now arc height line.now) }
{
    let said = read_entry(alloc, deal.leaders.len(), line)?;
    place(deal, arc, height, said)
}
