//! The indexes of a book.

ghost use Rattle.std.specs.Prelude.{◌≡◌, ◌<◌, length, IfOk};
ghost use Rattle.swap_digraph.specs.Deal.{IsWellSized};
ghost use Rattle.ledger_core.specs.History.{IsLegal};
ghost use Rattle.ledger_core.specs.Book.{IsLegalBook};
ghost use Rattle.outcome_rules.specs.Indexed.{AreBookIndexes, IsArcIndex};

use history_index::{Index, Steps};
use ledger_core::{Book, EntryList};
use std::alloc::Global;
use std::marker::Brand;
use std::sync::ledger::{Blank, Ledger};
use swap_base::{ArcId, NoMemory, TryCopy};
use swap_digraph::Deal;

fn index_counted<L: Ledger>(
    alloc: Global,
    deal: &Deal,
    arc: ArcId,
    list: &EntryList,
    blank: Blank,
) -> Result<Index, NoMemory>
    requires name { blank.name ≡ L.name }
    requires parts { blank.parts ≡ L.parts }
    requires one { blank.parts ≡ 1 }
    requires sized { IsWellSized deal.now }
    requires arc { arc < length deal.now.graph.arcs }
    requires legal { IsLegal deal.now arc list.now }
    ensures { IfOk result (λ i. IsArcIndex deal.now arc list.now i) }
{
    let mut steps = Steps::<L>::new(blank);
    let mut index = Index::new(alloc, deal, arc)?;
    index.extend(list.copy()?, &mut steps)?;
    Ok(index)
}

/// The index of the arc with these entries, a legal history of it.
fn build_index(alloc: Global, deal: &Deal, arc: ArcId, list: &EntryList) -> Result<Index, NoMemory>
    requires sized { IsWellSized deal.now }
    requires arc { arc < length deal.now.graph.arcs }
    requires legal { IsLegal deal.now arc list.now }
    ensures { IfOk result (λ i. IsArcIndex deal.now arc list.now i) }
{
    index_counted::<Brand>(alloc, deal, arc, list, Blank::new(1))
}

/// One index per arc, with the entries of its history.
pub fn build_indexes(alloc: Global, deal: &Deal, book: &Book) -> Result<Vec<Index>, NoMemory>
    requires sized { IsWellSized deal.now }
    requires legal { IsLegalBook deal.now book.now.histories }
    ensures { IfOk result (λ v. AreBookIndexes deal.now book.now.histories v.items) }
{
    let mut known = Vec::new(alloc);
    for (arc, list) in book.histories.as_slice().iter().enumerate() {
        known.push(build_index(alloc, deal, arc as u8, list)?)?;
    }
    Ok(known)
}
