//! The JSON of a deal's arcs and leaders.

ghost use Rattle.std.specs.Prelude.{◌≡◌, ◌<◌, IfOk, OnOk, codes, length};
ghost use Rattle.serde_json.specs.Data.{member, no_members, object, string};
ghost use Rattle.serde_json.specs.View.{view, members_view};
ghost use Rattle.swap_digraph.specs.Deal.{IsWellSized};
ghost use Rattle.offer_text.specs.Words.{number_data, AreTexts, IsBelow};
ghost use Rattle.offer_text.specs.HeaderLine.{arc_json, arcs_data, leader_value, leaders_data};

use crate::fields::{put_first, put_number, put_text};
use crate::words::{digest_value, party_label};
use serde_json::{Map, Value};
use std::alloc::Global;
use swap_base::{ArcId, ByteText, LockId, NoMemory};
use swap_digraph::{Deal, Mode};

/// Puts an arc's origin and units before the others.
fn put_origin(
    alloc: Global,
    fields: &mut Map<String, Value>,
    from: &str,
    amount: u64,
) -> Result<(), NoMemory>
    requires { IsBelow (codes "from") (members_view fields.old.entries) }
    ensures { OnOk result (members_view fields.new.entries
        ≡ member (codes "amount") (number_data amount) (member (codes "from") (string from.now) (members_view fields.old.entries))) }
{
    put_text(alloc, fields, "from", from)?;
    put_number(alloc, fields, "amount", amount)
}

fn put_arc(
    alloc: Global,
    fields: &mut Map<String, Value>,
    names: &[ByteText],
    deal: &Deal,
    arc: ArcId,
) -> Result<(), NoMemory>
    requires none { members_view fields.old.entries ≡ no_members }
    requires sized { IsWellSized deal.now }
    requires arc { arc < length deal.now.graph.arcs }
    requires names { length names.now ≡ deal.now.graph.n }
    requires texts { AreTexts names.now }
    ensures { OnOk result (object (members_view fields.new.entries) ≡ arc_json names.now deal.now arc) }
{
    let ends = deal.graph.arcs()[arc as usize];
    let amount = deal.amounts.as_slice()[arc as usize];
    let from = party_label(names, ends.from);
    put_text(alloc, fields, "to", party_label(names, ends.to))?;
    match deal.mode {
        Mode::Timelocks => {
            let timelock = deal.timelocks.as_slice()[arc as usize];
            put_number(alloc, fields, "timelock", timelock as u64)?;
            put_origin(alloc, fields, from, amount)
        }
        Mode::Hashkeys => put_origin(alloc, fields, from, amount),
    }
}

fn arc_json(alloc: Global, names: &[ByteText], deal: &Deal, arc: ArcId) -> Result<Value, NoMemory>
    requires sized { IsWellSized deal.now }
    requires arc { arc < length deal.now.graph.arcs }
    requires names { length names.now ≡ deal.now.graph.n }
    requires texts { AreTexts names.now }
    ensures { IfOk result (λ v. view v ≡ arc_json names.now deal.now arc) }
{
    let mut fields = Map::new(alloc);
    put_arc(alloc, &mut fields, names, deal, arc)?;
    Ok(Value::Object(fields))
}

/// The arcs of a deal, as a list.
pub(crate) fn arcs_value(alloc: Global, names: &[ByteText], deal: &Deal) -> Result<Value, NoMemory>
    requires sized { IsWellSized deal.now }
    requires names { length names.now ≡ deal.now.graph.n }
    requires texts { AreTexts names.now }
    ensures { IfOk result (λ v. view v ≡ arcs_data names.now deal.now) }
{
    let mut list = Vec::new(alloc);
    for arc in 0..deal.graph.arcs().len() as ArcId {
        list.push(arc_json(alloc, names, deal, arc)?)?;
    }
    Ok(Value::Array(list))
}

fn put_leader(
    alloc: Global,
    fields: &mut Map<String, Value>,
    names: &[ByteText],
    deal: &Deal,
    lock: LockId,
) -> Result<(), NoMemory>
    requires none { members_view fields.old.entries ≡ no_members }
    requires sized { IsWellSized deal.now }
    requires lock { lock < length deal.now.leaders }
    requires names { length names.now ≡ deal.now.graph.n }
    requires texts { AreTexts names.now }
    ensures { OnOk result (object (members_view fields.new.entries) ≡ leader_value names.now deal.now lock) }
{
    let party = party_label(names, deal.leaders.as_slice()[lock as usize]);
    put_text(alloc, fields, "party", party)?;
    let hashlock = digest_value(alloc, &deal.hashlocks.as_slice()[lock as usize])?;
    put_first(alloc, fields, "hashlock", hashlock)
}

fn leader_value(
    alloc: Global,
    names: &[ByteText],
    deal: &Deal,
    lock: LockId,
) -> Result<Value, NoMemory>
    requires sized { IsWellSized deal.now }
    requires lock { lock < length deal.now.leaders }
    requires names { length names.now ≡ deal.now.graph.n }
    requires texts { AreTexts names.now }
    ensures { IfOk result (λ v. view v ≡ leader_value names.now deal.now lock) }
{
    let mut fields = Map::new(alloc);
    put_leader(alloc, &mut fields, names, deal, lock)?;
    Ok(Value::Object(fields))
}

/// The leaders of a deal with their hashlocks, as a list.
pub(crate) fn leaders_value(
    alloc: Global,
    names: &[ByteText],
    deal: &Deal,
) -> Result<Value, NoMemory>
    requires sized { IsWellSized deal.now }
    requires names { length names.now ≡ deal.now.graph.n }
    requires texts { AreTexts names.now }
    ensures { IfOk result (λ v. view v ≡ leaders_data names.now deal.now) }
{
    let mut list = Vec::new(alloc);
    for lock in 0..deal.leaders.len() as LockId {
        list.push(leader_value(alloc, names, deal, lock)?)?;
    }
    Ok(Value::Array(list))
}
