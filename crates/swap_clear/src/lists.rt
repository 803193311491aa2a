//! The JSON of a group's parties, leaders and arcs.

ghost use Rattle.std.specs.Prelude.{◌≡◌, IfOk, OnOk};
ghost use Rattle.serde_json.specs.Data.{no_members, object, string};
ghost use Rattle.serde_json.specs.View.{view, members_view};
ghost use Rattle.offer_text.specs.Words.{list_data, name_data, AreTexts};
ghost use Rattle.swap_clear.specs.ClearedText.{proposal_data, named_data, proposal};

use crate::proposed::Proposed;
use command_input::party_name;
use offer_text::{put_number, put_text, to_text};
use serde_json::{Map, Value};
use std::alloc::Global;
use swap_base::{ByteText, NoMemory, PartyId};

/// The name of a party; no text where the number is nobody's.
fn party_label(names: &[ByteText], p: PartyId) -> &str
    requires { AreTexts names.now }
    ensures { string result.now ≡ name_data names.now p }
{
    to_text(party_name(names, p))
}

/// An object whose one field is the name of a party.
fn named_value(
    alloc: Global,
    field: &str,
    names: &[ByteText],
    p: PartyId,
) -> Result<Value, NoMemory>
    requires { AreTexts names.now }
    ensures { IfOk result (λ v. view v ≡ named_data field.now names.now p) }
{
    let mut fields = Map::new(alloc);
    put_text(alloc, &mut fields, field, party_label(names, p))?;
    Ok(Value::Object(fields))
}

/// A list with an object for each of the parties, whose one field is the party's name.
pub(crate) fn named_values(
    alloc: Global,
    field: &str,
    names: &[ByteText],
    parties: &[PartyId],
) -> Result<Value, NoMemory>
    requires { AreTexts names.now }
    ensures { IfOk result (λ v. view v ≡ list_data (named_data field.now names.now) parties.now) }
{
    let mut list = Vec::new(alloc);
    for p in parties {
        list.push(named_value(alloc, field, names, *p)?)?;
    }
    Ok(Value::Array(list))
}

/// The proposed transfer of that number.
fn proposal(arcs: &[Proposed], arc: u32) -> Proposed
    ensures { result ≡ proposal arcs.now arc }
{
    match arcs.get(arc as usize) {
        Some(proposed) => *proposed,
        None => Proposed {
            from: 0,
            to: 0,
            amount: 0,
        },
    }
}

fn put_arc(
    alloc: Global,
    fields: &mut Map<String, Value>,
    names: &[ByteText],
    arc: Proposed,
) -> Result<(), NoMemory>
    requires none { members_view fields.old.entries ≡ no_members }
    requires texts { AreTexts names.now }
    ensures { OnOk result (object (members_view fields.new.entries) ≡ proposal_data names.now arc) }
{
    put_text(alloc, fields, "to", party_label(names, arc.to))?;
    put_text(alloc, fields, "from", party_label(names, arc.from))?;
    put_number(alloc, fields, "amount", arc.amount)
}

fn arc_value(alloc: Global, names: &[ByteText], arc: Proposed) -> Result<Value, NoMemory>
    requires { AreTexts names.now }
    ensures { IfOk result (λ v. view v ≡ proposal_data names.now arc) }
{
    let mut fields = Map::new(alloc);
    put_arc(alloc, &mut fields, names, arc)?;
    Ok(Value::Object(fields))
}

/// The arcs of these numbers, as a list.
pub(crate) fn arc_values(
    alloc: Global,
    names: &[ByteText],
    arcs: &[Proposed],
    numbers: &[u32],
) -> Result<Value, NoMemory>
    requires { AreTexts names.now }
    ensures { IfOk result (λ v. view v ≡ list_data (λ a. proposal_data names.now (proposal arcs.now a)) numbers.now) }
{
    let mut list = Vec::new(alloc);
    for arc in numbers {
        list.push(arc_value(alloc, names, proposal(arcs, *arc))?)?;
    }
    Ok(Value::Array(list))
}
