//! The lines of a group: its number, the cycles of its leaders, and its plain job.

ghost use Rattle.std.specs.Prelude.{◌≡◌, ◌++◌, IfOk, OnOk, codes};
ghost use Rattle.serde_json.specs.Data.{no_members};
ghost use Rattle.serde_json.specs.View.{view, members_view};
ghost use Rattle.swap_base.specs.Text.{lines};
ghost use Rattle.offer_text.specs.Words.{AreTexts, IsBelow};
ghost use Rattle.swap_clear.specs.ClearedText.{cycle_line, group_fields, group_data, group_line, group_text, last_cleared_fields, members_data};

use crate::answer::Group;
use crate::limits::Wishes;
use crate::lists::{arc_values, named_values};
use command_input::put_names;
use offer_text::{put_first, put_number, put_text};
use serde_json::{Map, Value};
use std::alloc::Global;
use swap_base::{ByteText, NoMemory, Piece, put};
use swap_digraph::PathList;

/// The fields of a plain job from its parties on.
fn put_last_fields(
    alloc: Global,
    fields: &mut Map<String, Value>,
    wishes: &Wishes,
    group: &Group,
) -> Result<(), NoMemory>
    requires none { members_view fields.old.entries ≡ no_members }
    requires texts { AreTexts wishes.now.names }
    ensures { OnOk result (members_view fields.new.entries ≡ last_cleared_fields wishes.now group.now) }
{
    put_number(alloc, fields, "swap", 2)?;
    put_number(alloc, fields, "start", wishes.start as u64)?;
    let names = wishes.names.as_slice();
    let parties = named_values(alloc, "name", names, group.parties.as_slice())?;
    put_first(alloc, fields, "parties", parties)
}

/// The fields from the leaders on.
fn put_leaders(
    alloc: Global,
    fields: &mut Map<String, Value>,
    wishes: &Wishes,
    group: &Group,
) -> Result<(), NoMemory>
    requires none { members_view fields.old.entries ≡ no_members }
    requires texts { AreTexts wishes.now.names }
    ensures { OnOk result (members_view fields.new.entries ≡ members_data wishes.now group.now) }
{
    put_last_fields(alloc, fields, wishes, group)?;
    put_text(alloc, fields, "mode", "hashkeys")?;
    let names = wishes.names.as_slice();
    let leaders = named_values(alloc, "party", names, group.leaders.as_slice())?;
    put_first(alloc, fields, "leaders", leaders)
}

/// The first three fields.
fn put_first_fields(
    alloc: Global,
    fields: &mut Map<String, Value>,
    wishes: &Wishes,
    group: &Group,
) -> Result<(), NoMemory>
    requires after { IsBelow (codes "delta") (members_view fields.old.entries) }
    requires texts { AreTexts wishes.now.names }
    ensures { OnOk result (members_view fields.new.entries ≡ group_fields wishes.now group.now (members_view fields.old.entries)) }
{
    put_number(alloc, fields, "delta", wishes.delta as u64)?;
    put_number(alloc, fields, "bound", group.bound as u64)?;
    let names = wishes.names.as_slice();
    let arcs = arc_values(alloc, names, wishes.arcs.as_slice(), group.arcs.as_slice())?;
    put_first(alloc, fields, "arcs", arcs)
}

/// The plain job of a group, but for its parties' seeds.
fn group_value(alloc: Global, wishes: &Wishes, group: &Group) -> Result<Value, NoMemory>
    requires { AreTexts wishes.now.names }
    ensures { IfOk result (λ v. view v ≡ group_data wishes.now group.now) }
{
    let mut fields = Map::new(alloc);
    put_leaders(alloc, &mut fields, wishes, group)?;
    put_first_fields(alloc, &mut fields, wishes, group)?;
    Ok(Value::Object(fields))
}

/// The line of that job.
#[tactic(auto, unfolding(crate::specs::ClearedText::group_line))]
fn group_line(alloc: Global, wishes: &Wishes, group: &Group) -> Result<ByteText, NoMemory>
    requires { AreTexts wishes.now.names }
    ensures { IfOk result (λ t. t ≡ group_line wishes.now group.now) }
{
    let text = group_value(alloc, wishes, group)?.to_string(alloc)?;
    Ok(ByteText::new(text.into_bytes()))
}

fn put_cycle(out: &mut Vec<u8>, names: &[ByteText], cycle: &PathList) -> Result<(), NoMemory>
    ensures { OnOk result (out.new.items ≡ out.old.items ++ cycle_line names.now 0 cycle.now) }
{
    put(out, &[Piece::Text("cycle ")])?;
    put_names(out, names, cycle.as_slice())?;
    put(out, &[Piece::Text("\n")])
}

fn put_cycles(out: &mut Vec<u8>, names: &[ByteText], cycles: &[PathList]) -> Result<(), NoMemory>
    ensures { OnOk result (out.new.items ≡ out.old.items ++ lines (cycle_line names.now) 0 cycles.now) }
{
    for cycle in cycles {
        put_cycle(out, names, cycle)?;
    }
    Ok(())
}

/// Appends the lines of a group.
#[tactic(auto, unfolding(crate::specs::ClearedText::group_text))]
pub(crate) fn put_group(
    alloc: Global,
    out: &mut Vec<u8>,
    wishes: &Wishes,
    number: u64,
    group: &Group,
) -> Result<(), NoMemory>
    requires { AreTexts wishes.now.names }
    ensures { OnOk result (out.new.items ≡ out.old.items ++ group_text wishes.now number group.now) }
{
    put(
        out,
        &[
            Piece::Text("group "),
            Piece::Number(number),
            Piece::Text("\n"),
        ],
    )?;
    put_cycles(out, wishes.names.as_slice(), group.cycles.as_slice())?;
    let line = group_line(alloc, wishes, group)?;
    put(out, &[Piece::Bytes(line.as_slice()), Piece::Text("\n")])
}
