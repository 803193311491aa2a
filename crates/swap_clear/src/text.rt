//! The text of a clearing.

ghost use Rattle.std.specs.Prelude.{◌≡◌, ◌++◌, IfOk, OnOk};
ghost use Rattle.swap_base.specs.Fault.{Gives};
ghost use Rattle.swap_base.specs.Text.{lines};
ghost use Rattle.offer_text.specs.Words.{AreTexts};
ghost use Rattle.swap_clear.specs.ClearedText.{cleared_line, cleared_text, group_text, left_out_line, IsClearedLine};

use crate::answer::{Group, LeftOut};
use crate::cleared::{Cleared, read_cleared};
use crate::group::put_group;
use crate::limits::Wishes;
use command_input::{OfferFault, put_names};
use std::alloc::Global;
use swap_base::{ByteText, NoMemory, Piece, put};

fn put_left_out(out: &mut Vec<u8>, names: &[ByteText], arc: &LeftOut) -> Result<(), NoMemory>
    ensures { OnOk result (out.new.items ≡ out.old.items ++ left_out_line names.now 0 arc.now) }
{
    put(
        out,
        &[
            Piece::Text("left out "),
            Piece::Number(arc.arc as u64),
            Piece::Text(" closed "),
        ],
    )?;
    put_names(out, names, arc.closed.as_slice())?;
    put(out, &[Piece::Text("\n")])
}

fn put_all_left_out(out: &mut Vec<u8>, names: &[ByteText], arcs: &[LeftOut]) -> Result<(), NoMemory>
    ensures { OnOk result (out.new.items ≡ out.old.items ++ lines (left_out_line names.now) 0 arcs.now) }
{
    for arc in arcs {
        put_left_out(out, names, arc)?;
    }
    Ok(())
}

fn put_groups(
    alloc: Global,
    out: &mut Vec<u8>,
    wishes: &Wishes,
    groups: &[Group],
) -> Result<(), NoMemory>
    requires { AreTexts wishes.now.names }
    ensures { OnOk result (out.new.items ≡ out.old.items ++ lines (group_text wishes.now) 0 groups.now) }
{
    let mut number: u64 = 0;
    for group in groups {
        put_group(alloc, out, wishes, number, group)?;
        number += 1;
    }
    Ok(())
}

/// The text of what is cleared.
#[tactic(auto, unfolding(crate::specs::ClearedText::cleared_text))]
fn to_text(alloc: Global, cleared: &Cleared) -> Result<Vec<u8>, NoMemory>
    requires { AreTexts cleared.now.wishes.names }
    ensures { IfOk result (λ t. t.items ≡ cleared_text cleared.now) }
{
    let names = cleared.wishes.names.as_slice();
    let mut out = Vec::new(alloc);
    put(&mut out, &[Piece::Text("swap cleared 1\n")])?;
    put_all_left_out(&mut out, names, cleared.clearing.left_out.as_slice())?;
    put_groups(
        alloc,
        &mut out,
        &cleared.wishes,
        cleared.clearing.groups.as_slice(),
    )?;
    Ok(out)
}

/// What is written of a line of wishes, or the first reason why the line is refused.
#[tactic(auto, unfolding(crate::specs::ClearedText::cleared_line))]
pub fn cleared_line(alloc: Global, line: u32, text: &[u8]) -> Result<Vec<u8>, OfferFault>
    ensures exact { Gives (λ t. t.items) result (cleared_line line text.now) }
    ensures shows { IfOk result (λ t. IsClearedLine line text.now t.items) }
{
    let cleared = read_cleared(alloc, line, text)?;
    let text = to_text(alloc, &cleared)?;
    Ok(text)
}
