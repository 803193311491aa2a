//! The line before those of a ledger.

ghost use Rattle.std.specs.Prelude.{◌<◌, ◌≤◌, IfOk};
ghost use Rattle.swap_base.specs.Fault.{Gives};
ghost use Rattle.transcript_book.specs.Reading.{parse_first_field};
ghost use Rattle.transcript_book.specs.Taking.{Takes};
ghost use Rattle.told_ledgers.specs.Headings.{arc_said, heading_said, heading_words};

use swap_base::ArcId;
use transcript_book::{
    Parts, WordFault, decimal_number, ledger_field, misspelt, nothing_more, small_field, word,
};

/// What the line before those of a ledger tells.
#[derive(Clone, Copy)]
pub struct Heading {
    pub arc: ArcId,
    /// How many lines the ledger has.
    pub count: u32,
}

fn arc_said(least: u64, arcs: u64, word: &[u8]) -> Result<ArcId, WordFault>
    requires { arcs ≤ 128 }
    ensures exact { Gives (λ a. a) result (arc_said least arcs word.now) }
    ensures below { IfOk result (λ a. a < arcs) }
{
    let arc = decimal_number(word)?;
    if least <= arc && arc < arcs {
        Ok(arc as ArcId)
    } else {
        Err(misspelt())
    }
}

#[tactic(auto, unfolding(transcript_book::specs::Reading::parse_first_field))]
pub(crate) fn arc_field(least: u64, arcs: u64, fields: &mut Parts<'_>) -> Result<ArcId, WordFault>
    requires { arcs ≤ 128 }
    ensures exact { Takes (λ a. a) result fields.new (parse_first_field (arc_said least arcs) fields.old) }
    ensures below { IfOk result (λ a. a < arcs) }
{
    arc_said(least, arcs, word(fields)?)
}

#[tactic(auto, unfolding(crate::specs::Headings::heading_words))]
fn heading_words(least: u64, arcs: u64, fields: &mut Parts<'_>) -> Result<Heading, WordFault>
    requires { arcs ≤ 128 }
    ensures exact { Gives (λ h. h) result (heading_words least arcs fields.old) }
    ensures below { IfOk result (λ h. h.arc < arcs) }
{
    ledger_field(fields)?;
    let arc = arc_field(least, arcs, fields)?;
    let count = small_field(fields)?;
    nothing_more(fields)?;
    Ok(Heading { arc, count })
}

/// What the line before those of a ledger tells, whose arc is at least one and below another.
#[tactic(auto, unfolding(crate::specs::Headings::heading_said))]
pub(crate) fn heading_said(least: u64, arcs: u64, line: &[u8]) -> Result<Heading, WordFault>
    requires { arcs ≤ 128 }
    ensures exact { Gives (λ h. h) result (heading_said least arcs line.now) }
    ensures below { IfOk result (λ h. h.arc < arcs) }
{
    heading_words(least, arcs, &mut Parts::new(b' ', line))
}
