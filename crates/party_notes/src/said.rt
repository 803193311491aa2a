//! What an input says before its first ledger.

ghost use Rattle.std.specs.Prelude.{IfOk};
ghost use Rattle.party_rows.specs.Lines.{TakesFirstLine};
ghost use Rattle.party_terms.specs.Inside.{IsAgreedJob};
ghost use Rattle.party_notes.specs.Asked.{lines_said};
ghost use Rattle.party_notes.specs.Inside.{said_state};

use crate::notes::{Notes, read_notes};
use command_input::HeaderFault;
use party_rows::agreed_line;
use party_terms::{Agreed, read_agreed};
use std::alloc::Global;
use swap_base::Digest;
use transcript_book::Parts;

/// What an input says before its first ledger: the digest that was agreed on, the notes, and the
/// deal with its context and its digest.
#[derive(Debug, Drop)]
pub struct Said {
    pub told: Digest,
    pub notes: Notes,
    pub agreed: Agreed,
}

/// Takes the lines before the first ledger. The first of these lines has that number.
#[tactic(auto, unfolding(crate::specs::Asked::lines_said))]
pub fn read_said(alloc: Global, first: u32, lines: &mut Parts<'_>) -> Result<Said, HeaderFault>
    ensures exact { TakesFirstLine said_state result lines.new (lines_said first lines.old) }
    ensures told { IfOk result (λ s. IsAgreedJob s.agreed.job) }
{
    let told = agreed_line(alloc, first, lines)?;
    let notes = read_notes(alloc, first.saturating_add(1), lines)?;
    let agreed = read_agreed(alloc, notes.next, lines)?;
    Ok(Said {
        told,
        notes,
        agreed,
    })
}
