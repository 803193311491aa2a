//! The notes that stand first among lines.

ghost use Rattle.std.specs.Prelude.{◌≡◌, ◌∷◌, ◌++◌, MatchOption, OnOk, true};
ghost use Rattle.party_rows.specs.Lines.{TakesFirstLine};
ghost use Rattle.party_notes.specs.NoteStates.{noted_list, notes_state, IsBehindNotes};
ghost use Rattle.party_notes.specs.Notes.{is_note as is_note_line, notes_read};

use crate::note::{Note, is_note, line_noted};
use command_input::HeaderFault;
use std::alloc::Global;
use swap_base::{Listed, NoMemory};
use transcript_book::Parts;

/// The notes that stand first among lines.
#[derive(Debug, Drop)]
pub struct Notes {
    pub list: Listed<Note>,
    /// The number of the line behind them.
    pub next: u32,
}

/// Takes the next line where it is a note.
fn next_note<'a>(lines: &mut Parts<'a>) -> Option<&'a [u8]>
    ensures { MatchOption result (IsBehindNotes lines.old × (lines.new ≡ lines.old)) (λ l. (lines.old ≡ l.now ∷ lines.new) × (is_note_line l.now ≡ true)) }
{
    match lines.peek() {
        Some(line) if is_note(line) => {
            let _ = lines.next();
            Some(line)
        }
        _ => None,
    }
}

/// Adds a note, if there is one.
fn put_note(list: &mut Vec<Note>, note: Option<Note>) -> Result<(), NoMemory>
    ensures { OnOk result (list.new.items ≡ list.old.items ++ noted_list note) }
{
    if let Some(note) = note {
        list.push(note)?;
    }
    Ok(())
}

/// Takes the notes that stand first among lines. The first line has that number, and the lines
/// behind the notes stay.
#[tactic(auto, unfolding(crate::specs::Notes::notes_read))]
pub fn read_notes(alloc: Global, first: u32, lines: &mut Parts<'_>) -> Result<Notes, HeaderFault>
    ensures { TakesFirstLine notes_state result lines.new (notes_read first lines.old) }
{
    let mut list = Vec::new(alloc);
    let mut number = first;
    'lines: while let Some(line) = next_note(lines) {
        match line_noted(alloc, number, line, lines) {
            Ok(note) => {
                put_note(&mut list, note)?;
                number = number.saturating_add(1);
            }
            Err(fault) => return Err(fault),
        }
    }
    Ok(Notes {
        list: Listed::new(list),
        next: number,
    })
}
