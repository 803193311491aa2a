//! A line that a wallet wrote down.

ghost use Rattle.std.specs.Prelude.{◌≡◌, IfOk, not};
ghost use Rattle.swap_base.specs.Fault.{Gives};
ghost use Rattle.transcript_book.specs.Reading.{bounded_number, parse_first_field};
ghost use Rattle.transcript_book.specs.Taking.{Takes};
ghost use Rattle.party_notes.specs.Notes.{heights_told, is_note, keep_noted, kept_or_torn, key_noted, line_noted, never_noted, no_note, pick_note, seen_noted, sent_noted, words_noted};
ghost use Rattle.party_notes.specs.NoteStates.{noted_list};

use command_input::{HeaderFault, Reason};
use hashkey_path::Hashkey;
use party_rows::{refused, this_word};
use std::alloc::Global;
use swap_base::{ArcId, Fault, LockId, NoMemory, Shared};
use transcript_book::{
    Parts, WordFault, byte_field, digest_field, misspelt, nothing_more, number_field, path_field,
    read_bounded, signatures_field, word,
};

/// A line that a wallet wrote down.
#[derive(Debug, Drop)]
pub enum Note {
    /// A hashkey that it kept: `keep LOCK by B until U SECRET PATH SIGS`.
    Keep(Shared<Hashkey>),
    /// A hashkey for that lock that can't be read.
    Torn(LockId),
    /// A publish on that arc was sent, or may have been: `sent ARC`.
    Sent(ArcId),
    /// The publishes that were sent on that arc can't land: `never ARC`.
    Never(ArcId),
    /// The ledger of that arc was seen at that height: `seen ARC HEIGHT`.
    Seen(ArcId, u32),
}

/// The heights between a lock and its hashkey, which are read and not used.
#[tactic(auto, unfolding(crate::specs::Notes::heights_told))]
fn skip_heights(fields: &mut Parts<'_>) -> Result<(), WordFault>
    ensures { Takes (λ u. u) result fields.new (heights_told fields.old) }
{
    this_word(b"by".as_slice(), fields)?;
    let _last = number_field(fields)?;
    this_word(b"until".as_slice(), fields)?;
    let _end = number_field(fields)?;
    Ok(())
}

#[tactic(auto, unfolding(crate::specs::Notes::key_noted))]
fn key_noted(
    alloc: Global,
    lock: LockId,
    fields: &mut Parts<'_>,
) -> Result<Shared<Hashkey>, WordFault>
    ensures { Gives (λ k. k) result (key_noted lock fields.old) }
{
    skip_heights(fields)?;
    let secret = digest_field(fields)?;
    let path = path_field(alloc, fields)?;
    let sigs = signatures_field(alloc, fields)?;
    nothing_more(fields)?;
    let key = Hashkey {
        lock,
        secret,
        path,
        sigs,
    };
    Ok(Shared::new(alloc, key)?)
}

fn kept_or_torn(alloc: Global, lock: LockId, fields: &mut Parts<'_>) -> Result<Note, NoMemory>
    ensures { IfOk result (λ x. x ≡ kept_or_torn lock (key_noted lock fields.old)) }
{
    match key_noted(alloc, lock, fields) {
        Ok(key) => Ok(Note::Keep(key)),
        Err(Fault::Refused(_)) => Ok(Note::Torn(lock)),
        Err(Fault::NoMemory) => Err(NoMemory),
    }
}

#[tactic(auto, unfolding(crate::specs::Notes::keep_noted))]
fn keep_noted(alloc: Global, fields: &mut Parts<'_>) -> Result<Note, WordFault>
    ensures { Gives (λ x. x) result (keep_noted fields.old) }
{
    let lock = byte_field(fields)?;
    Ok(kept_or_torn(alloc, lock, fields)?)
}

#[tactic(auto, unfolding(crate::specs::Notes::sent_noted))]
fn sent_noted(fields: &mut Parts<'_>) -> Result<Note, WordFault>
    ensures { Gives (λ x. x) result (sent_noted fields.old) }
{
    let arc = byte_field(fields)?;
    nothing_more(fields)?;
    Ok(Note::Sent(arc))
}

#[tactic(auto, unfolding(crate::specs::Notes::never_noted))]
fn never_noted(fields: &mut Parts<'_>) -> Result<Note, WordFault>
    ensures { Gives (λ x. x) result (never_noted fields.old) }
{
    let arc = byte_field(fields)?;
    nothing_more(fields)?;
    Ok(Note::Never(arc))
}

fn height_word(word: &[u8]) -> Result<u32, WordFault>
    ensures { Gives (λ n. n) result (bounded_number 1000001 word.now) }
{
    Ok(read_bounded(1_000_001, word)? as u32)
}

#[tactic(auto, unfolding(transcript_book::specs::Reading::parse_first_field))]
fn height_field(fields: &mut Parts<'_>) -> Result<u32, WordFault>
    ensures { Takes (λ n. n) result fields.new (parse_first_field (bounded_number 1000001) fields.old) }
{
    height_word(word(fields)?)
}

#[tactic(auto, unfolding(crate::specs::Notes::seen_noted))]
fn seen_noted(fields: &mut Parts<'_>) -> Result<Note, WordFault>
    ensures { Gives (λ x. x) result (seen_noted fields.old) }
{
    let arc = byte_field(fields)?;
    let height = height_field(fields)?;
    nothing_more(fields)?;
    Ok(Note::Seen(arc, height))
}

fn pick_note(alloc: Global, first: &[u8], fields: &mut Parts<'_>) -> Result<Note, WordFault>
    ensures { Gives (λ x. x) result (pick_note first.now fields.old) }
{
    if first == b"keep".as_slice() {
        keep_noted(alloc, fields)
    } else if first == b"sent".as_slice() {
        sent_noted(fields)
    } else if first == b"never".as_slice() {
        never_noted(fields)
    } else if first == b"seen".as_slice() {
        seen_noted(fields)
    } else {
        Err(misspelt())
    }
}

#[tactic(auto, unfolding(crate::specs::Notes::words_noted))]
fn words_noted(alloc: Global, fields: &mut Parts<'_>) -> Result<Note, WordFault>
    ensures { Gives (λ x. x) result (words_noted fields.old) }
{
    let first = word(fields)?;
    pick_note(alloc, first, fields)
}

/// Whether a line's first word is `keep`, `sent`, `never` or `seen`.
#[tactic(auto, unfolding(crate::specs::Notes::is_note))]
pub(crate) fn is_note(line: &[u8]) -> bool
    ensures { result ≡ is_note line.now }
{
    match Parts::new(b' ', line).next() {
        Some(word) => {
            word == b"keep".as_slice()
                || word == b"sent".as_slice()
                || word == b"never".as_slice()
                || word == b"seen".as_slice()
        }
        None => false,
    }
}

/// Whether the next of these lines is a note.
fn has_note(lines: &Parts<'_>) -> bool
    ensures { result ≡ not (no_note lines.now) }
{
    match lines.peek() {
        Some(line) => is_note(line),
        None => false,
    }
}

/// What the line of that number notes, with these lines behind it: none where it can't be read and is
/// the last note.
#[tactic(auto, unfolding(crate::specs::Notes::line_noted))]
pub(crate) fn line_noted(
    alloc: Global,
    number: u32,
    line: &[u8],
    behind: &Parts<'_>,
) -> Result<Option<Note>, HeaderFault>
    ensures { Gives noted_list result (line_noted number line.now behind.now) }
{
    match words_noted(alloc, &mut Parts::new(b' ', line)) {
        Ok(note) => Ok(Some(note)),
        Err(Fault::Refused(_)) => {
            if has_note(behind) {
                Err(refused(alloc, Reason::BadLine(number)))
            } else {
                Ok(None)
            }
        }
        Err(Fault::NoMemory) => Err(Fault::NoMemory),
    }
}
