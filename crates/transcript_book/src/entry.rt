//! What the line of an entry says.

ghost use Rattle.std.specs.Prelude.{◌≤◌};
ghost use Rattle.swap_base.specs.Fault.{Gives};
ghost use Rattle.transcript_book.specs.Reading.{call_said, line_said, parse_said, tick_said, words_said};

use crate::call::parse_call;
use crate::field::{byte_field, nothing_more, sign_field, small_field, word};
use crate::number::{WordFault, misspelt};
use crate::reply::make_reply;
use crate::said::Said;
use crate::text_parts::Parts;
use escrow_core::Reply;
use ledger_core::{Sender, What};
use std::alloc::Global;

#[tactic(auto, unfolding(crate::specs::Reading::tick_said))]
fn tick_said(fields: &mut Parts<'_>) -> Result<Said, WordFault>
    ensures { Gives (λ s. s) result (tick_said fields.old) }
{
    let by = small_field(fields)?;
    nothing_more(fields)?;
    Ok(Said {
        sender: Sender::Clock,
        what: What::Tick(by),
        reply: Reply::Accepted,
    })
}

#[tactic(auto, unfolding(crate::specs::Reading::call_said))]
fn call_said(alloc: Global, locks: usize, fields: &mut Parts<'_>) -> Result<Said, WordFault>
    requires { locks ≤ 8 }
    ensures { Gives (λ s. s) result (call_said locks fields.old) }
{
    let party = byte_field(fields)?;
    let call = parse_call(alloc, locks, fields)?;
    sign_field(fields)?;
    let reply = make_reply(fields)?;
    Ok(Said {
        sender: Sender::Party(party),
        what: What::Call(call),
        reply,
    })
}

fn parse_said(
    alloc: Global,
    locks: usize,
    first: &[u8],
    fields: &mut Parts<'_>,
) -> Result<Said, WordFault>
    requires { locks ≤ 8 }
    ensures { Gives (λ s. s) result (parse_said locks first.now fields.old) }
{
    if first == b"t".as_slice() {
        tick_said(fields)
    } else if first == b"c".as_slice() {
        call_said(alloc, locks, fields)
    } else {
        Err(misspelt())
    }
}

#[tactic(auto, unfolding(crate::specs::Reading::words_said))]
fn words_said(alloc: Global, locks: usize, fields: &mut Parts<'_>) -> Result<Said, WordFault>
    requires { locks ≤ 8 }
    ensures { Gives (λ s. s) result (words_said locks fields.old) }
{
    let first = word(fields)?;
    parse_said(alloc, locks, first, fields)
}

/// What a line says in a deal with this number of locks, or that no writer writes it.
#[tactic(auto, unfolding(crate::specs::Reading::line_said))]
pub fn read_entry(alloc: Global, locks: usize, line: &[u8]) -> Result<Said, WordFault>
    requires { locks ≤ 8 }
    ensures { Gives (λ s. s) result (line_said locks line.now) }
{
    words_said(alloc, locks, &mut Parts::new(b' ', line))
}
