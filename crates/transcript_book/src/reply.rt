//! The reply of an entry's line.

ghost use Rattle.swap_base.specs.Fault.{Gives};
ghost use Rattle.transcript_book.specs.Reading.{numbered_reply, plain_reply, make_reply};

use crate::field::{nothing_more, word};
use crate::number::{WordFault, decimal_number, misspelt, parse_byte};
use crate::text_parts::Parts;
use escrow_core::Reply;

fn plain_reply(word: &[u8]) -> Result<Reply, WordFault>
    ensures { Gives (λ r. r) result (plain_reply word.now) }
{
    if word == b"accepted".as_slice() {
        Ok(Reply::Accepted)
    } else if word == b"Settled".as_slice() {
        Ok(Reply::Settled)
    } else if word == b"NotCounterparty".as_slice() {
        Ok(Reply::NotCounterparty)
    } else if word == b"NotParty".as_slice() {
        Ok(Reply::NotParty)
    } else if word == b"AlreadyUnlocked".as_slice() {
        Ok(Reply::AlreadyUnlocked)
    } else if word == b"WrongSecret".as_slice() {
        Ok(Reply::WrongSecret)
    } else if word == b"WrongPath".as_slice() {
        Ok(Reply::WrongPath)
    } else if word == b"WrongSignature".as_slice() {
        Ok(Reply::WrongSignature)
    } else if word == b"NothingLocked".as_slice() {
        Ok(Reply::NothingLocked)
    } else if word == b"NoContract".as_slice() {
        Ok(Reply::NoContract)
    } else if word == b"AlreadyPublished".as_slice() {
        Ok(Reply::AlreadyPublished)
    } else {
        Err(misspelt())
    }
}

fn numbered_reply(word: &[u8], number: &[u8]) -> Result<Reply, WordFault>
    ensures { Gives (λ r. r) result (numbered_reply word.now number.now) }
{
    if word == b"TooLate".as_slice() {
        Ok(Reply::TooLate(decimal_number(number)?))
    } else if word == b"StillLocked".as_slice() {
        Ok(Reply::StillLocked(parse_byte(number)?))
    } else if word == b"NotExpired".as_slice() {
        Ok(Reply::NotExpired(decimal_number(number)?))
    } else if word == b"NoFunds".as_slice() {
        Ok(Reply::NoFunds(decimal_number(number)?))
    } else {
        Err(misspelt())
    }
}

/// The reply that the last fields say.
pub(crate) fn make_reply(fields: &mut Parts<'_>) -> Result<Reply, WordFault>
    ensures { Gives (λ r. r) result (make_reply fields.old) }
{
    let first = word(fields)?;
    match fields.next() {
        None => plain_reply(first),
        Some(number) => {
            nothing_more(fields)?;
            numbered_reply(first, number)
        }
    }
}
