//! The lines before a swap's header and before the events.

ghost use Rattle.std.specs.Prelude.{◌≤◌, IfOk};
ghost use Rattle.swap_base.specs.Fault.{Gives};
ghost use Rattle.transcript_book.specs.Taking.{Takes};
ghost use Rattle.transcript_book.specs.Reading.{parse_first_field};
ghost use Rattle.many_lines.specs.Fields.{parse_chain_list, parse_finish_fields, parse_finish_word};
ghost use Rattle.many_lines.specs.Below.{AreChainsBelow};

use std::alloc::Global;
use swap_base::Listed;
use swap_job::Finish;
use transcript_book::{Parts, WordFault, misspelt, nothing_more, read_bounded, word};

/// The chains of a swap's arcs, one for each arc, by the fields after the first.
#[tactic(auto, using(crate::proofs::Pairs::below_more), unfolding(crate::specs::Fields::parse_chain_list))]
pub fn read_chains(
    alloc: Global,
    count: usize,
    fields: &mut Parts<'_>,
) -> Result<Listed<u8>, WordFault>
    requires { count ≤ 256 }
    ensures exact { Gives (λ l. l) result (parse_chain_list count fields.old) }
    ensures below { IfOk result (λ l. AreChainsBelow count l) }
{
    let mut list = Vec::new(alloc);
    while let Some(word) = fields.next() {
        list.push(read_bounded(count as u64, word)? as u8)?;
    }
    Ok(Listed::new(list))
}

fn parse_finish_word(word: &[u8]) -> Result<Finish, WordFault>
    ensures { Gives (λ f. f) result (parse_finish_word word.now) }
{
    if word == b"stop".as_slice() {
        Ok(Finish::Stop)
    } else if word == b"fair".as_slice() {
        Ok(Finish::Fair)
    } else {
        Err(misspelt())
    }
}

#[tactic(auto, unfolding(transcript_book::specs::Reading::parse_first_field))]
fn finish_field(fields: &mut Parts<'_>) -> Result<Finish, WordFault>
    ensures { Takes (λ f. f) result fields.new (parse_first_field parse_finish_word fields.old) }
{
    parse_finish_word(word(fields)?)
}

/// The finish, by the fields after the first.
#[tactic(auto, unfolding(crate::specs::Fields::parse_finish_fields))]
pub fn read_finish(fields: &mut Parts<'_>) -> Result<Finish, WordFault>
    ensures { Gives (λ f. f) result (parse_finish_fields fields.old) }
{
    let finish = finish_field(fields)?;
    nothing_more(fields)?;
    Ok(finish)
}
