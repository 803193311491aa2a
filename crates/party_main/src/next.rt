//! What is answered to an input of `next`: its first line tells the seed, and the rest stands
//! behind it.

ghost use Rattle.std.specs.Prelude.{◌≡◌, IfOk};
ghost use Rattle.swap_base.specs.Fault.{Gives};
ghost use Rattle.party_rows.specs.Lines.{is_ended};
ghost use Rattle.party_main.specs.Next.{answer_parts, cut_short, ended_output, next_output, read_first_seed_line, IsPartsAnswer, IsInputAnswer};

use command_input::{Reason, nameless};
use memchr::memchr;
use party_answer::{Answer, answer};
use party_notes::{AnswerFault, AnswerReason};
use std::alloc::Global;
use swap_base::{Digest, Fault};

fn cut_short(alloc: Global) -> AnswerFault
    ensures { result ≡ Fault.Refused cut_short }
{
    Fault::Refused(AnswerReason::Refused(nameless(alloc, Reason::CutShort)))
}

/// The seed that the first line tells.
fn read_first_seed_line(alloc: Global, line: &[u8]) -> Result<Digest, AnswerFault>
    ensures { Gives (λ d. d) result (read_first_seed_line line.now) }
{
    match party_rows::read_seed_line(alloc, 1, line) {
        Ok(seed) => Ok(seed),
        Err(Fault::Refused(refusal)) => Err(Fault::Refused(AnswerReason::Refused(refusal))),
        Err(Fault::NoMemory) => Err(Fault::NoMemory),
    }
}

/// What is answered to the text behind the line that tells the seed.
#[tactic(auto, unfolding(crate::specs::Next::answer_parts))]
fn answer_parts(alloc: Global, name: &[u8], line: &[u8], rest: &[u8]) -> Result<Answer, AnswerFault>
    ensures exact { Gives (λ a. a) result (answer_parts name.now (record { line = line.now; rest = rest.now })) }
    ensures promised { IfOk result (λ a. IsPartsAnswer name.now (record { line = line.now; rest = rest.now }) a) }
{
    let seed = read_first_seed_line(alloc, line)?;
    answer(alloc, 2, name, &seed, rest)
}

/// What is answered to an input that ends with a line feed.
fn answer_ended(alloc: Global, name: &[u8], input: &[u8]) -> Result<Answer, AnswerFault>
    ensures exact { Gives (λ a. a) result (ended_output name.now input.now) }
    ensures promised { IfOk result (λ a. IsInputAnswer name.now input.now a) }
{
    match memchr(b'\n', input) {
        Some(end) => answer_parts(alloc, name, &input[..end], &input[end + 1..]),
        None => Err(cut_short(alloc)),
    }
}

fn is_ended(input: &[u8]) -> bool
    ensures { result ≡ is_ended input.now }
{
    let count = input.len();
    count != 0 && input[count - 1] == b'\n'
}

/// What is answered to an input.
pub(crate) fn next(alloc: Global, name: &[u8], input: &[u8]) -> Result<Answer, AnswerFault>
    ensures exact { Gives (λ a. a) result (next_output name.now input.now) }
    ensures promised { IfOk result (λ a. IsInputAnswer name.now input.now a) }
{
    if is_ended(input) {
        answer_ended(alloc, name, input)
    } else {
        Err(cut_short(alloc))
    }
}
