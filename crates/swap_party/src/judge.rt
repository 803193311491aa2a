//! What is found of all ledgers.

ghost use Rattle.std.specs.Prelude.{◌⊎◌, ◌≤◌, ◌<◌, length};
ghost use Rattle.party_judge.specs.Output.{judge_output};
ghost use Rattle.party_main.specs.Words.{judge_limit};
ghost use Rattle.swap_party.specs.Said.{IsJudgeSaid, IsNothing};

use crate::said::{NO_MEMORY, Said, TOO_LONG, answer_status, say, say_nothing, say_reason};
use party_judge::{Form, judge};
use party_main::{JUDGE_LIMIT, PartyReason};
use std::alloc::Global;
use swap_base::Fault;

/// Judges what wallets agreed on and a transcript of every ledger, as `party judge` does.
#[unsafe(no_mangle)]
pub extern "C" fn swap_party_judge(alloc: Global, text: &[u8], out: &mut [u8]) -> Said
    ensures long { judge_limit < length text.now → IsNothing 7 out.old out.new result }
    ensures said { length text.now ≤ judge_limit → IsJudgeSaid text.now (judge_output Form.Lines text.now) out.old out.new result ⊎ IsNothing 6 out.old out.new result }
{
    if JUDGE_LIMIT < text.len() {
        return say_nothing(TOO_LONG);
    }
    match judge(alloc, Form::Lines, text) {
        Ok(judgement) => say(
            answer_status(judgement.found),
            judgement.text.as_slice(),
            out,
        ),
        Err(Fault::Refused(reason)) => say_reason(alloc, &PartyReason::Judge(reason), out),
        Err(Fault::NoMemory) => say_nothing(NO_MEMORY),
    }
}
