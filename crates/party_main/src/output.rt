//! What the program `party` writes of an input, by its command.

ghost use Rattle.std.specs.Prelude.{IfOk};
ghost use Rattle.swap_base.specs.Fault.{Gives};
ghost use Rattle.party_rows.specs.Dealt.{IsDealtText};
ghost use Rattle.party_rows.specs.Keys.{deal_output, keys_output};
ghost use Rattle.party_terms.specs.Terms.{terms_output};
ghost use Rattle.party_main.specs.Next.{next_output, IsInputAnswer};
ghost use Rattle.party_judge.specs.Output.{judge_output};
ghost use Rattle.party_main.specs.Output.{by_answer, by_deal, by_header, by_judgement, party_output, IsPromisedOutput, IsPromisedJudgement};

use crate::command::Command;
use crate::next::next;
use crate::reason::{PartyFault, answer_fault, deal_fault, header_fault, judge_fault};
use party_answer::Answer;
use party_judge::{Form, Judgement, judge};
use party_rows::{deal, keys};
use party_terms::terms;
use std::alloc::Global;

fn keys_written(alloc: Global, name: &[u8], input: &[u8]) -> Result<Answer, PartyFault>
    ensures { Gives (λ a. a) result (by_header (keys_output name.now input.now)) }
{
    match keys(alloc, name, input) {
        Ok(text) => Ok(Answer { text, warns: false }),
        Err(fault) => Err(header_fault(fault)),
    }
}

fn deal_written(alloc: Global, input: &[u8]) -> Result<Answer, PartyFault>
    ensures exact { Gives (λ a. a) result (by_deal (deal_output input.now)) }
    ensures dealt { IfOk result (λ a. IsDealtText a.text) }
{
    match deal(alloc, input) {
        Ok(text) => Ok(Answer { text, warns: false }),
        Err(fault) => Err(deal_fault(fault)),
    }
}

fn terms_written(alloc: Global, name: &[u8], input: &[u8]) -> Result<Answer, PartyFault>
    ensures { Gives (λ a. a) result (by_header (terms_output name.now input.now)) }
{
    match terms(alloc, name, input) {
        Ok(text) => Ok(Answer { text, warns: false }),
        Err(fault) => Err(header_fault(fault)),
    }
}

fn next_written(alloc: Global, name: &[u8], input: &[u8]) -> Result<Answer, PartyFault>
    ensures exact { Gives (λ a. a) result (by_answer (next_output name.now input.now)) }
    ensures answer { IfOk result (λ a. IsInputAnswer name.now input.now a) }
{
    match next(alloc, name, input) {
        Ok(answer) => Ok(answer),
        Err(fault) => Err(answer_fault(fault)),
    }
}

fn judge_written(alloc: Global, form: Form, input: &[u8]) -> Result<Answer, PartyFault>
    ensures exact { Gives (λ a. a) result (by_judgement (judge_output form input.now)) }
    ensures judgement { IfOk result (λ a. IsPromisedJudgement form input.now a) }
{
    match judge(alloc, form, input) {
        Ok(Judgement { text, found }) => Ok(Answer { text, warns: found }),
        Err(fault) => Err(judge_fault(fault)),
    }
}

/// What is written of an input for a command. It warns where a line of it tells of something that
/// should not be.
pub(crate) fn party_output(
    alloc: Global,
    command: &Command<'_>,
    input: &[u8],
) -> Result<Answer, PartyFault>
    ensures exact { Gives (λ a. a) result (party_output command.now input.now) }
    ensures promised { IfOk result (λ a. IsPromisedOutput command.now input.now a) }
{
    match command {
        Command::Keys(name) => keys_written(alloc, name.as_slice(), input),
        Command::Deal => deal_written(alloc, input),
        Command::Terms(name) => terms_written(alloc, name.as_slice(), input),
        Command::Next(name) => next_written(alloc, name.as_slice(), input),
        Command::Judge(form) => judge_written(alloc, *form, input),
    }
}
