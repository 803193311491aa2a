//! The answer to an input.

ghost use Rattle.std.specs.Prelude.{◌≡◌, ◌<◌, ◌≤◌, ◌++◌, IfOk, OnOk, length};
ghost use Rattle.swap_base.specs.Fault.{Gives};
ghost use Rattle.swap_digraph.specs.Deal.{IsWellSized};
ghost use Rattle.history_index.specs.Indexes.{all_entries, AreIndexes};
ghost use Rattle.ledger_core.specs.Book.{IsLegalBook};
ghost use Rattle.swap_rules.specs.Counted.{all_counted};
ghost use Rattle.told_ledgers.specs.Telling.{told_book};
ghost use Rattle.party_terms.specs.Inside.{IsAgreedJob};
ghost use Rattle.party_notes.specs.Asked.{lines_asked, said_asked};
ghost use Rattle.party_answer.specs.Inside.{answers_text, calls_text, landing_timed, warned_text};
ghost use Rattle.party_notes.specs.Inside.{asked_question, said_state, IsWellAsked};
ghost use Rattle.useful_calls.specs.Actions.{actions};
ghost use Rattle.party_answer.specs.Stale.{is_any as is_any_stale};
ghost use Rattle.party_answer.specs.Text.{answer_told, answered, answered_calls, bad_lines, lines_answer, question_answer, said_answer, stale, unkept};
ghost use Rattle.party_answer.specs.Promised.{IsTextAnswer, IsPromisedAnswer, NeedsAgreement};

use crate::calls::with_heights;
use crate::given::Answer;
use crate::line::{put_landings, put_lines};
use crate::stale::{is_any, stopped_locks, without_waiting};
use crate::text::put_end;
use crate::timed::Timed;
use crate::warned::{Warned, collect_warned, is_warning, put_warnings};
use history_index::Index;
use outcome_rules::build_indexes;
use party_notes::{AnswerFault, Asked, Said, counted_book, read_said, refusal_fault, said_asked};
use party_rows::ended_lines;
use std::alloc::Global;
use swap_base::{ByteText, Digest, NoMemory};
use transcript_book::Parts;
use useful_calls::{DueCall, Signer, all_useful, landing_publishes, without_sent};

/// All that is answered.
fn answered(
    alloc: Global,
    seed: &Digest,
    asked: &Asked,
    known: &[Index],
    warned: &Warned,
) -> Result<Vec<DueCall>, NoMemory>
    requires asked { IsWellAsked seed.now asked.now }
    requires known { AreIndexes asked.now.deal known.now }
    requires entries { all_entries known.now ≡ all_counted asked.now.me (told_book asked.now.ledgers) }
    requires unkept { warned.now.unkept.items ≡ unkept (asked_question seed.now asked.now) }
    requires stale { warned.now.stale.items ≡ stale (asked_question seed.now asked.now) }
    ensures { IfOk result (λ v. actions v.items ≡ answered (asked_question seed.now asked.now)) }
{
    let kept = &asked.kept;
    let stopped = stopped_locks(alloc, &asked.deal, kept, &warned.unkept, &warned.stale)?;
    let signer = Signer {
        seed,
        kept: &kept.signed,
        stopped: stopped.as_slice(),
    };
    let told = asked.ledgers.as_slice();
    let useful = all_useful(alloc, &asked.deal, asked.me, &signer, known, told)?;
    let left = without_sent(alloc, kept.sent.as_slice(), useful)?;
    without_waiting(alloc, &warned.stale, left)
}

/// All that is answered, with its heights.
fn calls(
    alloc: Global,
    seed: &Digest,
    asked: &Asked,
    known: &[Index],
    warned: &Warned,
) -> Result<Vec<Timed>, NoMemory>
    requires asked { IsWellAsked seed.now asked.now }
    requires known { AreIndexes asked.now.deal known.now }
    requires entries { all_entries known.now ≡ all_counted asked.now.me (told_book asked.now.ledgers) }
    requires unkept { warned.now.unkept.items ≡ unkept (asked_question seed.now asked.now) }
    requires stale { warned.now.stale.items ≡ stale (asked_question seed.now asked.now) }
    ensures { IfOk result (λ v. v.items ≡ answered_calls (asked_question seed.now asked.now)) }
{
    let calls = answered(alloc, seed, asked, known, warned)?;
    with_heights(alloc, &asked.deal, known, asked.me, &calls)
}

/// The publishes that may land, with their heights.
fn landing(alloc: Global, asked: &Asked, known: &[Index]) -> Result<Vec<Timed>, NoMemory>
    requires sized { IsWellSized asked.now.deal }
    requires known { AreIndexes asked.now.deal known.now }
    requires legal { IsLegalBook asked.now.deal (all_entries known.now) }
    requires me { asked.now.me < asked.now.deal.graph.n }
    ensures { IfOk result (λ v. v.items ≡ landing_timed asked.now (all_entries known.now)) }
{
    let sent = asked.kept.sent.as_slice();
    let calls = landing_publishes(alloc, &asked.deal, known, asked.me, sent)?;
    with_heights(alloc, &asked.deal, known, asked.me, &calls)
}

/// Appends the hashkeys, the calls and what may land.
#[tactic(auto, using(crate::proofs::Joined::put_both))]
fn put_answers(
    out: &mut Vec<u8>,
    asked: &Asked,
    calls: &[Timed],
    landing: &[Timed],
) -> Result<(), NoMemory>
    ensures { OnOk result (out.new.items ≡ out.old.items ++ answers_text asked.now calls.now landing.now) }
{
    put_lines(out, asked.me, &asked.kept.signed, calls)?;
    put_landings(out, landing)
}

/// Appends the calls, or that there is none.
#[tactic(auto, using(crate::proofs::Joined::put_both))]
fn put_due(
    out: &mut Vec<u8>,
    is_stale: bool,
    asked: &Asked,
    known: &[Index],
    calls: &[Timed],
    landing: &[Timed],
) -> Result<(), NoMemory>
    requires sized { IsWellSized asked.now.deal }
    requires known { AreIndexes asked.now.deal known.now }
    requires me { asked.now.me < asked.now.deal.graph.n }
    ensures { OnOk result (out.new.items ≡ out.old.items ++ calls_text is_stale asked.now (all_entries known.now) calls.now landing.now) }
{
    put_answers(out, asked, calls, landing)?;
    put_end(out, is_stale, asked, known, calls, landing)
}

/// The text that answers, where this is what is answered.
fn text(
    alloc: Global,
    asked: &Asked,
    known: &[Index],
    warned: &Warned,
    calls: &[Timed],
    landing: &[Timed],
) -> Result<ByteText, NoMemory>
    requires sized { IsWellSized asked.now.deal }
    requires known { AreIndexes asked.now.deal known.now }
    requires me { asked.now.me < asked.now.deal.graph.n }
    requires few { length asked.now.ledgers ≤ 256 }
    ensures { IfOk result (λ t. t ≡ warned_text asked.now.kept.seen warned.now ++ bad_lines 0 asked.now.ledgers
        ++ calls_text (is_any_stale warned.now.stale.items) asked.now (all_entries known.now) calls.now landing.now) }
{
    let mut out = Vec::new(alloc);
    put_warnings(&mut out, asked, warned)?;
    put_due(
        &mut out,
        is_any(&warned.stale),
        asked,
        known,
        calls,
        landing,
    )?;
    Ok(ByteText::new(out))
}

/// The answer over ledgers as the indexes know them.
fn answer_known(
    alloc: Global,
    seed: &Digest,
    asked: &Asked,
    known: &[Index],
) -> Result<Answer, NoMemory>
    requires asked { IsWellAsked seed.now asked.now }
    requires known { AreIndexes asked.now.deal known.now }
    requires entries { all_entries known.now ≡ all_counted asked.now.me (told_book asked.now.ledgers) }
    ensures { IfOk result (λ a. a ≡ question_answer (asked_question seed.now asked.now)) }
{
    let warned = collect_warned(alloc, asked, known)?;
    let calls = calls(alloc, seed, asked, known, &warned)?;
    let landing = landing(alloc, asked, known)?;
    let text = text(alloc, asked, known, &warned, &calls, &landing)?;
    let warns = is_warning(asked, &warned);
    Ok(Answer { text, warns })
}

/// The answer to what is asked.
fn answer_asked(alloc: Global, seed: &Digest, asked: &Asked) -> Result<Answer, NoMemory>
    requires { IsWellAsked seed.now asked.now }
    ensures { IfOk result (λ a. a ≡ question_answer (asked_question seed.now asked.now)) }
{
    let book = counted_book(alloc, asked.me, asked.ledgers.as_slice())?;
    let known = build_indexes(alloc, &asked.deal, &book)?;
    answer_known(alloc, seed, asked, &known)
}

/// The answer to what an input says, and to the lines behind.
fn answer_said(
    alloc: Global,
    first: u32,
    name: &[u8],
    seed: &Digest,
    said: &Said,
    lines: &mut Parts<'_>,
) -> Result<Answer, AnswerFault>
    requires { IsAgreedJob said.now.agreed.job }
    ensures exact { Gives (λ a. a) result (said_answer first name.now seed.now (said_state said.now, lines.old)) }
    ensures promised { IfOk result (IsPromisedAnswer (said_asked first name.now seed.now (said_state said.now, lines.old))) }
{
    let asked = said_asked(alloc, first, name, seed, said, lines)?;
    Ok(answer_asked(alloc, seed, &asked)?)
}

/// The answer to lines, where the first line has that number.
fn answer_lines(
    alloc: Global,
    first: u32,
    name: &[u8],
    seed: &Digest,
    lines: &mut Parts<'_>,
) -> Result<Answer, AnswerFault>
    ensures exact { Gives (λ a. a) result (lines_answer first name.now seed.now lines.old) }
    ensures promised { IfOk result (IsPromisedAnswer (lines_asked first name.now seed.now lines.old)) }
{
    match read_said(alloc, first, lines) {
        Ok(said) => answer_said(alloc, first, name, seed, &said, lines),
        Err(fault) => Err(refusal_fault(fault)),
    }
}

/// All that is useful to a party, a line each, by its name, its seed and a text. The text has the
/// digest that was agreed on, what the party's wallet wrote down, the deal, and what each ledger
/// did as far as it was told. Its first line has that number in the input.
pub fn answer(
    alloc: Global,
    first: u32,
    name: &[u8],
    seed: &Digest,
    text: &[u8],
) -> Result<Answer, AnswerFault>
    ensures exact { Gives (λ a. a) result (answer_told first name.now seed.now text.now) }
    ensures promised { IfOk result (IsTextAnswer first name.now seed.now text.now) }
    ensures agreed { NeedsAgreement first text.now result }
{
    match ended_lines(alloc, text) {
        Ok(mut lines) => answer_lines(alloc, first, name, seed, &mut lines),
        Err(fault) => Err(refusal_fault(fault)),
    }
}
