//! Runs and races of the program in the process of the tests, with strategies and a gate of theirs.

ghost use Rattle.std.specs.Prelude.{ℕ, IfOk};
ghost use Rattle.swap_run.specs.View.{IsView, MayAnswer};

use command_input::Reason;
use party_threads::{Gate, Hooks};
use std::alloc::Global;
use std::sync::Wait;
use std::test::Fail;
use std::thread::Threads;
use swap_base::ByteText;
use swap_io::{TextSink, VecSource};
use swap_main::{Status, refusal_line, swap_top};
use swap_run::{Kit, Rule, Strategy};

/// The most bytes of one read.
const PER_READ: usize = 512;

/// A gate that keeps nobody.
pub(crate) struct Open;

impl Gate for Open {
    fn pass<R: Wait>(&self, _rt: &R, _actor: u8, _round: u32) {}
}

/// A kit with that one strategy. Who makes the rule hands it on: a function that gave away what
/// holds it would be one that hides.
pub(crate) fn rule_kit(alloc: Global, name: &str, rule: Rule) -> Result<Kit, Fail>
    requires callable { (d : _) (p t : ℕ) (k : _) → IsView d.now p k.now.histories → Rule.pre rule d p t k }
    requires fits { (d : _) (p t : ℕ) (k : _) (r : _) → IsView d.now p k.now.histories → Rule.post rule d p t k r → IfOk r (MayAnswer d.now p) }
{
    let name = ByteText::from_slice(alloc, name.as_bytes())?;
    let mut kit = Kit::new(alloc);
    kit.add(name, Strategy::new(rule))?;
    Ok(kit)
}

/// A refusal's line.
pub(crate) fn refusal_string(
    alloc: Global,
    reason: &Reason,
    names: &[ByteText],
) -> Result<String, Fail> {
    let line = refusal_line(alloc, reason, names)?;
    let text = str::from_utf8(line.as_slice()).unwrap_or("no text");
    Ok(String::from_str(alloc, text)?)
}

/// An answer as one text: a line for the status, and then all that was written.
fn told(alloc: Global, status: &Status, written: &[u8]) -> Result<String, Fail> {
    let word = match status {
        Status::Done => "done",
        Status::Named => "named",
        Status::Refused(reason, names) => return refusal_string(alloc, reason, names.as_slice()),
        _ => "at fault",
    };
    let text = str::from_utf8(written).unwrap_or("no text");
    Ok(format!(in alloc; "{word}\n{text}")?)
}

/// The words of a command, which single spaces part.
pub(crate) fn collect_words(alloc: Global, command: &str) -> Result<Vec<String>, Fail> {
    let mut words = Vec::new(alloc);
    for word in command.split(' ') {
        words.push(String::from_str(alloc, word)?)?;
    }
    Ok(words)
}

/// The program's status. What its contract says of it stays here: it would be carried along by
/// whatever comes after.
fn command_status<R: Threads + Wait + Sync, G: Gate>(
    rt: &R,
    alloc: Global,
    words: &Vec<String>,
    source: &mut VecSource,
    sink: &mut TextSink,
    hooks: &Hooks<'_, Kit, G>,
) -> Status {
    swap_top(rt, alloc, words, source, sink, hooks)
}

/// What the program answers to a command and what a source gives.
fn command_answer<R: Threads + Wait + Sync, G: Gate>(
    rt: &R,
    alloc: Global,
    command: &str,
    source: &mut VecSource,
    hooks: &Hooks<'_, Kit, G>,
) -> Result<String, Fail> {
    let words = collect_words(alloc, command)?;
    let mut sink = TextSink::new(alloc);
    let status = command_status(rt, alloc, &words, source, &mut sink, hooks);
    told(alloc, &status, sink.into_text().as_slice())
}

/// What it answers to a command and an input.
pub(crate) fn answer<R: Threads + Wait + Sync, G: Gate>(
    rt: &R,
    alloc: Global,
    command: &str,
    input: &str,
    gate: &G,
    kit: &Kit,
) -> Result<String, Fail> {
    let bytes = Vec::from_slice(alloc, input.as_bytes())?;
    let mut source = VecSource::new(bytes, PER_READ, Vec::new(alloc));
    let hooks = Hooks {
        strategies: kit,
        gate,
    };
    command_answer(rt, alloc, command, &mut source, &hooks)
}

/// What an audit answers of a race of the job, in which nothing is found.
pub(crate) fn raced<R: Threads + Wait + Sync, G: Gate>(
    rt: &R,
    alloc: Global,
    job: &str,
    gate: &G,
    kit: &Kit,
) -> Result<String, Fail> {
    let command = "race --ticks 1 --transcript";
    let answered = answer(rt, alloc, command, job, gate, kit)?;
    match answered.as_str().strip_prefix("done\n") {
        Some(transcript) => answer(rt, alloc, "audit", transcript, gate, kit),
        None => Err("a race isn't done".into()),
    }
}

/// Asks that something holds of an answer, and else tells both.
pub(crate) fn asks(holds: bool, what: &str, answered: &str) -> Result<(), Fail> {
    if holds {
        Ok(())
    } else {
        Err(Fail::new(format_args!("{what}: {answered}")))
    }
}
