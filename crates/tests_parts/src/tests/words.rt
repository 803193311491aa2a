//! The tasks that the words after the program's name ask for.

use crate::tests::text_rows::answers;
use program_words::read_task;
use std::alloc::Global;
use std::test::Fail;

fn add_word(alloc: Global, words: &mut Vec<String>, word: &str) -> Result<(), Fail> {
    words.push(String::from_str(alloc, word)?)?;
    Ok(())
}

/// The words that stand between single blanks.
fn split_words(alloc: Global, text: &str) -> Result<Vec<String>, Fail> {
    let mut words = Vec::new(alloc);
    for word in text.split(" ") {
        add_word(alloc, &mut words, word)?;
    }
    Ok(words)
}

/// The task that the words ask for, or that they are wrong.
fn told(alloc: Global, words: &[String]) -> Result<String, Fail> {
    match read_task(alloc, words)? {
        Some(task) => Ok(format!(in alloc; "{task:?}")?),
        None => Ok(String::from_str(alloc, "wrong")?),
    }
}

/// The task that the words of a text ask for.
pub(crate) fn task_text(alloc: Global, text: &str) -> Result<String, Fail> {
    let words = split_words(alloc, text)?;
    told(alloc, &words)
}

const TASKS: &str = "\
check => Input(Check)
run => Input(Run { transcript: false })
run --transcript => Input(Run { transcript: true })
race => Race { ticks: 1, transcript: false }
race --transcript => Race { ticks: 1, transcript: true }
race --ticks 7 => Race { ticks: 7, transcript: false }
race --ticks=7 => Race { ticks: 7, transcript: false }
race --ticks 7 --transcript => Race { ticks: 7, transcript: true }
race --transcript --ticks 7 => Race { ticks: 7, transcript: true }
race --ticks=7 --transcript => Race { ticks: 7, transcript: true }
race --transcript --ticks=7 => Race { ticks: 7, transcript: true }
audit => Input(Audit)
make => Input(Make)
clear => Input(Clear)
many => Input(Many)
gen --seed 1 --parties 2 --events 3 => Number(Request { seed: 1, parties: 2, events: 3, summary: false })
gen --seed=1 --parties=2 --events=3 => Number(Request { seed: 1, parties: 2, events: 3, summary: false })
gen --summary --events 3 --parties=2 --seed 1 => Number(Request { seed: 1, parties: 2, events: 3, summary: true })
gen --events=3 --summary --seed=1 --parties 2 => Number(Request { seed: 1, parties: 2, events: 3, summary: true })
gen --parties 2 --seed 1 --summary --events 3 => Number(Request { seed: 1, parties: 2, events: 3, summary: true })";

const NUMBERS: &str = "\
race --ticks 0 => wrong
race --ticks 1 => Race { ticks: 1, transcript: false }
race --ticks 1000 => Race { ticks: 1000, transcript: false }
race --ticks 1001 => wrong
race --ticks=1001 => wrong
race --ticks 0000001000 => Race { ticks: 1000, transcript: false }
race --ticks 00000001000 => wrong
race --ticks=0000000001 => Race { ticks: 1, transcript: false }
race --ticks=00000000001 => wrong
race --ticks +7 => wrong
race --ticks=+7 => wrong
race --ticks -7 => wrong
race --ticks=-7 => wrong
race --ticks 7x => wrong
race --ticks 0x7 => wrong
race --ticks 7.0 => wrong
race --ticks ٧ => wrong
race --ticks= => wrong
race --ticks  => wrong
race --ticks =7 => wrong
race --ticks==7 => wrong
race --ticks=7=7 => wrong
gen --seed 0 --parties 24 --events 200000 => Number(Request { seed: 0, parties: 24, events: 200000, summary: false })
gen --seed 4294967295 --parties 2 --events 0 => Number(Request { seed: 4294967295, parties: 2, events: 0, summary: false })
gen --seed 4294967296 --parties 2 --events 0 => wrong
gen --seed 9999999999 --parties 2 --events 0 => wrong
gen --seed 04294967295 --parties 2 --events 0 => wrong
gen --seed 0 --parties 1 --events 0 => wrong
gen --seed 0 --parties 25 --events 0 => wrong
gen --seed 0 --parties 258 --events 0 => wrong
gen --seed 0 --parties 0000000002 --events 0 => Number(Request { seed: 0, parties: 2, events: 0, summary: false })
gen --seed 0 --parties 2 --events 200001 => wrong";

const WRONG: &str = "\
Check => wrong
 => wrong
 check => wrong
check  => wrong
chec => wrong
checks => wrong
help => wrong
-h => wrong
--help => wrong
--version => wrong
-- => wrong
--transcript run => wrong
check check => wrong
check run => wrong
check -- => wrong
check -h => wrong
check --help => wrong
check -V => wrong
check --version => wrong
check --transcript => wrong
run -- => wrong
run -h => wrong
run --help => wrong
run --version => wrong
run help => wrong
run  => wrong
run transcript => wrong
run -transcript => wrong
run --transcrip => wrong
run --transcripts => wrong
run --Transcript => wrong
run --transcript= => wrong
run --transcript=true => wrong
run --transcript true => wrong
run --transcript --transcript => wrong
run --transcript -- => wrong
run -- --transcript => wrong
run --ticks 7 => wrong
run --summary => wrong
race --ticks => wrong
race --transcript --ticks => wrong
race --ticks --transcript => wrong
race --ticks --ticks 7 => wrong
race --ticks 7 --ticks 7 => wrong
race --ticks 7 --ticks=8 => wrong
race --ticks=7 --transcript --ticks=7 => wrong
race --ticks 7 8 => wrong
race 7 => wrong
race --seed 7 => wrong
audit --transcript => wrong
audit job => wrong
make --seed 1 => wrong
gen => wrong
gen --summary => wrong
gen --seed 1 --parties 2 => wrong
gen --seed 1 --events 3 => wrong
gen --parties 2 --events 3 --summary => wrong
gen --seed 1 --parties 2 --events => wrong
gen --seed --parties 2 --events 3 => wrong
gen --seed 1 --parties 2 --events 3 --seed 1 => wrong
gen --summary --seed 1 --parties 2 --events 3 --summary => wrong
gen --seed 1 --parties 2 --events 3 --transcript => wrong
gen --seed 1 --parties 2 --events 3 --ticks 1 => wrong";

#[test]
fn words_ask_for_tasks(rt: HostRuntime) -> Result<(), Fail> {
    let alloc = rt.alloc();
    if read_task(alloc, &[])?.is_some() {
        return Err("no words are a task".into());
    }
    answers(alloc, "words", TASKS)?;
    answers(alloc, "words", NUMBERS)?;
    answers(alloc, "words", WRONG)
}
