//! Tables of questions and answers.

use crate::tests::lines::lines_told;
use crate::tests::whole::{
    broken_read, full_writer, grown, reader_read, vec_read, vec_written, writer_written,
};
use crate::tests::words::task_text;
use std::alloc::Global;
use std::test::Fail;

/// The answer to a word with a number, where the calls of these numbers fail.
fn word_answer(alloc: Global, word: &str, most: usize, failing: &[u64]) -> Result<String, Fail> {
    match word {
        "read" => vec_read(alloc, most, failing),
        "reader" => reader_read(alloc, most),
        "broken" => broken_read(alloc, most),
        "write" => vec_written(alloc, most, failing),
        "writer" => writer_written(alloc),
        "full" => full_writer(alloc),
        "text" => grown(alloc, most),
        _ => lines_told(alloc, word, u32::try_from(most)?, failing),
    }
}

/// The answer to a word and its number, with the number of a call that fails, if any.
fn told(alloc: Global, asked: &str) -> Result<String, Fail> {
    let (word, numbers) = asked.split_once(" ").ok_or("no number")?;
    match numbers.split_once(" ") {
        Some((most, call)) => word_answer(alloc, word, most.parse()?, &[call.parse()?]),
        None => word_answer(alloc, word, numbers.parse()?, &[]),
    }
}

fn tell_text(alloc: Global, about: &str, asked: &str) -> Result<String, Fail> {
    if about == "words" {
        task_text(alloc, asked)
    } else {
        told(alloc, asked)
    }
}

fn is_answered(alloc: Global, about: &str, row: &str) -> Result<(), Fail> {
    let (asked, wanted) = row.split_once(" => ").ok_or("no row")?;
    let answer = tell_text(alloc, about, asked)?;
    if answer.as_str() != wanted {
        return Err(Fail::new(format_args!("{row} but {answer}")));
    }
    Ok(())
}

/// Each row is what is asked and the answer: `ASKED => ANSWER`. What is asked are words of the
/// program, or a word of `word_answer` with its numbers.
pub(crate) fn answers(alloc: Global, about: &str, table: &str) -> Result<(), Fail> {
    for row in table.lines() {
        is_answered(alloc, about, row)?;
    }
    Ok(())
}
