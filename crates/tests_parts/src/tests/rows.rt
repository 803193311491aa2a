//! Tables of questions and answers.

use crate::tests::digraph_text::told;
use crate::tests::graphs::build_graph;
use crate::tests::lists::list_told;
use crate::tests::signatures::list_digests;
use std::alloc::{AllocError, Global};
use std::test::Fail;

/// What stands before and behind a mark, which a text without it has at its end.
pub(crate) fn parted<'a>(text: &'a str, mark: &str) -> (&'a str, &'a str) {
    text.split_once(mark).unwrap_or((text, ""))
}

/// The number of a word, and 255 for a word that is none.
pub(crate) fn word_number(word: &str) -> u8 {
    word.parse().unwrap_or(255)
}

/// What is answered where memory is wanting.
pub(crate) fn no_memory(alloc: Global) -> Result<String, AllocError> {
    String::from_str(alloc, "no memory")
}

/// The answer to a question about a digraph.
fn graph_told(alloc: Global, asked: &str) -> Result<String, AllocError> {
    let (question, arcs) = parted(asked, ": ");
    match build_graph(alloc, arcs) {
        Some(graph) => told(alloc, question, &graph),
        None => String::from_str(alloc, "no digraph"),
    }
}

fn actual_answer(alloc: Global, about: &str, asked: &str) -> Result<String, AllocError> {
    match about {
        "digraphs" => graph_told(alloc, asked),
        "signatures" => list_digests(alloc, asked),
        _ => list_told(alloc, asked),
    }
}

fn is_answered(alloc: Global, about: &str, row: &str) -> Result<(), Fail> {
    let (asked, wanted) = parted(row, " => ");
    let answer = actual_answer(alloc, about, asked)?;
    if answer.as_str() != wanted {
        return Err(Fail::new(format_args!("{row} but {answer}")));
    }
    Ok(())
}

/// Each row is what is asked and the answer: `ASKED => ANSWER`.
pub(crate) fn answers(alloc: Global, about: &str, table: &str) -> Result<(), Fail> {
    for row in table.lines() {
        is_answered(alloc, about, row)?;
    }
    Ok(())
}
