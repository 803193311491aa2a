//! Tables of questions and answers.

ghost use Rattle.swap_digraph.specs.Deal.{IsWellSized};

use crate::tests::disks::disk_told;
use crate::tests::faults::{fault_told, stop_told};
use crate::tests::shown::{deal_of_sevens, hashkey};
use hashkey_path::Hashkey;
use std::alloc::{AllocError, Global};
use std::test::Fail;
use swap_base::{NoMemory, Shared};
use swap_digraph::Deal;

/// What stands before and behind a mark, which a text without it has at its end.
pub(crate) fn parted<'a>(text: &'a str, mark: &str) -> (&'a str, &'a str) {
    text.split_once(mark).unwrap_or((text, ""))
}

/// The number of a word, and 99 for a word that is none.
pub(crate) fn word_number(word: &str) -> u8 {
    word.parse().unwrap_or(99)
}

/// The numbers of a text.
pub(crate) fn numbers(alloc: Global, text: &str) -> Result<Vec<u8>, NoMemory> {
    let mut numbers = Vec::new(alloc);
    for word in text.split(" ") {
        numbers.push(word_number(word))?;
    }
    Ok(numbers)
}

fn journal_answer(
    alloc: Global,
    deal: &Deal,
    key: &Shared<Hashkey>,
    about: &str,
    asked: &str,
) -> Result<String, AllocError>
    requires { IsWellSized deal.now }
{
    match about {
        "stops" => stop_told(alloc, deal, key, asked),
        "faults" => fault_told(alloc, deal, key, asked),
        _ => disk_told(alloc, deal, asked),
    }
}

fn is_answered(
    alloc: Global,
    deal: &Deal,
    key: &Shared<Hashkey>,
    about: &str,
    row: &str,
) -> Result<(), Fail>
    requires { IsWellSized deal.now }
{
    let (asked, wanted) = parted(row, " => ");
    let answer = journal_answer(alloc, deal, key, about, asked)?;
    if answer.as_str() != wanted {
        return Err(Fail::new(format_args!("{row} but {answer}")));
    }
    Ok(())
}

fn are_answered(
    alloc: Global,
    deal: &Deal,
    key: &Shared<Hashkey>,
    about: &str,
    table: &str,
) -> Result<(), Fail>
    requires { IsWellSized deal.now }
{
    for row in table.lines() {
        is_answered(alloc, deal, key, about, row)?;
    }
    Ok(())
}

/// Each row is what is asked and the answer: `ASKED => ANSWER`.
pub(crate) fn answers(alloc: Global, about: &str, table: &str) -> Result<(), Fail> {
    let deal = deal_of_sevens(alloc)?;
    let key = hashkey(alloc)?;
    are_answered(alloc, &deal, &key, about, table)
}
