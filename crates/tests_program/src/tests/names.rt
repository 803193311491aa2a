//! What is told of parties by their names.

use crate::tests::runs::{asks, refusal_string};
use command_input::Reason;
use std::alloc::Global;
use std::test::Fail;
use swap_base::{ByteText, Listed};

/// Two parties, one of whom has control characters in its name.
fn names(alloc: Global) -> Result<Vec<ByteText>, Fail> {
    let mut names = Vec::new(alloc);
    for name in ["alice", "b\u{7}o\u{9b}b\u{e9}"] {
        names.push(ByteText::from_slice(alloc, name.as_bytes())?)?;
    }
    Ok(names)
}

/// The line of a cycle of parties, one of whom has no name.
fn line_of_cycle(alloc: Global, names: &[ByteText]) -> Result<String, Fail> {
    let cycle = Vec::from_slice(alloc, &[1, 0, 9])?;
    refusal_string(alloc, &Reason::NotFeedback(Listed::new(cycle)), names)
}

#[test]
fn tells_of_parties_by_their_names(rt: HostRuntime) -> Result<(), Fail> {
    let names = names(rt.alloc())?;
    let line = line_of_cycle(rt.alloc(), &names)?;
    let wanted = "swap: refused: NotFeedback b\\u{7}o\\u{9b}b\u{e9},alice,";
    asks(line.as_str() == wanted, "line", line.as_str())
}
