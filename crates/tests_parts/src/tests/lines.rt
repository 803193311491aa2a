//! Lines of a source, one after another.

use crate::tests::text_rows::answers;
use crate::tests::whole::make_source;
use std::alloc::Global;
use std::test::Fail;
use swap_io::{LineEnd, LineFault, Lines, VecSource};

/// Reads a line and appends it with a mark behind it, `|` for a line feed; none at the end.
fn append_marked_line(
    lines: &mut Lines,
    source: &mut VecSource,
    line: &mut Vec<u8>,
    all: &mut Vec<u8>,
) -> Result<bool, LineFault> {
    let mark = match lines.next(source, line)? {
        LineEnd::Ended => b'|',
        LineEnd::Rest => b'~',
        LineEnd::End => return Ok(false),
    };
    all.extend_from_slice(line)?;
    all.extend_from_slice(&[mark])?;
    Ok(true)
}

/// Reads at most this number of lines.
fn collect_lines(
    lines: &mut Lines,
    source: &mut VecSource,
    line: &mut Vec<u8>,
    all: &mut Vec<u8>,
    most: usize,
) -> Result<(), LineFault> {
    for _ in 0..most {
        if !append_marked_line(lines, source, line, all)? {
            return Ok(());
        }
    }
    Ok(())
}

/// Reads all lines, appends them with their marks, and answers how the reading ended.
fn read_lines(
    alloc: Global,
    source: &mut VecSource,
    limit: u32,
    most: usize,
    all: &mut Vec<u8>,
) -> Result<(), LineFault> {
    let mut lines = Lines::new(alloc, limit as usize)?;
    let mut line = Vec::new(alloc);
    collect_lines(&mut lines, source, &mut line, all, most)
}

/// The lines of an input, each with its mark.
fn read_marked_lines(
    alloc: Global,
    input: &[u8],
    per_call: usize,
    limit: u32,
) -> Result<Vec<u8>, Fail> {
    let mut all = Vec::new(alloc);
    let mut source = make_source(alloc, input, per_call, &[])?;
    read_lines(alloc, &mut source, limit, input.len() + 2, &mut all)?;
    Ok(all)
}

/// The marked lines by hand: a line feed becomes a mark, and bytes that none ends get another.
fn marked(alloc: Global, input: &[u8]) -> Result<Vec<u8>, Fail> {
    let mut all = Vec::new(alloc);
    for b in input {
        all.push(if *b == b'\n' { b'|' } else { *b })?;
    }
    if input.last().is_some_and(|b| *b != b'\n') {
        all.push(b'~')?;
    }
    Ok(all)
}

/// The lines of an input come as they are wanted, with this number of bytes a call.
fn gives_lines(
    alloc: Global,
    input: &[u8],
    wanted: &[u8],
    per_call: usize,
    limit: u32,
) -> Result<(), Fail> {
    let lines = read_marked_lines(alloc, input, per_call, limit)?;
    if lines.as_slice() != wanted {
        let bytes = input.len();
        return Err(Fail::new(format_args!("{bytes} bytes, {per_call} a call")));
    }
    Ok(())
}

fn gives_at_each(
    alloc: Global,
    input: &[u8],
    wanted: &[u8],
    calls: &[usize],
    limit: u32,
) -> Result<(), Fail> {
    for per_call in calls {
        gives_lines(alloc, input, wanted, *per_call, limit)?;
    }
    Ok(())
}

/// The lines of an input are those that stand in it, whatever the most bytes a call.
fn comes_back(alloc: Global, input: &[u8], calls: &[usize], limit: u32) -> Result<(), Fail> {
    let wanted = marked(alloc, input)?;
    gives_at_each(alloc, input, &wanted, calls, limit)
}

#[test]
fn gives_the_lines_of_every_cut(rt: HostRuntime) -> Result<(), Fail> {
    let input = b"ab\n\n\ncde\nf";
    for cut in 0..=input.len() {
        comes_back(rt.alloc(), &input[..cut], &[1, 2, 3, 100], 10)?;
    }
    Ok(())
}

/// Ends a line, and appends a short one and three of 3,000 bytes.
fn add_long_lines(input: &mut Vec<u8>) -> Result<(), Fail> {
    input.extend_from_slice(b"\ny\n")?;
    for b in 0..9_000 {
        input.push(if b % 3_000 == 0 { b'\n' } else { b'z' })?;
    }
    Ok(())
}

#[test]
fn gives_lines_that_are_longer_than_its_buffer(rt: HostRuntime) -> Result<(), Fail> {
    let mut input = vec![in rt.alloc(); b'x'; 20_000]?;
    add_long_lines(&mut input)?;
    let calls = [1, 4_095, 8_191, 8_192, 8_193, 50_000];
    comes_back(rt.alloc(), &input, &calls, 50_000)
}

/// How the reading of two lines ends, where it may take at most `limit` bytes.
fn limited(alloc: Global, limit: u32) -> Result<String, Fail> {
    let mut source = make_source(alloc, b"ab\ncd", 2, &[])?;
    let mut all = Vec::new(alloc);
    let done = read_lines(alloc, &mut source, limit, 7, &mut all);
    ending(alloc, done)
}

fn ending(alloc: Global, done: Result<(), LineFault>) -> Result<String, Fail> {
    Ok(format!(in alloc; "{done:?}")?)
}

/// What a drain answers after the first line.
fn drain_lines(
    alloc: Global,
    lines: &mut Lines,
    source: &mut VecSource,
    line: &mut Vec<u8>,
) -> Result<String, Fail> {
    if lines.next(source, line)? != LineEnd::Ended {
        return Err("no line".into());
    }
    let done = lines.drain(source);
    Ok(format!(in alloc; "{done:?}")?)
}

fn drained_after_one(alloc: Global, source: &mut VecSource, limit: u32) -> Result<String, Fail> {
    let mut lines = Lines::new(alloc, limit as usize)?;
    let mut line = Vec::new(alloc);
    drain_lines(alloc, &mut lines, source, &mut line)
}

/// What a drain of at most `limit` bytes answers after the first of three lines of seven bytes.
fn drained(alloc: Global, limit: u32, failing: &[u64]) -> Result<String, Fail> {
    let mut source = make_source(alloc, b"a\nb\ncd\n", 4, failing)?;
    drained_after_one(alloc, &mut source, limit)
}

/// The answer to a word with the most bytes that are taken, where the reads of these numbers fail.
pub(crate) fn lines_told(
    alloc: Global,
    word: &str,
    limit: u32,
    failing: &[u64],
) -> Result<String, Fail> {
    match word {
        "limit" => limited(alloc, limit),
        "drain" => drained(alloc, limit, failing),
        _ => Err("no word".into()),
    }
}

/// A number is the most bytes that are taken; one behind it is that of a read that fails.
const TABLE: &str = "\
limit 0 => Err(TooLong)
limit 1 => Err(TooLong)
limit 2 => Err(TooLong)
limit 3 => Err(TooLong)
limit 4 => Err(TooLong)
drain 7 => Ok(())
drain 6 => Err(TooLong)
drain 7 2 => Err(ReadFault)
drain 6 1 => Err(ReadFault)";

#[test]
fn takes_no_more_than_the_limit(rt: HostRuntime) -> Result<(), Fail> {
    answers(rt.alloc(), "bytes", TABLE)
}
