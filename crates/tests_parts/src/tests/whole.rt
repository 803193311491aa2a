//! Sources and sinks that are read and written whole.

use crate::tests::text_rows::answers;
use std::alloc::Global;
use std::io::{self, Read};
use std::test::Fail;
use swap_base::{ByteText, NoMemory};
use swap_io::{
    ReaderSource, Source, TextSink, VecSink, VecSource, WriteFault, WriterSink, flush,
    flush_waiting, read_all, write_all,
};

fn to_text(alloc: Global, bytes: &[u8]) -> Result<String, Fail> {
    Ok(String::from_str(alloc, str::from_utf8(bytes)?)?)
}

/// All that a source gives, or why it was not read whole.
fn whole_source<S: Source>(alloc: Global, source: &mut S, limit: usize) -> Result<String, Fail> {
    match read_all(alloc, source, limit) {
        Ok(all) => to_text(alloc, &all),
        Err(fault) => Ok(format!(in alloc; "{fault:?}")?),
    }
}

/// A source of these bytes, some of whose reads fail.
pub(crate) fn make_source(
    alloc: Global,
    input: &[u8],
    per_call: usize,
    failing: &[u64],
) -> Result<VecSource, NoMemory> {
    let bytes = Vec::from_slice(alloc, input)?;
    let failing = Vec::from_slice(alloc, failing)?;
    Ok(VecSource::new(bytes, per_call.max(1), failing))
}

/// Five bytes from memory.
pub(crate) fn vec_read(alloc: Global, limit: usize, failing: &[u64]) -> Result<String, Fail> {
    let mut source = make_source(alloc, b"hello", 2, failing)?;
    whole_source(alloc, &mut source, limit)
}

/// Five bytes from a reader.
pub(crate) fn reader_read(alloc: Global, limit: usize) -> Result<String, Fail> {
    let mut source = ReaderSource::new(b"hello".as_slice());
    whole_source(alloc, &mut source, limit)
}

#[derive(Drop)]
struct Broken;

impl Read for Broken {
    fn read(&mut self, _buf: &mut [u8]) -> io::Result<usize> {
        Err(io::Error::from(io::ErrorKind::Other))
    }
}

/// A reader whose reads all fail.
pub(crate) fn broken_read(alloc: Global, limit: usize) -> Result<String, Fail> {
    let mut source = ReaderSource::new(Broken);
    whole_source(alloc, &mut source, limit)
}

/// What was taken of a text, and what was answered.
fn taken_text(alloc: Global, taken: &[u8], done: Result<(), WriteFault>) -> Result<String, Fail> {
    let text = str::from_utf8(taken)?;
    Ok(format!(in alloc; "[{text}] {done:?}")?)
}

fn make_sink(alloc: Global, room: usize, failing: &[u64]) -> Result<VecSink, NoMemory> {
    let failing = Vec::from_slice(alloc, failing)?;
    VecSink::new(alloc, room, 2, failing)
}

/// Five bytes to a sink in memory of so much room.
pub(crate) fn vec_written(alloc: Global, room: usize, failing: &[u64]) -> Result<String, Fail> {
    let mut sink = make_sink(alloc, room, failing)?;
    let done = write_all(&mut sink, b"hello");
    taken_text(alloc, sink.taken(), done)
}

fn write_output(out: &mut Vec<u8>) -> Result<(), WriteFault> {
    let mut sink = WriterSink::new(out);
    write_all(&mut sink, b"hello")
}

/// Five bytes to a writer that grows.
pub(crate) fn writer_written(alloc: Global) -> Result<String, Fail> {
    let mut out = Vec::new(alloc);
    let done = write_output(&mut out);
    taken_text(alloc, &out, done)
}

/// Five bytes to a writer with room for three.
pub(crate) fn full_writer(alloc: Global) -> Result<String, Fail> {
    let mut room = [0; 3];
    let mut sink = WriterSink::new(room.as_mut_slice());
    let done = write_all(&mut sink, b"hello");
    taken_text(alloc, &room, done)
}

/// How many bytes wait behind a call with those that wait, and behind one with one byte more; then
/// all are written.
fn waits(sink: &mut TextSink, waiting: &mut Vec<u8>) -> Result<(usize, usize), Fail> {
    flush_waiting(sink, waiting)?;
    let first = waiting.len();
    waiting.push(b'y')?;
    flush_waiting(sink, waiting)?;
    let then = waiting.len();
    flush(sink, waiting)?;
    Ok((first, then))
}

fn counts_text(alloc: Global, first: usize, then: usize, text: &ByteText) -> Result<String, Fail> {
    let written = text.as_slice().len();
    Ok(format!(in alloc; "{first} {then} {written}")?)
}

/// Writes this many bytes to a text that grows, and one more. Tells how many wait after each write,
/// and how many were written at the end.
pub(crate) fn grown(alloc: Global, bytes: usize) -> Result<String, Fail> {
    let mut waiting = vec![in alloc; b'x'; bytes]?;
    let mut sink = TextSink::new(alloc);
    let (first, then) = waits(&mut sink, &mut waiting)?;
    counts_text(alloc, first, then, &sink.into_text())
}

/// A number is the most bytes that are read, the room, or how many bytes are written; one behind it
/// is that of a call that fails.
const TABLE: &str = "\
read 5 => hello
read 6 => hello
read 18446744073709551615 => hello
read 4 => TooLong
read 0 => TooLong
read 5 3 => ReadFault
read 4 0 => ReadFault
reader 5 => hello
broken 5 => ReadFault
write 5 3 => [hello] Ok(())
write 4 => [hell] Err(WriteFault)
write 0 => [] Err(WriteFault)
write 9 1 => [he] Err(WriteFault)
writer 5 => [hello] Ok(())
full 3 => [hel] Err(WriteFault)
text 5000 => 0 1 5001";

#[test]
fn reads_and_writes_whole(rt: HostRuntime) -> Result<(), Fail> {
    answers(rt.alloc(), "bytes", TABLE)
}
