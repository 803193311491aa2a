//! The program: `party alice < lines`.
#![tactic(auto)]

ghost use Rattle.std.specs.Prelude.{[], false, Some, map, string_bytes};
ghost use Rattle.command_input.specs.Streams.{streams};
ghost use Rattle.party_main.specs.Says.{PartyStatusSays};
ghost use Rattle.party_main.specs.Process.{PartyProcessSays};

use command_input::collect_words;
use party_main::{Exit, PartyStatus, ending, party_top};
use std::alloc::Global;
use std::io::{Read, Write};
use std::process::ExitCode;
use std::{env, io};
use swap_io::{ReaderSource, TracedSink, WriterSink, write_all};

/// How a process ended, with its source and its sink.
struct Served<R: Read, W: Write> {
    status: PartyStatus,
    source: ReaderSource<R>,
    sink: TracedSink<WriterSink<W>>,
}

/// What the program does with its words, its standard input and its standard output. What its reads
/// gave is its input, and what its writes took is the text of it.
fn serve<R: Read, W: Write>(alloc: Global, words: &[String], reader: R, writer: W) -> Served<R, W>
    ensures says { PartyStatusSays (map string_bytes words.now) (streams (record { ahead = R.remaining reader; given = []; ended = false }) 0 (Some []) 0)
        (streams (record { ahead = R.remaining result.source.inner; given = result.source.given; ended = result.source.ended }) result.source.faults
        (Some result.sink.written) result.sink.inner.faults) result.status }
    ensures text { PartyProcessSays (map string_bytes words.now)
        (record { given = result.source.given; ended = result.source.ended; written = result.sink.written }) result.status }
{
    let mut source = ReaderSource::new(reader);
    let mut sink = TracedSink::new(WriterSink::new(writer));
    let status = party_top(alloc, words, &mut source, &mut sink);
    Served {
        status,
        source,
        sink,
    }
}

fn main(rt: HostRuntime) -> ExitCode {
    let status = match collect_words(rt.alloc(), env::args(&rt)) {
        Ok(Some(words)) => {
            let Served {
                status,
                source: _,
                sink: _,
            } = serve(rt.alloc(), &words, rt.reader(), io::writer(&rt));
            status
        }
        Ok(None) => PartyStatus::WrongWords,
        Err(_) => PartyStatus::NoMemory,
    };
    let Exit { number, told } = ending(rt.alloc(), status);
    // A standard error that can't be written changes no status.
    let _ = write_all(&mut WriterSink::new(rt.stderr()), told.as_slice());
    ExitCode::from(number)
}
