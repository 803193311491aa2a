//! The program: `swap run < offer`.
#![tactic(auto)]

ghost use Rattle.std.specs.Prelude.{◌≡◌, [], false, Some, map, string_bytes};
ghost use Rattle.command_input.specs.Streams.{streams};
ghost use Rattle.swap_main.specs.Answer.{IsAnswer};
ghost use Rattle.swap_main.specs.KnownStrategies.{own_strategies};
ghost use Rattle.swap_main.specs.Process.{IsProcess};

use command_input::collect_words;
use party_threads::{Gate, Hooks};
use std::alloc::Global;
use std::io::{Read, Write};
use std::process::ExitCode;
use std::sync::Wait;
use std::thread::Threads;
use std::{env, io};
use swap_io::{ReaderSource, Sink, Source, TracedSink, WriterSink, write_all};
use swap_main::{Exit, Program, Status, ending, may_race, swap_plain, swap_top};

/// A gate that keeps nobody.
struct OpenGate;

impl Gate for OpenGate {
    fn pass<R: Wait>(&self, _rt: &R, _actor: u8, _round: u32) {}
}

/// Does what the words ask for, with the program's own strategies.
fn perform<R: Threads + Wait + Sync, S: Source, K: Sink>(
    rt: &R,
    alloc: Global,
    words: &Vec<String>,
    source: &mut S,
    sink: &mut K,
) -> Status
    ensures answer { IsAnswer own_strategies (map string_bytes words.now.items)
        (streams (S.left source.old) (S.faults source.old) (K.taken sink.old) (K.faults sink.old))
        (streams (S.left source.new) (S.faults source.new) (K.taken sink.new) (K.faults sink.new)) result }
    ensures unread { result ≡ Status.WrongWords → source.new ≡ source.old }
{
    let strategies = Program { alloc };
    if may_race(words) {
        let hooks = Hooks {
            strategies: &strategies,
            gate: &OpenGate,
        };
        swap_top(rt, alloc, words, source, sink, &hooks)
    } else {
        swap_plain(alloc, words, source, sink, &strategies)
    }
}

/// How a process ended, with its source and its sink.
struct Served<I: Read, O: Write> {
    status: Status,
    source: ReaderSource<I>,
    sink: TracedSink<WriterSink<O>>,
}

/// What the program does with its words, its standard input and its standard output. What its reads
/// gave is its input, and what its writes took is the text of it.
fn serve<R: Threads + Wait + Sync, I: Read, O: Write>(
    rt: &R,
    alloc: Global,
    words: &Vec<String>,
    reader: I,
    writer: O,
) -> Served<I, O>
    ensures answer { IsAnswer own_strategies (map string_bytes words.now.items)
        (streams (record { ahead = I.remaining reader; given = []; ended = false }) 0 (Some []) 0)
        (streams (record { ahead = I.remaining result.source.inner; given = result.source.given; ended = result.source.ended }) result.source.faults
        (Some result.sink.written) result.sink.inner.faults) result.status }
    ensures text { IsProcess own_strategies (map string_bytes words.now.items)
        (record { given = result.source.given; ended = result.source.ended; written = result.sink.written }) result.status }
{
    let mut source = ReaderSource::new(reader);
    let mut sink = TracedSink::new(WriterSink::new(writer));
    let status = perform(rt, alloc, words, &mut source, &mut sink);
    Served {
        status,
        source,
        sink,
    }
}

fn main(rt: HostRuntime) -> ExitCode {
    let status = match collect_words(rt.alloc(), env::args(&rt)) {
        Ok(Some(words)) => {
            let Served {
                status,
                source: _,
                sink: _,
            } = serve(&rt, rt.alloc(), &words, rt.reader(), io::writer(&rt));
            status
        }
        Ok(None) => Status::WrongWords,
        Err(_) => Status::NoMemory,
    };
    let Exit { number, told } = ending(rt.alloc(), status);
    // A standard error that can't be written changes no status.
    let _ = write_all(&mut WriterSink::new(rt.stderr()), told.as_slice());
    ExitCode::from(number)
}
