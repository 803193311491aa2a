//! Where bytes come from and go to: sources and sinks, each with a count of faults, reading to the
//! end or line by line, and writing whole.
//!
//! A call fails only where the count rose: read `Rose` and `HasCause` in `specs/Causes.antt` first.
//! `read_all` and `write_all` say what was read or written at each of their answers. `Lines` gives
//! one line after another and keeps little: read `specs/Lines.antt`. `flush_waiting` and `flush`
//! hand a text to a sink piece by piece: read `specs/Handed.antt`. `ReaderSource` and `WriterSink`
//! adapt std's reader and writer. A source tells the bytes that its reads gave: read
//! `specs/Tape.antt`; `TracedSink` tells those that the writes of any sink took. `VecSource` and
//! `VecSink` lie in memory and fail where they are told to; `TextSink` grows.
#![tactic(auto)]

mod edge;
mod fault;
mod line_end;
mod lines;
mod memory;
mod sink;
mod source;
mod text_sink;
mod trace;
mod traced_sink;
mod waiting;

pub use edge::{ReaderSource, WriterSink};
pub use fault::{DrainFault, Failed, LineFault, ReadAllFault, TextFault, WriteFault};
pub use line_end::LineEnd;
pub use lines::Lines;
pub use memory::{VecSink, VecSource};
pub use sink::{Sink, write_all};
pub use source::{Source, read_all};
pub use text_sink::TextSink;
pub use traced_sink::TracedSink;
pub use waiting::{flush, flush_waiting};
