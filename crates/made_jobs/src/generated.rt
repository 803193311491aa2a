//! The job that a number gives, as it is written.

ghost use Rattle.std.specs.Prelude.{◌≡◌, ◌≤◌, ◌++◌, [], IfOk, OnOk, IsErrOf};
ghost use Rattle.std.specs.Io.KnownBytes.{Appends};
ghost use Rattle.swap_base.specs.Text.{lines};
ghost use Rattle.swap_io.specs.Causes.{AppendsProperPrefix, Rose};
ghost use Rattle.swap_io.specs.Handed.{AppendsPrefix, Hands};
ghost use Rattle.swap_gen.specs.Drawn.{generated};
ghost use Rattle.swap_gen.specs.Events.{first_place, generated_events};
ghost use Rattle.swap_gen.specs.Line.{event_line};
ghost use Rattle.made_jobs.specs.Making.{written_line};
ghost use Rattle.made_jobs.specs.Generating.{generated_text, HasDrawnEvents};

use crate::header::put_header;
use std::alloc::Global;
use swap_base::{ByteText, Listed, NoMemory, TryCopy};
use swap_gen::{Generator, put_event};
use swap_io::{Sink, TextFault, flush, flush_waiting};

/// A job before its first event.
#[derive(Drop)]
struct Begun {
    generator: Generator,
    names: Listed<ByteText>,
}

/// Begins a job, and appends its header line.
fn begin(alloc: Global, out: &mut Vec<u8>, seed: u32, parties: u8) -> Result<Begun, NoMemory>
    requires low { 2 ≤ parties }
    requires high { parties ≤ 24 }
    ensures generator { IfOk result (λ b. b.generator ≡ record { seed = seed; parties = parties; place = first_place seed parties }) }
    ensures names { IfOk result (λ b. b.names ≡ (generated seed parties).names) }
    ensures line { OnOk result (out.new.items ≡ out.old.items ++ written_line (generated seed parties)) }
{
    let generator = Generator::new(alloc, seed, parties)?;
    let names = generator.job().names.copy()?;
    put_header(alloc, out, generator.job())?;
    Ok(Begun { generator, names })
}

/// Draws the given number of events, and hands on the line of each, so that nothing waits after
/// them.
fn write_events<K: Sink>(
    sink: &mut K,
    out: &mut Vec<u8>,
    generator: &mut Generator,
    names: &[ByteText],
    events: u32,
) -> Result<(), TextFault>
    requires { HasDrawnEvents generator.old.seed generator.old.parties events 0 generator.old }
    ensures hands { Hands (K.taken sink.old) (K.taken sink.new) (K.faults sink.old) (K.faults sink.new) out.old.items out.new.items
        (lines (λ _. event_line names.now) 0 (generated_events generator.old.seed generator.old.parties events)) result }
    ensures none { OnOk result (out.new.items ≡ []) }
{
    'events: for _e in 0..events {
        let event = generator.next_event();
        put_event(out, names, &event)?;
        flush_waiting(sink, out)?;
    }
    flush(sink, out)
}

/// The lines of a job, handed on so that nothing waits after them.
fn write_lines<K: Sink>(
    alloc: Global,
    sink: &mut K,
    out: &mut Vec<u8>,
    seed: u32,
    parties: u8,
    events: u32,
) -> Result<(), TextFault>
    requires low { 2 ≤ parties }
    requires high { parties ≤ 24 }
    ensures hands { Hands (K.taken sink.old) (K.taken sink.new) (K.faults sink.old) (K.faults sink.new) out.old.items out.new.items
        (generated_text seed parties events) result }
    ensures none { OnOk result (out.new.items ≡ []) }
{
    let Begun {
        mut generator,
        names,
    } = begin(alloc, out, seed, parties)?;
    write_events(sink, out, &mut generator, names.as_slice(), events)
}

/// Writes the job of a number and a count of parties, with the first `events` events: its header
/// line, and a line for each event. After want of memory a prefix of it was written.
pub fn write_generated<K: Sink>(
    alloc: Global,
    sink: &mut K,
    seed: u32,
    parties: u8,
    events: u32,
) -> Result<(), TextFault>
    requires low { 2 ≤ parties }
    requires high { parties ≤ 24 }
    ensures all { OnOk result (Appends (K.taken sink.old) (K.taken sink.new) (generated_text seed parties events)) }
    ensures write_fault { IsErrOf result TextFault.WriteFault
        → AppendsProperPrefix (K.taken sink.old) (K.taken sink.new) (generated_text seed parties events) }
    ensures no_memory { IsErrOf result TextFault.NoMemory
        → AppendsPrefix (K.taken sink.old) (K.taken sink.new) (generated_text seed parties events) }
    ensures later { K.faults sink.old ≤ K.faults sink.new }
    ensures failed { IsErrOf result TextFault.WriteFault → Rose (K.faults sink.old) (K.faults sink.new) }
{
    let mut out = Vec::new(alloc);
    write_lines(alloc, sink, &mut out, seed, parties, events)
}
