//! The text of a transcript.

ghost use Rattle.std.specs.Prelude.{◌≡◌, ◌++◌, ◌≤◌, OnOk, IsErrOf, codes, false, true, length};
ghost use Rattle.std.specs.Io.KnownBytes.{Appends};
ghost use Rattle.swap_io.specs.Causes.{AppendsProperPrefix, Rose};
ghost use Rattle.swap_io.specs.Handed.{AppendsPrefix, Hands};
ghost use Rattle.offer_text.specs.HeaderLine.{is_make, AreSayable, IsWritable};
ghost use Rattle.transcript_book.specs.Lines.{transcript};
ghost use Rattle.run_texts.specs.Texts.{head_text};

use crate::transcript_ledgers::write_ledgers;
use ledger_core::Book;
use offer_text::write_deal;
use std::alloc::Global;
use swap_base::{NoMemory, Piece, put};
use swap_io::{Sink, TextFault, flush};
use swap_job::Job;

/// Appends the first line, and the job's header line.
fn put_head(out: &mut Vec<u8>, job: &Job) -> Result<(), NoMemory>
    requires writable { IsWritable job.now }
    requires sayable { is_make job.now.purpose ≡ true → AreSayable job.now }
    ensures { OnOk result (out.new.items ≡ out.old.items ++ head_text job.now) }
{
    let header = write_deal(*out.allocator(), job)?;
    put(
        out,
        &[
            Piece::Text("swap transcript 1\n"),
            Piece::Bytes(header.as_slice()),
            Piece::Text("\n"),
        ],
    )
}

/// Appends the last line.
fn put_end(out: &mut Vec<u8>) -> Result<(), NoMemory>
    ensures { OnOk result (out.new.items ≡ out.old.items ++ codes "end\n") }
{
    put(out, &[Piece::Text("end\n")])
}

/// The lines of a transcript, handed on but for what waits.
fn write_lines<K: Sink>(
    sink: &mut K,
    out: &mut Vec<u8>,
    job: &Job,
    book: &Book,
) -> Result<(), TextFault>
    requires writable { IsWritable job.now }
    requires sayable { is_make job.now.purpose ≡ true → AreSayable job.now }
    requires few { length book.now.histories ≤ 256 }
    ensures { Hands (K.taken sink.old) (K.taken sink.new) (K.faults sink.old) (K.faults sink.new) out.old.items out.new.items
        (transcript job.now book.now.histories) result }
{
    put_head(out, job)?;
    write_ledgers(sink, out, book)?;
    put_end(out)?;
    Ok(())
}

/// Writes the transcript of a job's book line by line: its header, each ledger's entries with their
/// replies, and the last line. After want of memory a prefix of it was written.
pub fn write_transcript<K: Sink>(
    alloc: Global,
    sink: &mut K,
    job: &Job,
    book: &Book,
) -> Result<(), TextFault>
    requires writable { IsWritable job.now }
    requires shown { is_make job.now.purpose ≡ false }
    requires few { length book.now.histories ≤ 256 }
    ensures all { OnOk result (Appends (K.taken sink.old) (K.taken sink.new) (transcript job.now book.now.histories)) }
    ensures write_fault { IsErrOf result TextFault.WriteFault
        → AppendsProperPrefix (K.taken sink.old) (K.taken sink.new) (transcript job.now book.now.histories) }
    ensures no_memory { IsErrOf result TextFault.NoMemory
        → AppendsPrefix (K.taken sink.old) (K.taken sink.new) (transcript job.now book.now.histories) }
    ensures later { K.faults sink.old ≤ K.faults sink.new }
    ensures failed { IsErrOf result TextFault.WriteFault → Rose (K.faults sink.old) (K.faults sink.new) }
{
    let mut out = Vec::new(alloc);
    write_lines(sink, &mut out, job, book)?;
    flush(sink, &mut out)
}
