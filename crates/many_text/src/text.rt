//! The whole text.

ghost use Rattle.std.specs.Prelude.{◌≡◌, ◌≤◌, IfOk, IsErrOf, OnOk};
ghost use Rattle.std.specs.Io.KnownBytes.{Appends};
ghost use Rattle.swap_io.specs.Causes.{AppendsProperPrefix, Rose};
ghost use Rattle.swap_io.specs.Handed.{AppendsPrefix, Hands};
ghost use Rattle.swap_many.specs.Value.{many_kept};
ghost use Rattle.many_text.specs.ManyText.{has_finding, many_text};
ghost use Rattle.many_text.specs.Shown.{AreChainsShown, AreShown};

use crate::chains::put_chains;
use crate::swaps::write_swaps;
use run_texts::put_count;
use std::alloc::Global;
use swap_base::{ByteText, Listed};
use swap_io::{Sink, TextFault, flush};
use swap_job::Job;
use swap_many::ManyWorld;

/// The text, handed on but for what waits, and whether it tells of a finding.
fn hand_many<K: Sink>(
    alloc: Global,
    sink: &mut K,
    out: &mut Vec<u8>,
    jobs: &[Job],
    names: &[Listed<ByteText>],
    world: &ManyWorld,
) -> Result<bool, TextFault>
    requires shown { AreShown world.now jobs.now }
    requires chains { AreChainsShown world.now names.now }
    ensures hands { Hands (K.taken sink.old) (K.taken sink.new) (K.faults sink.old) (K.faults sink.new) out.old.items out.new.items
        (many_text jobs.now names.now (many_kept world.now)) result }
    ensures found { IfOk result (λ f. f ≡ has_finding jobs.now (many_kept world.now)) }
{
    let count = write_swaps(alloc, sink, out, jobs, world)?;
    put_chains(out, names, world)?;
    put_count(out, count)?;
    Ok(count != 0)
}

/// Writes the report of each swap, what is free on each chain, and how many findings there are;
/// answers whether there is any. After want of memory a prefix of it was written.
pub fn write_many<K: Sink>(
    alloc: Global,
    sink: &mut K,
    jobs: &[Job],
    names: &[Listed<ByteText>],
    world: &ManyWorld,
) -> Result<bool, TextFault>
    requires shown { AreShown world.now jobs.now }
    requires chains { AreChainsShown world.now names.now }
    ensures all { OnOk result (Appends (K.taken sink.old) (K.taken sink.new) (many_text jobs.now names.now (many_kept world.now))) }
    ensures found { IfOk result (λ f. f ≡ has_finding jobs.now (many_kept world.now)) }
    ensures write_fault { IsErrOf result TextFault.WriteFault
        → AppendsProperPrefix (K.taken sink.old) (K.taken sink.new) (many_text jobs.now names.now (many_kept world.now)) }
    ensures no_memory { IsErrOf result TextFault.NoMemory
        → AppendsPrefix (K.taken sink.old) (K.taken sink.new) (many_text jobs.now names.now (many_kept world.now)) }
    ensures later { K.faults sink.old ≤ K.faults sink.new }
    ensures failed { IsErrOf result TextFault.WriteFault → Rose (K.faults sink.old) (K.faults sink.new) }
{
    let mut out = Vec::new(alloc);
    let found = hand_many(alloc, sink, &mut out, jobs, names, world)?;
    flush(sink, &mut out)?;
    Ok(found)
}
