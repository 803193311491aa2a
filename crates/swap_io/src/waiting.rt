//! Bytes that wait to be written, so that short pieces go to a sink together.

ghost use Rattle.std.specs.Prelude.{◌≡◌, [], OnOk};
ghost use Rattle.swap_io.specs.Handed.{Hands};

use crate::fault::TextFault;
use crate::sink::{Sink, write_all};

/// How many bytes may wait.
const PAGE: usize = 4096;

/// Writes what waits.
pub fn flush<K: Sink>(sink: &mut K, waiting: &mut Vec<u8>) -> Result<(), TextFault>
    ensures hands { Hands (K.taken sink.old) (K.taken sink.new) (K.faults sink.old) (K.faults sink.new) waiting.old.items waiting.new.items [] result }
    ensures none { OnOk result (waiting.new.items ≡ []) }
{
    write_all(sink, waiting)?;
    waiting.clear();
    Ok(())
}

/// Writes what waits, where it is more than a page. Called after each line, it keeps what waits
/// short.
pub fn flush_waiting<K: Sink>(sink: &mut K, waiting: &mut Vec<u8>) -> Result<(), TextFault>
    ensures { Hands (K.taken sink.old) (K.taken sink.new) (K.faults sink.old) (K.faults sink.new) waiting.old.items waiting.new.items [] result }
{
    if waiting.len() > PAGE {
        flush(sink, waiting)
    } else {
        Ok(())
    }
}
