//! The header line of a job, as it stands in a file.

ghost use Rattle.std.specs.Prelude.{◌≡◌, ◌++◌, OnOk};
ghost use Rattle.offer_text.specs.HeaderLine.{AreSayable, IsWritable};
ghost use Rattle.made_jobs.specs.Making.{written_line};

use offer_text::write_deal;
use std::alloc::Global;
use swap_base::{NoMemory, Piece, put};
use swap_job::Job;

/// Appends the header line of a job, with a line feed.
#[tactic(auto, unfolding(crate::specs::Making::written_line))]
pub(crate) fn put_header(alloc: Global, out: &mut Vec<u8>, job: &Job) -> Result<(), NoMemory>
    requires writable { IsWritable job.now }
    requires sayable { AreSayable job.now }
    ensures { OnOk result (out.new.items ≡ out.old.items ++ written_line job.now) }
{
    let line = write_deal(alloc, job)?;
    put(out, &[Piece::Bytes(line.as_slice()), Piece::Text("\n")])
}
