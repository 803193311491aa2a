//! What is written of a plain job.

ghost use Rattle.std.specs.Prelude.{◌≡◌, ◌≤◌, IfOk, OnOk, OnErr};
ghost use Rattle.swap_base.specs.Fault.{Gives};
ghost use Rattle.swap_offer.specs.Proposed.{HaveSeeds, IsProposed};
ghost use Rattle.offer_header.specs.Names.{AreNames};
ghost use Rattle.swap_offer.specs.Job.{IsWholeJob};
ghost use Rattle.swap_offer.specs.Wallets.{HaveScripts};
ghost use Rattle.swap_gen.specs.Made.{made};
ghost use Rattle.made_jobs.specs.Making.{line_step, written_line, IsMade};

use crate::header::put_header;
use command_input::OfferFault;
use std::alloc::Global;
use swap_base::{NoMemory, Piece, put};
use swap_gen::make;
use swap_job::Job;
use swap_offer::count_event;

/// The header line of the job that is made of a plain one, with a line feed. Its scripts stand
/// there move by move.
pub fn made_line(alloc: Global, job: &Job) -> Result<Vec<u8>, NoMemory>
    requires whole { IsWholeJob job.now }
    requires known { AreNames job.now.names }
    requires scripts { HaveScripts job.now }
    requires proposed { IsProposed job.now.deal }
    requires seeds { HaveSeeds job.now }
    ensures line { IfOk result (λ v. v.items ≡ written_line (made job.now)) }
    ensures made { OnOk result (IsMade job.now) }
{
    let made = make(alloc, job)?;
    let mut line = Vec::new(alloc);
    put_header(alloc, &mut line, &made)?;
    Ok(line)
}

/// Puts a line and a line feed behind a text, given how many lines the text has, and answers how
/// many it has with this one. The line isn't examined. A fault leaves the text as it was.
#[tactic(auto, unfolding(crate::specs::Making::line_step))]
pub fn copy_line(
    alloc: Global,
    text: &mut Vec<u8>,
    count: u32,
    number: u32,
    line: &[u8],
) -> Result<u32, OfferFault>
    requires { count ≤ 200000 }
    ensures exact { Gives (λ n. (n, text.new.items)) result (line_step (count, text.old.items) (number, line.now)) }
    ensures few { IfOk result (λ n. n ≤ 200000) }
    ensures err { OnErr result (text.new.items ≡ text.old.items) }
{
    let count = count_event(alloc, count, number, line)?;
    let mut whole = Vec::new(alloc);
    put(&mut whole, &[Piece::Bytes(line), Piece::Text("\n")])?;
    text.extend_from_slice(&whole)?;
    Ok(count)
}
