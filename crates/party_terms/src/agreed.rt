//! What wallets agree on: a deal's header line, lines of context, and the digest of both.

ghost use Rattle.std.specs.Prelude.{◌≡◌, ◌++◌, ◌∷◌, [], IfOk};
ghost use Rattle.std.specs.List.{flat_map};
ghost use Rattle.swap_base.specs.Fault.{Gives};
ghost use Rattle.hashkey_path.specs.Digest.{Feeds};
ghost use Rattle.party_rows.specs.Lines.{TakesFirstLine};
ghost use Rattle.party_terms.specs.Inside.{inside_agreed, IsAgreedJob};
ghost use Rattle.offer_header.specs.Names.{AreNames};
ghost use Rattle.swap_offer.specs.Job.{IsWholeJob};
ghost use Rattle.party_terms.specs.Terms.{parse_agreed, agreed_digest, parse_header_line, very_line};

use crate::context::{ContextLine, read_context};
use command_input::{HeaderFault, Reason};
use offer_text::write_deal;
use party_rows::{first_line, refused, short_header};
use sha2::{Digest as Hasher, Sha256};
use std::alloc::Global;
use swap_base::{Digest, Listed};
use swap_job::{Job, Purpose};
use swap_offer::read_header;
use transcript_book::Parts;

/// What wallets agree on.
#[derive(Debug, Drop)]
pub struct Agreed {
    pub job: Job,
    pub context: Listed<ContextLine>,
    /// The digest of the header line and the lines of context, each with its line feed.
    pub digest: Digest,
    /// The number of the line behind.
    pub next: u32,
}

fn feed_line(hasher: &mut Sha256, line: &[u8])
    ensures { Feeds hasher.old hasher.new (line.now ++ 10 ∷ []) }
{
    hasher.update(line);
    hasher.update([10u8]);
}

fn feed_context(hasher: &mut Sha256, context: &[ContextLine])
    ensures { Feeds hasher.old hasher.new (flat_map (λ x. x.line ++ 10 ∷ []) context.now) }
{
    'lines: for about in context {
        feed_line(hasher, about.line.as_slice());
    }
}

/// The digest to agree on. It takes no memory.
#[tactic(auto, unfolding(crate::specs::Terms::agreed_digest))]
fn agreed_digest(header: &[u8], context: &[ContextLine]) -> Digest
    ensures { result ≡ agreed_digest header.now context.now }
{
    let mut hasher = Sha256::new();
    feed_line(&mut hasher, header);
    feed_context(&mut hasher, context);
    hasher.finalize()
}

/// The line of that number is the very line that is written of its job.
#[tactic(auto, using(party_rows::proofs::Writable::whole_is_writable), unfolding(crate::specs::Terms::very_line))]
fn very_line(alloc: Global, line: u32, text: &[u8], job: &Job) -> Result<(), HeaderFault>
    requires whole { IsWholeJob job.now }
    requires names { AreNames job.now.names }
    requires purpose { job.now.purpose ≡ Purpose.Audit }
    ensures { Gives (λ u. u) result (very_line line text.now job.now) }
{
    let written = write_deal(alloc, job)?;
    if text == written.as_slice() {
        Ok(())
    } else {
        Err(refused(alloc, Reason::BadLine(line)))
    }
}

/// The job of a deal's header line of that number, as a transcript has it and as `deal` writes it.
#[tactic(auto, unfolding(crate::specs::Terms::parse_header_line))]
fn parse_header_line(alloc: Global, line: u32, text: &[u8]) -> Result<Job, HeaderFault>
    ensures exact { Gives (λ j. j) result (parse_header_line line text.now) }
    ensures told { IfOk result IsAgreedJob }
{
    short_header(alloc, line, text)?;
    let job = read_header(alloc, line, text, Purpose::Audit, &[])?.job;
    very_line(alloc, line, text, &job)?;
    Ok(job)
}

/// Takes what wallets agree on: the header line of that number, and the lines of context behind it,
/// up to the first line whose first word isn't `about`.
#[tactic(auto, unfolding(crate::specs::Terms::parse_agreed))]
pub fn read_agreed(alloc: Global, number: u32, lines: &mut Parts<'_>) -> Result<Agreed, HeaderFault>
    ensures exact { TakesFirstLine inside_agreed result lines.new (parse_agreed number lines.old) }
    ensures told { IfOk result (λ s. IsAgreedJob s.job) }
{
    let header = first_line(alloc, lines)?;
    let job = parse_header_line(alloc, number, header)?;
    let arcs = job.deal.graph.arcs().len();
    let context = read_context(alloc, arcs, number.saturating_add(1), lines)?;
    Ok(Agreed {
        job,
        digest: agreed_digest(header, context.list.as_slice()),
        context: context.list,
        next: context.next,
    })
}
