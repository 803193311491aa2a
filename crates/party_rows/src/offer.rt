//! A plain offer without seeds.

ghost use Rattle.std.specs.Prelude.{◌≡◌, IfOk, is_none, length};
ghost use Rattle.std.specs.List.{list_all};
ghost use Rattle.swap_base.specs.Fault.{Gives};
ghost use Rattle.swap_digraph.specs.Graph.{HasEnds};
ghost use Rattle.command_input.specs.Refusal.{named_result};
ghost use Rattle.offer_header.specs.Header.{IsHeaderInLimits};
ghost use Rattle.offer_header.specs.Names.{no_strategy};
ghost use Rattle.swap_offer.specs.Checks.{header_deal, IsAcceptedOrProposed};
ghost use Rattle.swap_offer.specs.Job.{header_names};
ghost use Rattle.party_rows.specs.Inside.{IsOffered};
ghost use Rattle.party_rows.specs.Offer.{examined, parse_offer, parse_plain, proposed_job, no_seed_told};

use crate::lines::short_header;
use command_input::{HeaderFault, OfferFault, unknown_field, with_names};
use offer_header::{Header, parse_header};
use std::alloc::Global;
use swap_base::{Digest, Listed};
use swap_digraph::Digraph;
use swap_job::{Job, Purpose};
use swap_offer::{admit, assemble_job};

fn tells_none(seeds: &[Option<Digest>]) -> bool
    ensures { result ≡ list_all is_none seeds.now }
{
    seeds.iter().all(|seed| seed.is_none())
}

/// No party's seed is told.
#[tactic(auto, unfolding(crate::specs::Offer::no_seed_told))]
fn no_seed_told(alloc: Global, line: u32, seeds: &[Option<Digest>]) -> Result<(), OfferFault>
    ensures { Gives (λ u. u) result (no_seed_told line seeds.now) }
{
    if tells_none(seeds) {
        Ok(())
    } else {
        Err(unknown_field(alloc, line, b"seed".as_slice()))
    }
}

/// The digraph of a header that passes its checks and tells nobody's seed.
#[tactic(auto, unfolding(crate::specs::Offer::examined))]
fn examined(alloc: Global, line: u32, header: &Header) -> Result<Digraph, OfferFault>
    requires { IsHeaderInLimits header.now }
    ensures exact { Gives (λ g. g) result (examined line header.now) }
    ensures parts { IfOk result (λ g. (g.n ≡ length header.now.names) × (g.arcs ≡ header.now.arcs)) }
    ensures ends { IfOk result HasEnds }
    ensures accepted { IfOk result (λ g. IsAcceptedOrProposed header.now.purpose (header_deal header.now g)) }
{
    let (graph, _) = admit(alloc, header)?;
    no_seed_told(alloc, line, header.seeds.as_slice())?;
    Ok(graph)
}

/// The job that a header proposes; the reason against it takes the header's names.
#[tactic(auto, using(swap_offer::proofs::Size::is_sized, command_input::proofs::Named::fails), unfolding(crate::specs::Offer::proposed_job))]
fn proposed(alloc: Global, line: u32, header: Header) -> Result<Job, HeaderFault>
    requires within { IsHeaderInLimits header }
    requires plain { header.purpose ≡ Purpose.Make }
    ensures exact { Gives (λ j. j) result (named_result header.names (proposed_job line header)) }
    ensures offered { IfOk result IsOffered }
{
    match examined(alloc, line, &header) {
        Ok(graph) => Ok(assemble_job(header, graph)),
        Err(fault) => Err(with_names(fault, header.names)),
    }
}

/// The job that a line proposes.
#[tactic(auto, using(command_input::proofs::Named::fails), unfolding(crate::specs::Offer::parse_plain, swap_offer::specs::Job::header_names))]
fn plain(alloc: Global, line: u32, text: &[u8]) -> Result<Job, HeaderFault>
    ensures exact { Gives (λ j. j) result (named_result (header_names no_strategy Purpose.Make line text.now) (parse_plain line text.now)) }
    ensures offered { IfOk result IsOffered }
{
    let header = match parse_header(alloc, &[], Purpose::Make, line, text) {
        Ok(header) => header,
        Err(fault) => return Err(with_names(fault, Listed::empty(alloc))),
    };
    proposed(alloc, line, header)
}

/// The job that a plain offer's line proposes.
#[tactic(auto, unfolding(crate::specs::Offer::parse_offer))]
pub(crate) fn offer(alloc: Global, line: u32, text: &[u8]) -> Result<Job, HeaderFault>
    ensures exact { Gives (λ j. j) result (parse_offer line text.now) }
    ensures offered { IfOk result IsOffered }
{
    short_header(alloc, line, text)?;
    plain(alloc, line, text)
}
