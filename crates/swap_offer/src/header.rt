//! The job of a header line, with its wallets.

ghost use Rattle.std.specs.Prelude.{◌≡◌, ℕ, List, IfOk, Ok, OnOk, length};
ghost use Rattle.swap_base.specs.Fault.{Gives};
ghost use Rattle.swap_digraph.specs.Deal.{IsWellSized};
ghost use Rattle.swap_digraph.specs.Graph.{HasEnds};
ghost use Rattle.command_input.specs.Refusal.{named_result};
ghost use Rattle.offer_header.specs.declared.header.Header.{Header};
ghost use Rattle.offer_header.specs.Header.{parse_whole_header, HasSimpleRoles, IsUntoldHeader, IsHeaderInLimits};
ghost use Rattle.offer_header.specs.Limits.{HoldsEach};
ghost use Rattle.offer_header.specs.Names.{has_strategy, AreNames};
ghost use Rattle.offer_header.specs.Scripts.{scripts_placed, AreMade};
ghost use Rattle.swap_offer.specs.Checks.{admitted, header_deal, assemble_job, least_bound, deal_need, unnamed, IsAcceptedOrProposed};
ghost use Rattle.swap_offer.specs.Certificates.{Certifies};
ghost use Rattle.swap_offer.specs.Wallets.{seeded, AreSimpleRoles, HaveRequiredScripts, HaveRequiredSeeds, HaveRequiredWallets, IsUntoldJob, prepared_wallets};
ghost use Rattle.swap_offer.specs.Job.{accepted_entries, parse_header_job, header_names, provided, IsWholeJob};

use crate::checks::{check_header, header_graph};
use crate::prepared::Prepared;
use crate::wallets::{check_seeds, prepared_wallets};
use command_input::{HeaderFault, OfferFault, with_names};
use hashkey_path::deal_digest;
use offer_header::{Header, parse_header};
use party_wallet::Wallet;
use std::alloc::Global;
use swap_base::{ByteText, Listed};
use swap_digraph::{Deal, Digraph};
use swap_job::{Job, Purpose};

/// The job that a header gives with its digraph.
pub fn assemble_job(header: Header, graph: Digraph) -> Job
    requires sized { (id : List ℕ) → IsWellSized (unnamed header graph id) }
    ensures { result ≡ assemble_job header graph }
{
    let mut deal = Deal {
        version: header.version,
        graph,
        leaders: header.leaders,
        start: header.start,
        delta: header.delta,
        bound: header.bound,
        mode: header.mode,
        amounts: header.amounts,
        hashlocks: header.hashlocks,
        keys: header.keys,
        timelocks: header.timelocks,
        id: [0; 32],
    };
    deal.id = deal_digest(&deal);
    Job {
        purpose: header.purpose,
        deal,
        names: header.names,
        roles: header.roles,
        conforming: header.conforming,
        seeds: header.seeds,
        finish: header.finish,
    }
}

/// The digraph of a header whose digraph, leaders and times pass their checks, and the least bound.
#[tactic(auto, unfolding(crate::specs::Checks::admitted))]
pub fn admit(alloc: Global, header: &Header) -> Result<(Digraph, u32), OfferFault>
    requires { IsHeaderInLimits header.now }
    ensures exact { Gives (λ a. a.0) result (admitted header.now) }
    ensures parts { IfOk result (λ a. (a.0.n ≡ length header.now.names) × (a.0.arcs ≡ header.now.arcs)) }
    ensures ends { IfOk result (λ a. HasEnds a.0) }
    ensures accepted { IfOk result (λ a. IsAcceptedOrProposed header.now.purpose (header_deal header.now a.0)) }
    ensures need { IfOk result (λ a. a.1 ≡ least_bound a.0 header.now.leaders) }
{
    let graph = header_graph(alloc, header)?;
    let need = check_header(alloc, header, &graph)?;
    Ok((graph, need))
}

/// The wallets that a job's purpose needs, where it has the seeds that it needs.
#[tactic(auto, unfolding(crate::specs::Job::provided))]
fn provide(alloc: Global, job: &Job) -> Result<Vec<Option<Wallet>>, OfferFault>
    requires whole { IsWholeJob job.now }
    ensures exact { Gives (λ _. tt) result (provided job.now) }
    ensures seeded { OnOk result (seeded job.now ≡ Ok tt) }
    ensures wallets { OnOk result (HaveRequiredWallets job.now.purpose job.now) }
    ensures seeds { OnOk result (HaveRequiredSeeds job.now.purpose job.now) }
    ensures made { IfOk result (λ v. v.items ≡ prepared_wallets job.now.purpose job.now) }
{
    check_seeds(job)?;
    prepared_wallets(alloc, job)
}

/// The job of a header within its limits, with its wallets. A reason against it takes the header's
/// names.
#[tactic(auto, using(crate::proofs::Size::is_whole, crate::proofs::Size::is_sized, command_input::proofs::Named::fails), unfolding(crate::specs::Job::accepted_entries))]
fn accept(alloc: Global, line: u32, header: Header) -> Result<Prepared, HeaderFault>
    requires within { IsHeaderInLimits header }
    requires untold { IsUntoldHeader header.purpose header }
    requires simple { HasSimpleRoles header.purpose header }
    requires placed { scripts_placed line header ≡ Ok tt }
    requires made { AreMade line header }
    ensures exact { Gives (λ p. p.job) result (named_result header.names (accepted_entries header)) }
    ensures names { IfOk result (λ p. p.job.names ≡ header.names) }
    ensures known { IfOk result (λ p. AreNames p.job.names) }
    ensures purpose { IfOk result (λ p. p.job.purpose ≡ header.purpose) }
    ensures whole { IfOk result (λ p. IsWholeJob p.job) }
    ensures accepted { IfOk result (λ p. IsAcceptedOrProposed header.purpose p.job.deal) }
    ensures wallets { IfOk result (λ p. HaveRequiredWallets header.purpose p.job) }
    ensures seeds { IfOk result (λ p. HaveRequiredSeeds header.purpose p.job) }
    ensures roles { IfOk result (λ p. AreSimpleRoles header.purpose p.job) }
    ensures acting { IfOk result (λ p. p.job.roles ≡ header.roles) }
    ensures scripts { IfOk result (λ p. HaveRequiredScripts header.purpose p.job) }
    ensures untold { IfOk result (λ p. IsUntoldJob header.purpose p.job) }
    ensures made { IfOk result (λ p. p.wallets.items ≡ prepared_wallets header.purpose p.job) }
    ensures need { IfOk result (λ p. p.need ≡ deal_need p.job.deal) }
{
    let (graph, need) = match admit(alloc, &header) {
        Ok(admitted) => admitted,
        Err(fault) => return Err(with_names(fault, header.names)),
    };
    let job = assemble_job(header, graph);
    match provide(alloc, &job) {
        Ok(wallets) => Ok(Prepared { job, wallets, need }),
        Err(fault) => Err(with_names(fault, job.names)),
    }
}

/// The job of a header line with the wallets that its purpose needs, or the first reason against it
/// with the names in the header. Lines are counted from 1.
///
/// For a run and a race there is one place per party: the wallet of a party that conforms and has a
/// seed. For any other purpose there is none: for a check each wallet is let go once it was
/// examined, and a plain job and a transcript have nothing to examine. A role names one of the
/// strategies. A reason against a later line takes the names of the job.
#[tactic(auto, using(command_input::proofs::Named::fails), unfolding(crate::specs::Job::parse_header_job, crate::specs::Job::header_names))]
pub fn read_header(
    alloc: Global,
    line: u32,
    text: &[u8],
    purpose: Purpose,
    strategies: &[ByteText],
) -> Result<Prepared, HeaderFault>
    ensures exact { Gives (λ p. p.job) result (named_result (header_names (has_strategy strategies.now) purpose line text.now)
        (parse_header_job (has_strategy strategies.now) purpose line text.now)) }
    ensures names { IfOk result (λ p. p.job.names ≡ header_names (has_strategy strategies.now) purpose line text.now) }
    ensures known { IfOk result (λ p. AreNames p.job.names) }
    ensures purpose { IfOk result (λ p. p.job.purpose ≡ purpose) }
    ensures whole { IfOk result (λ p. IsWholeJob p.job) }
    ensures accepted { IfOk result (λ p. IsAcceptedOrProposed purpose p.job.deal) }
    ensures wallets { IfOk result (λ p. HaveRequiredWallets purpose p.job) }
    ensures seeds { IfOk result (λ p. HaveRequiredSeeds purpose p.job) }
    ensures roles { IfOk result (λ p. AreSimpleRoles purpose p.job) }
    ensures strategies { IfOk result (λ p. HoldsEach (has_strategy strategies.now) p.job.roles) }
    ensures scripts { IfOk result (λ p. HaveRequiredScripts purpose p.job) }
    ensures untold { IfOk result (λ p. IsUntoldJob purpose p.job) }
    ensures made { IfOk result (λ p. p.wallets.items ≡ prepared_wallets purpose p.job) }
    ensures need { IfOk result (λ p. p.need ≡ deal_need p.job.deal) }
    // A closed set or a cycle of followers that is named is one of the header's digraph.
    ensures certified { (h : Header) → parse_whole_header (has_strategy strategies.now) purpose line text.now ≡ Ok h → Certifies h result }
{
    let header = match parse_header(alloc, strategies, purpose, line, text) {
        Ok(header) => header,
        Err(fault) => return Err(with_names(fault, Listed::empty(alloc))),
    };
    accept(alloc, line, header)
}
