//! A header within its limits.

ghost use Rattle.std.specs.Prelude.{◌≡◌, ◌≤◌, Ok, IfOk, length};
ghost use Rattle.swap_base.specs.Fault.{Gives};
ghost use Rattle.offer_header.specs.Header.{resolve_header, parse_whole_header, placed_header, HasSimpleRoles, IsUntoldHeader, IsHeaderInLimits};
ghost use Rattle.offer_header.specs.Limits.{HoldsEach};
ghost use Rattle.offer_header.specs.Names.{has_strategy};
ghost use Rattle.offer_header.specs.Scripts.{scripts_placed, AllStand, AreMade};

use crate::fields::parse_raw;
use crate::limits::apply_limits;
use crate::names::assign_numbers;
use crate::raw::RawHeader;
use crate::scripts::check_scripts;
use command_input::OfferFault;
use offer_moves::parse_object;
use std::alloc::Global;
use swap_base::{ByteText, Digest, Listed, PartyId};
use swap_digraph::{ArcEnds, Mode, Version};
use swap_job::{Finish, Purpose, Role};

/// A header whose fields, names and limits are in order, as `IsHeaderInLimits` says.
#[derive(Drop)]
pub struct Header {
    pub purpose: Purpose,
    /// It sets the limits of what follows.
    pub version: Version,
    pub mode: Mode,
    /// A height, 1 to 1,000.
    pub start: u32,
    /// Heights, 1 to 100.
    pub delta: u32,
    /// Arcs of a path, 1 to 64.
    pub bound: u32,
    /// The name of each party.
    pub names: Listed<ByteText>,
    /// How each party acts.
    pub roles: Listed<Role>,
    /// Whether each party conforms.
    pub conforming: Listed<bool>,
    /// The seed of each party, where it is there.
    pub seeds: Listed<Option<Digest>>,
    pub arcs: Listed<ArcEnds>,
    /// The units of each arc.
    pub amounts: Listed<u64>,
    /// The timelock of each arc, a height; all 0 in hashkeys mode.
    pub timelocks: Listed<u32>,
    pub leaders: Listed<PartyId>,
    /// The hashlock of each leader.
    pub hashlocks: Listed<Digest>,
    /// The key of each party for each leader's lock; none in timelocks mode.
    pub keys: Listed<Listed<Digest>>,
    pub finish: Finish,
}

/// The header, where its scripts stand where they may.
fn placed(line: u32, header: Header) -> Result<Header, OfferFault>
    requires few { length header.roles ≤ 256 }
    requires stand { AllStand header }
    ensures { Gives (λ h. h) result (placed_header line header) }
{
    check_scripts(line, &header)?;
    Ok(header)
}

/// The header that fields give, or the first reason why one is refused.
fn resolve_header(
    alloc: Global,
    strategies: &[ByteText],
    purpose: Purpose,
    line: u32,
    raw: &RawHeader<'_>,
) -> Result<Header, OfferFault>
    ensures { Gives (λ h. h) result (resolve_header (has_strategy strategies.now) purpose line raw.now) }
{
    let numbered = assign_numbers(alloc, strategies, line, raw)?;
    let header = apply_limits(alloc, purpose, line, raw, numbered)?;
    placed(line, header)
}

/// The header that the line's text gives, or the first reason why it is refused; its strategies are
/// among these.
#[tactic(auto, unfolding(crate::specs::Header::parse_whole_header))]
pub fn parse_header(
    alloc: Global,
    strategies: &[ByteText],
    purpose: Purpose,
    line: u32,
    text: &[u8],
) -> Result<Header, OfferFault>
    ensures exact { Gives (λ h. h) result (parse_whole_header (has_strategy strategies.now) purpose line text.now) }
    ensures purpose { IfOk result (λ h. h.purpose ≡ purpose) }
    ensures within { IfOk result (λ h. IsHeaderInLimits h) }
    ensures untold { IfOk result (λ h. IsUntoldHeader purpose h) }
    ensures simple { IfOk result (λ h. HasSimpleRoles purpose h) }
    ensures strategies { IfOk result (λ h. HoldsEach (has_strategy strategies.now) h.roles) }
    ensures placed { IfOk result (λ h. scripts_placed line h ≡ Ok tt) }
    ensures made { IfOk result (AreMade line) }
{
    let object = parse_object(alloc, line, text)?;
    let raw = parse_raw(alloc, purpose, line, &object)?;
    resolve_header(alloc, strategies, purpose, line, &raw)
}
