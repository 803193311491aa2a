//! The limits of a header's numbers and lists, and its digests.

ghost use Rattle.std.specs.Prelude.{◌≡◌, ◌<◌, ◌≤◌, ℕ, Result, map, length, IfOk};
ghost use Rattle.swap_base.specs.Fault.{Gives};
ghost use Rattle.swap_job.specs.Roles.{is_conforming};
ghost use Rattle.command_input.specs.declared.reason.Reason.{Reason};
ghost use Rattle.offer_moves.specs.Lists.{collected_results};
ghost use Rattle.offer_moves.specs.Moves.{parse_move};
ghost use Rattle.offer_header.specs.Limits.{checked_seed, script_role, checked_role, parse_acting, count_parties, header_sizes, limited_arc_terms, limited_terms, arc_ends};
ghost use Rattle.offer_header.specs.Limits.{stated_hashlock, no_digests, read_hashlocks};
ghost use Rattle.offer_header.specs.Limits.{leader_hashlocks, key_digest, party_key_row, stated_keys, read_listed_keys, derived_keys, assemble_header, limited_lists, limited_value};
ghost use Rattle.offer_header.specs.Names.{AreEnds, AreLeaders, IsNumbered};

use crate::header::Header;
use crate::names::{Ends, Numbered};
use crate::raw::{RawActor, RawArc, RawHeader, RawLeader, RawParty, RawRow, is_plain};
use crate::versions::{most_arcs, most_parties, version_path_limit};
use command_input::{OfferFault, Reason};
use offer_moves::{RawMove, Sizes, TextRef, check_range, parse_digest, parse_move, ranged_number};
use std::alloc::Global;
use swap_base::{ByteText, Digest, Listed, NoMemory, PartyId, TryCopy};
use swap_digraph::{ArcEnds, Mode, Version};
use swap_job::{MoveList, Purpose, Role};

/// The units and the timelock of an arc.
#[derive(Clone, Copy)]
pub struct ArcTerms {
    pub amount: u64,
    pub timelock: u32,
}

/// What a part of the header gives within its limits, in a context that all such parts share.
trait Limited<C: Copy, B>: Sized {
    ghost limited_value: { C → ℕ → Self → Result B Reason };

    fn limit(&self, alloc: Global, context: C, line: u32) -> Result<B, OfferFault>
        ensures { Gives (λ x. x) result (limited_value context line self.now) };
}

/// What each part gives, or the first reason why one is refused.
fn limit_each<C: Copy, B: Drop, T: Limited<C, B>>(
    alloc: Global,
    context: C,
    line: u32,
    parts: &[T],
) -> Result<Listed<B>, OfferFault>
    ensures { Gives (λ x. x) result (collected_results (T.limited_value context line) parts.now) }
{
    let mut list = Vec::new(alloc);
    for part in parts {
        list.push(part.limit(alloc, context, line)?)?;
    }
    Ok(Listed::new(list))
}

/// What a party's fields give within their limits: how it acts, and its seed, if any.
#[derive(Drop)]
pub struct Acting {
    pub role: Role,
    pub seed: Option<Digest>,
}

#[tactic(auto, using(offer_moves::proofs::Lists::goes_on, offer_moves::proofs::Lists::ends, offer_moves::proofs::Lists::is_done))]
fn parse_moves(
    alloc: Global,
    sizes: Sizes,
    names: &[ByteText],
    line: u32,
    moves: &[RawMove<'_>],
) -> Result<MoveList, OfferFault>
    requires names { length names.now ≤ 256 }
    ensures { Gives (λ l. l) result (collected_results (parse_move sizes names.now line) moves.now) }
{
    let mut list = Vec::new(alloc);
    for mv in moves {
        list.push(parse_move(alloc, sizes, names, line, mv)?)?;
    }
    Ok(Listed::new(list))
}

/// A script, by its moves.
#[tactic(auto, unfolding(crate::specs::Limits::script_role))]
fn script_role(
    alloc: Global,
    sizes: Sizes,
    names: &[ByteText],
    line: u32,
    moves: &[RawMove<'_>],
) -> Result<Role, OfferFault>
    requires names { length names.now ≤ 256 }
    ensures { Gives (λ r. r) result (script_role sizes names.now line moves.now) }
{
    check_range(alloc, line, "script", 0, 1000, moves.len() as u64)?;
    let moves = parse_moves(alloc, sizes, names, line, moves)?;
    Ok(Role::Script(moves))
}

fn party_role(
    alloc: Global,
    sizes: Sizes,
    names: &[ByteText],
    line: u32,
    actor: &RawActor<'_>,
) -> Result<Role, OfferFault>
    requires names { length names.now ≤ 256 }
    ensures { Gives (λ r. r) result (checked_role sizes names.now line actor.now) }
{
    match actor {
        RawActor::Conforming => Ok(Role::Conforming),
        RawActor::Manual => Ok(Role::Manual),
        RawActor::Script(moves) => script_role(alloc, sizes, names, line, moves.as_slice()),
        RawActor::Strategy(name) => Ok(Role::Strategy(name.copy()?)),
    }
}

#[tactic(auto, unfolding(crate::specs::Limits::checked_seed))]
fn make_seed(alloc: Global, line: u32, party: &RawParty<'_>) -> Result<Option<Digest>, OfferFault>
    ensures { Gives (λ s. s) result (checked_seed line party.now) }
{
    match &party.seed {
        None => Ok(None),
        Some(text) => Ok(Some(parse_digest(alloc, line, "seed", text.as_slice())?)),
    }
}

#[tactic(auto, unfolding(crate::specs::Limits::parse_acting))]
fn parse_acting(
    alloc: Global,
    sizes: Sizes,
    names: &[ByteText],
    line: u32,
    party: &RawParty<'_>,
) -> Result<Acting, OfferFault>
    requires names { length names.now ≤ 256 }
    ensures { Gives (λ a. a) result (parse_acting sizes names.now line party.now) }
{
    let role = party_role(alloc, sizes, names, line, &party.actor)?;
    let seed = make_seed(alloc, line, party)?;
    Ok(Acting { role, seed })
}

#[tactic(auto, using(offer_moves::proofs::Lists::goes_on, offer_moves::proofs::Lists::ends, offer_moves::proofs::Lists::is_done))]
fn each_acting(
    alloc: Global,
    sizes: Sizes,
    names: &[ByteText],
    line: u32,
    parties: &[RawParty<'_>],
) -> Result<Listed<Acting>, OfferFault>
    requires names { length names.now ≤ 256 }
    ensures { Gives (λ l. l) result (collected_results (parse_acting sizes names.now line) parties.now) }
{
    let mut list = Vec::new(alloc);
    for party in parties {
        list.push(parse_acting(alloc, sizes, names, line, party)?)?;
    }
    Ok(Listed::new(list))
}

impl<'v> Limited<(), ArcTerms> for RawArc<'v> {
    ghost limited_value = { λ _. limited_arc_terms };

    #[tactic(auto, unfolding(crate::specs::Limits::limited_arc_terms))]
    fn limit(&self, alloc: Global, _context: (), line: u32) -> Result<ArcTerms, OfferFault> {
        check_range(alloc, line, "amount", 1, 1_000_000_000_000, self.amount)?;
        let timelock = ranged_number(alloc, line, "timelock", 0, 1_000_000, self.timelock)?;
        Ok(ArcTerms {
            amount: self.amount,
            timelock,
        })
    }
}

impl<'v> Limited<(), Digest> for RawLeader<'v> {
    ghost limited_value = { λ _. stated_hashlock };

    #[tactic(auto, unfolding(crate::specs::Limits::stated_hashlock))]
    fn limit(&self, alloc: Global, _context: (), line: u32) -> Result<Digest, OfferFault> {
        parse_digest(alloc, line, "hashlock", self.hashlock.as_slice())
    }
}

impl<'v> Limited<(), Digest> for TextRef<'v> {
    ghost limited_value = { λ _. key_digest };

    #[tactic(auto, unfolding(crate::specs::Limits::key_digest))]
    fn limit(&self, alloc: Global, _context: (), line: u32) -> Result<Digest, OfferFault> {
        parse_digest(alloc, line, "keys", self.as_slice())
    }
}

impl<'v> Limited<usize, Listed<Digest>> for RawRow<'v> {
    ghost limited_value = { party_key_row };

    #[tactic(auto, unfolding(crate::specs::Limits::party_key_row))]
    fn limit(&self, alloc: Global, locks: usize, line: u32) -> Result<Listed<Digest>, OfferFault> {
        let length = self.texts.len() as u64;
        check_range(alloc, line, "keys", locks as u64, locks as u64, length)?;
        limit_each(alloc, (), line, self.texts.as_slice())
    }
}

/// How each party acts, and its seed. There are as many names as parties.
#[tactic(auto, unfolding(crate::specs::Limits::count_parties))]
fn read_parties(
    alloc: Global,
    version: Version,
    sizes: Sizes,
    names: &[ByteText],
    line: u32,
    parties: &[RawParty<'_>],
) -> Result<Listed<Acting>, OfferFault>
    requires names { length names.now ≡ length parties.now }
    ensures { Gives (λ l. l) result (count_parties version sizes names.now line parties.now) }
{
    let most = most_parties(version);
    check_range(alloc, line, "parties", 2, most, parties.len() as u64)?;
    each_acting(alloc, sizes, names, line, parties)
}

#[tactic(auto, unfolding(crate::specs::Limits::limited_terms))]
fn limited_terms(
    alloc: Global,
    version: Version,
    line: u32,
    arcs: &[RawArc<'_>],
) -> Result<Listed<ArcTerms>, OfferFault>
    ensures { Gives (λ t. t) result (limited_terms version line arcs.now) }
{
    check_range(
        alloc,
        line,
        "arcs",
        2,
        most_arcs(version),
        arcs.len() as u64,
    )?;
    limit_each(alloc, (), line, arcs)
}

fn no_digests(alloc: Global, leaders: &[RawLeader<'_>]) -> Result<Listed<Digest>, NoMemory>
    ensures { IfOk result (λ l. l ≡ no_digests leaders.now) }
{
    let mut list = Vec::new(alloc);
    for _leader in leaders {
        list.push([0; 32])?;
    }
    Ok(Listed::new(list))
}

fn read_hashlocks(
    alloc: Global,
    plain: bool,
    line: u32,
    leaders: &[RawLeader<'_>],
) -> Result<Listed<Digest>, OfferFault>
    ensures { Gives (λ h. h) result (read_hashlocks plain line leaders.now) }
{
    if plain {
        Ok(no_digests(alloc, leaders)?)
    } else {
        limit_each(alloc, (), line, leaders)
    }
}

#[tactic(auto, unfolding(crate::specs::Limits::leader_hashlocks))]
fn parse_hashlocks(
    alloc: Global,
    plain: bool,
    line: u32,
    leaders: &[RawLeader<'_>],
) -> Result<Listed<Digest>, OfferFault>
    ensures { Gives (λ h. h) result (leader_hashlocks plain line leaders.now) }
{
    check_range(alloc, line, "leaders", 1, 8, leaders.len() as u64)?;
    read_hashlocks(alloc, plain, line, leaders)
}

fn no_keys(
    alloc: Global,
    parties: &[RawParty<'_>],
    leaders: &[RawLeader<'_>],
) -> Result<Listed<Listed<Digest>>, NoMemory>
    ensures { IfOk result (λ k. k ≡ map (λ p. no_digests leaders.now) parties.now) }
{
    let mut rows = Vec::new(alloc);
    for _party in parties {
        rows.push(no_digests(alloc, leaders)?)?;
    }
    Ok(Listed::new(rows))
}

#[tactic(auto, unfolding(crate::specs::Limits::stated_keys))]
fn read_stated_keys(
    alloc: Global,
    line: u32,
    raw: &RawHeader<'_>,
) -> Result<Listed<Listed<Digest>>, OfferFault>
    ensures { Gives (λ k. k) result (stated_keys line raw.now) }
{
    let (parties, rows) = (raw.parties.len() as u64, raw.keys.len() as u64);
    check_range(alloc, line, "keys", parties, parties, rows)?;
    limit_each(alloc, raw.leaders.len(), line, raw.keys.as_slice())
}

fn read_listed_keys(
    alloc: Global,
    plain: bool,
    line: u32,
    raw: &RawHeader<'_>,
) -> Result<Listed<Listed<Digest>>, OfferFault>
    ensures { Gives (λ k. k) result (read_listed_keys plain line raw.now) }
{
    if plain {
        Ok(no_keys(alloc, raw.parties.as_slice(), raw.leaders.as_slice())?)
    } else {
        read_stated_keys(alloc, line, raw)
    }
}

fn read_keys(
    alloc: Global,
    plain: bool,
    line: u32,
    raw: &RawHeader<'_>,
) -> Result<Listed<Listed<Digest>>, OfferFault>
    ensures { Gives (λ k. k) result (derived_keys raw.now.mode plain line raw.now) }
{
    match raw.mode {
        Mode::Timelocks => Ok(Listed::empty(alloc)),
        Mode::Hashkeys => read_listed_keys(alloc, plain, line, raw),
    }
}

fn conforms(role: &Role) -> bool
    ensures { result ≡ is_conforming role.now }
{
    match role {
        Role::Conforming => true,
        _ => false,
    }
}

fn conforming_flags(alloc: Global, parties: &[Acting]) -> Result<Listed<bool>, NoMemory>
    ensures { IfOk result (λ l. l ≡ map (λ p. is_conforming p.role) parties.now) }
{
    let mut list = Vec::new(alloc);
    for party in parties {
        list.push(conforms(&party.role))?;
    }
    Ok(Listed::new(list))
}

fn party_seeds(alloc: Global, parties: &[Acting]) -> Result<Listed<Option<Digest>>, NoMemory>
    ensures { IfOk result (λ l. l ≡ map (λ p. p.seed) parties.now) }
{
    let mut list = Vec::new(alloc);
    for party in parties {
        list.push(party.seed)?;
    }
    Ok(Listed::new(list))
}

/// The roles, without taking memory for their moves.
fn take_roles(alloc: Global, parties: Listed<Acting>) -> Result<Listed<Role>, NoMemory>
    ensures { IfOk result (λ l. l ≡ map (λ p. p.role) parties) }
{
    let mut list = Vec::new(alloc);
    for party in parties.into_vec() {
        list.push(party.role)?;
    }
    Ok(Listed::new(list))
}

fn term_amounts(alloc: Global, terms: &[ArcTerms]) -> Result<Listed<u64>, NoMemory>
    ensures { IfOk result (λ l. l ≡ map (λ t. t.amount) terms.now) }
{
    let list: Vec<u64> = terms.iter().map(|t| t.amount).collect(alloc)?;
    Ok(Listed::new(list))
}

fn term_timelocks(alloc: Global, terms: &[ArcTerms]) -> Result<Listed<u32>, NoMemory>
    ensures { IfOk result (λ l. l ≡ map (λ t. t.timelock) terms.now) }
{
    let list: Vec<u32> = terms.iter().map(|t| t.timelock).collect(alloc)?;
    Ok(Listed::new(list))
}

fn collect_arc_ends(alloc: Global, arcs: &[Ends]) -> Result<Listed<ArcEnds>, NoMemory>
    requires { AreEnds 256 arcs.now }
    ensures { IfOk result (λ l. l ≡ map arc_ends arcs.now) }
{
    let mut list = Vec::new(alloc);
    for arc in arcs {
        let from = arc.from as u8;
        let to = arc.to as u8;
        list.push(ArcEnds { from, to })?;
    }
    Ok(Listed::new(list))
}

fn number_leaders(alloc: Global, leaders: &[usize]) -> Result<Listed<PartyId>, NoMemory>
    requires { AreLeaders 256 leaders.now }
    ensures { IfOk result (λ l. l ≡ leaders.now) }
{
    let mut list = Vec::new(alloc);
    for leader in leaders {
        list.push(*leader as u8)?;
    }
    Ok(Listed::new(list))
}

/// What the moves of a header's scripts may name.
fn header_sizes(raw: &RawHeader<'_>) -> Sizes
    ensures { result ≡ header_sizes raw.now }
{
    Sizes {
        arcs: raw.arcs.len(),
        locks: raw.leaders.len(),
        path: version_path_limit(raw.version),
    }
}

/// How each party acts, as a header has it.
#[derive(Drop)]
struct Acted {
    roles: Listed<Role>,
    conforming: Listed<bool>,
    seeds: Listed<Option<Digest>>,
}

fn collect_acted(alloc: Global, parties: Listed<Acting>) -> Result<Acted, NoMemory>
    ensures roles { IfOk result (λ a. a.roles ≡ map (λ p. p.role) parties) }
    ensures conforming { IfOk result (λ a. a.conforming ≡ map (λ p. is_conforming p.role) parties) }
    ensures seeds { IfOk result (λ a. a.seeds ≡ map (λ p. p.seed) parties) }
{
    let conforming = conforming_flags(alloc, parties.as_slice())?;
    let seeds = party_seeds(alloc, parties.as_slice())?;
    let roles = take_roles(alloc, parties)?;
    Ok(Acted {
        roles,
        conforming,
        seeds,
    })
}

/// The terms of the arcs, as a header has them.
#[derive(Drop)]
struct Priced {
    amounts: Listed<u64>,
    timelocks: Listed<u32>,
}

fn priced_terms(alloc: Global, terms: &[ArcTerms]) -> Result<Priced, NoMemory>
    ensures amounts { IfOk result (λ p. p.amounts ≡ map (λ t. t.amount) terms.now) }
    ensures timelocks { IfOk result (λ p. p.timelocks ≡ map (λ t. t.timelock) terms.now) }
{
    let amounts = term_amounts(alloc, terms)?;
    let timelocks = term_timelocks(alloc, terms)?;
    Ok(Priced { amounts, timelocks })
}

/// The numbers of a header, within their limits.
#[derive(Clone, Copy)]
struct Bounds {
    start: u32,
    delta: u32,
    bound: u32,
}

/// The lists of a header, within their limits.
#[derive(Drop)]
struct Lists {
    /// For each party how it acts, and its seed.
    parties: Listed<Acting>,
    /// For each arc its units and its timelock.
    terms: Listed<ArcTerms>,
    /// A hashlock for each leader.
    hashlocks: Listed<Digest>,
    /// For each party a key for each lock; with timelocks none.
    keys: Listed<Listed<Digest>>,
}

/// The header of these parts.
fn assemble_header(
    alloc: Global,
    purpose: Purpose,
    raw: &RawHeader<'_>,
    numbered: Numbered,
    bounds: Bounds,
    lists: Lists,
) -> Result<Header, NoMemory>
    requires ends { AreEnds 256 numbered.arcs }
    requires leaders { AreLeaders 256 numbered.leaders }
    ensures { IfOk result (λ h. h ≡ assemble_header purpose raw.now numbered bounds.start bounds.delta bounds.bound lists.parties lists.terms
        lists.hashlocks lists.keys) }
{
    let acted = collect_acted(alloc, lists.parties)?;
    let priced = priced_terms(alloc, lists.terms.as_slice())?;
    let arcs = collect_arc_ends(alloc, numbered.arcs.as_slice())?;
    let leaders = number_leaders(alloc, numbered.leaders.as_slice())?;
    Ok(Header {
        purpose,
        version: raw.version,
        mode: raw.mode,
        start: bounds.start,
        delta: bounds.delta,
        bound: bounds.bound,
        names: numbered.names,
        roles: acted.roles,
        conforming: acted.conforming,
        seeds: acted.seeds,
        arcs,
        amounts: priced.amounts,
        timelocks: priced.timelocks,
        leaders,
        hashlocks: lists.hashlocks,
        keys: lists.keys,
        finish: raw.finish,
    })
}

/// The lists of the header within their limits.
#[tactic(auto, using(crate::proofs::Limited::small_ends, crate::proofs::Limited::small_leaders))]
fn check_parts(
    alloc: Global,
    purpose: Purpose,
    line: u32,
    raw: &RawHeader<'_>,
    numbered: Numbered,
    bounds: Bounds,
) -> Result<Header, OfferFault>
    requires { IsNumbered raw.now numbered }
    ensures { Gives (λ h. h) result (limited_lists purpose line raw.now numbered bounds.start bounds.delta bounds.bound) }
{
    let plain = is_plain(purpose);
    let names = numbered.names.as_slice();
    let sizes = header_sizes(raw);
    let parties = raw.parties.as_slice();
    let lists = Lists {
        parties: read_parties(alloc, raw.version, sizes, names, line, parties)?,
        terms: limited_terms(alloc, raw.version, line, raw.arcs.as_slice())?,
        hashlocks: parse_hashlocks(alloc, plain, line, raw.leaders.as_slice())?,
        keys: read_keys(alloc, plain, line, raw)?,
    };
    Ok(assemble_header(alloc, purpose, raw, numbered, bounds, lists)?)
}

/// The header within its limits, or the first reason why a number, a list or a text is refused.
#[tactic(auto, unfolding(crate::specs::Limits::limited_value))]
pub(crate) fn apply_limits(
    alloc: Global,
    purpose: Purpose,
    line: u32,
    raw: &RawHeader<'_>,
    numbered: Numbered,
) -> Result<Header, OfferFault>
    requires { IsNumbered raw.now numbered }
    ensures { Gives (λ h. h) result (limited_value purpose line raw.now numbered) }
{
    let bounds = Bounds {
        start: ranged_number(alloc, line, "start", 1, 1000, raw.start)?,
        delta: ranged_number(alloc, line, "delta", 1, 100, raw.delta)?,
        bound: ranged_number(alloc, line, "bound", 1, 64, raw.bound)?,
    };
    check_parts(alloc, purpose, line, raw, numbered, bounds)
}
