//! The names of a header, and the numbers that stand for them.

ghost use Rattle.std.specs.Prelude.{◌≡◌, ◌<◌, [], List, map, IfOk, OnOk};
ghost use Rattle.std.specs.List.{list_all, list_any};
ghost use Rattle.std.specs.Str.{bytes_eq};
ghost use Rattle.swap_base.specs.Fault.{Gives, steps};
ghost use Rattle.offer_moves.specs.Lists.{collected_results};
ghost use Rattle.offer_moves.specs.Names.{party_of_name};
ghost use Rattle.offer_header.specs.Names.{has_strategy, strategy_known};
ghost use Rattle.offer_header.specs.Names.{is_name, is_name_byte, known_name, all_known, move_known, actor_known, name_added, name_step};
ghost use Rattle.offer_header.specs.Names.{with_name, names_stated, named_ends, leader_step, assign_checked_numbers, resolve_numbers, numbered_header};

use crate::raw::{RawActor, RawArc, RawHeader, RawLeader, RawParty};
use command_input::{OfferFault, bad_name, duplicate, unknown};
use indexmap::IndexSet;
use offer_moves::{RawMove, TextRef};
use std::alloc::Global;
use swap_base::{ByteText, Listed, NoMemory};

/// The ends of an arc, by their parties' numbers.
#[derive(Clone, Copy)]
pub struct Ends {
    pub from: usize,
    pub to: usize,
}

/// The names of a header, and its arcs and leaders by number, however many parties there are.
#[derive(Drop)]
pub struct Numbered {
    pub names: Listed<ByteText>,
    pub arcs: Listed<Ends>,
    pub leaders: Listed<usize>,
}

fn is_name_byte(b: u8) -> bool
    ensures { result ≡ is_name_byte b }
{
    matches!(b, b'a'..=b'z' | b'A'..=b'Z' | b'0'..=b'9' | b'_' | b'-')
}

fn are_name_bytes(name: &[u8]) -> bool
    ensures { result ≡ list_all is_name_byte name.now }
{
    for b in name {
        if !is_name_byte(*b) {
            return false;
        }
    }
    true
}

/// Whether a party may have the name.
#[tactic(auto, unfolding(crate::specs::Names::is_name))]
pub fn is_name(name: &[u8]) -> bool
    ensures { result ≡ is_name name.now }
{
    !name.is_empty() && name.len() <= 16 && are_name_bytes(name)
}

/// One more name that the header states.
#[tactic(auto, using(swap_base::proofs::Steps::any_map, std::proofs::lemmas::List::map_push))]
fn state_name<'h>(names: &mut IndexSet<&'h [u8]>, party: &RawParty<'h>) -> Result<(), NoMemory>
    ensures { OnOk result (map (λ k. k.now) names.new.keys ≡ with_name (map (λ k. k.now) names.old.keys) party.now) }
{
    let name = party.name.as_slice();
    if names.contains(&name) {
        return Ok(());
    }
    names.insert(name)?;
    Ok(())
}

/// The names of the parties in the header, each once.
#[tactic(auto, using(crate::proofs::Listing::stated_on, crate::proofs::Listing::stated_done))]
fn state_names<'h>(names: &mut IndexSet<&'h [u8]>, parties: &[RawParty<'h>]) -> Result<(), NoMemory>
    requires { names.old.keys ≡ [] }
    ensures { OnOk result (map (λ k. k.now) names.new.keys ≡ names_stated parties.now) }
{
    for party in parties {
        state_name(names, party)?;
    }
    Ok(())
}

/// A name is that of some party in the header.
#[tactic(auto, using(swap_base::proofs::Steps::any_map), unfolding(crate::specs::Names::known_name))]
fn check_known(
    alloc: Global,
    line: u32,
    all: &IndexSet<&[u8]>,
    name: &[u8],
) -> Result<(), OfferFault>
    ensures { Gives (λ u. u) result (known_name line (map (λ k. k.now) all.now.keys) name.now) }
{
    if all.contains(&name) {
        return Ok(());
    }
    Err(unknown(alloc, line, name))
}

#[tactic(auto, unfolding(crate::specs::Names::all_known))]
fn check_all_known(
    alloc: Global,
    line: u32,
    all: &IndexSet<&[u8]>,
    names: &[TextRef<'_>],
) -> Result<(), OfferFault>
    ensures { Gives (λ u. u) result (all_known line (map (λ k. k.now) all.now.keys) names.now) }
{
    for name in names {
        check_known(alloc, line, all, name.as_slice())?;
    }
    Ok(())
}

/// The names in a move are those of parties.
fn check_move(
    alloc: Global,
    line: u32,
    all: &IndexSet<&[u8]>,
    mv: &RawMove<'_>,
) -> Result<(), OfferFault>
    ensures { Gives (λ u. u) result (move_known line (map (λ k. k.now) all.now.keys) mv.now) }
{
    match mv {
        RawMove::Craft { craft, .. } => check_all_known(alloc, line, all, craft.via.as_slice()),
        RawMove::Raw { key, .. } => check_all_known(alloc, line, all, key.path.as_slice()),
        RawMove::Transfer { to, .. } => check_known(alloc, line, all, to.as_slice()),
        _ => Ok(()),
    }
}

#[tactic(auto, using(swap_base::proofs::Steps::steps_on, swap_base::proofs::Steps::steps_fail, swap_base::proofs::Steps::steps_done))]
fn check_moves(
    alloc: Global,
    line: u32,
    all: &IndexSet<&[u8]>,
    moves: &[RawMove<'_>],
) -> Result<(), OfferFault>
    ensures { Gives (λ u. u) result (steps (λ u mv. move_known line (map (λ k. k.now) all.now.keys) mv) tt moves.now) }
{
    for mv in moves {
        check_move(alloc, line, all, mv)?;
    }
    Ok(())
}

/// Whether the name is one of these.
pub fn is_known(names: &[ByteText], name: &[u8]) -> bool
    ensures { result ≡ list_any (bytes_eq name.now) names.now }
{
    for known in names {
        if name == known.as_slice() {
            return true;
        }
    }
    false
}

/// The name is that of a strategy.
fn check_strategy(
    alloc: Global,
    strategies: &[ByteText],
    line: u32,
    name: &ByteText,
) -> Result<(), OfferFault>
    ensures { Gives (λ u. u) result (strategy_known (has_strategy strategies.now) line name.now) }
{
    if !is_known(strategies, name.as_slice()) {
        return Err(unknown(alloc, line, name.as_slice()));
    }
    Ok(())
}

/// An actor's strategy is known, and the names in its script are those of parties.
fn check_actor(
    alloc: Global,
    strategies: &[ByteText],
    line: u32,
    all: &IndexSet<&[u8]>,
    actor: &RawActor<'_>,
) -> Result<(), OfferFault>
    ensures { Gives (λ u. u) result (actor_known (has_strategy strategies.now) line (map (λ k. k.now) all.now.keys) actor.now) }
{
    match actor {
        RawActor::Script(moves) => check_moves(alloc, line, all, moves.as_slice()),
        RawActor::Strategy(name) => check_strategy(alloc, strategies, line, name),
        _ => Ok(()),
    }
}

/// One more party's name, where it has the form of a name and no party before has it.
#[tactic(auto, using(swap_base::proofs::Steps::any_map, std::proofs::lemmas::List::map_push), unfolding(crate::specs::Names::name_added))]
pub fn add_name<'h>(
    alloc: Global,
    line: u32,
    names: &mut IndexSet<&'h [u8]>,
    party: &RawParty<'h>,
) -> Result<(), OfferFault>
    ensures { Gives (λ _. map (λ k. k.now) names.new.keys) result (name_added line (map (λ k. k.now) names.old.keys) party.now) }
{
    let name = party.name.as_slice();
    if !is_name(name) {
        return Err(bad_name(alloc, line, name));
    }
    if names.contains(&name) {
        return Err(duplicate(alloc, line, name));
    }
    names.insert(name)?;
    Ok(())
}

/// One more party: its name, and then that of its strategy or those in its script.
#[tactic(auto, unfolding(crate::specs::Names::name_step))]
fn add_party<'h>(
    alloc: Global,
    strategies: &[ByteText],
    line: u32,
    all: &IndexSet<&[u8]>,
    names: &mut IndexSet<&'h [u8]>,
    party: &RawParty<'h>,
) -> Result<(), OfferFault>
    ensures { Gives (λ _. map (λ k. k.now) names.new.keys) result
        (name_step (has_strategy strategies.now) line (map (λ k. k.now) all.now.keys) (map (λ k. k.now) names.old.keys) party.now) }
{
    add_name(alloc, line, names, party)?;
    check_actor(alloc, strategies, line, all, &party.actor)
}

#[tactic(auto, using(swap_base::proofs::Steps::steps_on, swap_base::proofs::Steps::steps_fail, swap_base::proofs::Steps::steps_done))]
fn add_parties<'h>(
    alloc: Global,
    strategies: &[ByteText],
    line: u32,
    all: &IndexSet<&[u8]>,
    names: &mut IndexSet<&'h [u8]>,
    parties: &[RawParty<'h>],
) -> Result<(), OfferFault>
    requires { names.old.keys ≡ [] }
    ensures { Gives (λ _. map (λ k. k.now) names.new.keys) result
        (steps (name_step (has_strategy strategies.now) line (map (λ k. k.now) all.now.keys)) [] parties.now) }
{
    for party in parties {
        add_party(alloc, strategies, line, all, names, party)?;
    }
    Ok(())
}

#[tactic(auto, using(swap_base::proofs::Steps::position_map), unfolding(offer_moves::specs::Names::party_of_name))]
fn name_number(
    alloc: Global,
    line: u32,
    names: &IndexSet<&[u8]>,
    name: &[u8],
) -> Result<usize, OfferFault>
    ensures { Gives (λ k. k) result (party_of_name line (map (λ k. k.now) names.now.keys) name.now) }
{
    match names.get_index_of(&name) {
        Some(number) => Ok(number),
        None => Err(unknown(alloc, line, name)),
    }
}

/// The ends of an arc by their parties' numbers.
#[tactic(auto, unfolding(crate::specs::Names::named_ends))]
pub fn resolve_arc_ends(
    alloc: Global,
    line: u32,
    names: &IndexSet<&[u8]>,
    arc: &RawArc<'_>,
) -> Result<Ends, OfferFault>
    ensures { Gives (λ e. e) result (named_ends line (map (λ k. k.now) names.now.keys) arc.now) }
{
    let from = name_number(alloc, line, names, arc.from.as_slice())?;
    let to = name_number(alloc, line, names, arc.to.as_slice())?;
    Ok(Ends { from, to })
}

fn resolve_all_ends(
    alloc: Global,
    line: u32,
    names: &IndexSet<&[u8]>,
    arcs: &[RawArc<'_>],
) -> Result<Listed<Ends>, OfferFault>
    ensures { Gives (λ x. x) result (collected_results (named_ends line (map (λ k. k.now) names.now.keys)) arcs.now) }
{
    let mut list = Vec::new(alloc);
    for arc in arcs {
        list.push(resolve_arc_ends(alloc, line, names, arc)?)?;
    }
    Ok(Listed::new(list))
}

#[tactic(auto, unfolding(crate::specs::Names::leader_step))]
fn add_leader(
    alloc: Global,
    line: u32,
    names: &IndexSet<&[u8]>,
    numbers: &mut Vec<usize>,
    leader: &RawLeader<'_>,
) -> Result<(), OfferFault>
    ensures { Gives (λ _. numbers.new.items) result (leader_step line (map (λ k. k.now) names.now.keys) numbers.old.items leader.now) }
{
    let number = name_number(alloc, line, names, leader.party.as_slice())?;
    if numbers.contains(&number) {
        return Err(duplicate(alloc, line, leader.party.as_slice()));
    }
    numbers.push(number)?;
    Ok(())
}

#[tactic(auto, using(swap_base::proofs::Steps::steps_on, swap_base::proofs::Steps::steps_fail, swap_base::proofs::Steps::steps_done))]
fn number_leaders(
    alloc: Global,
    line: u32,
    names: &IndexSet<&[u8]>,
    leaders: &[RawLeader<'_>],
) -> Result<Listed<usize>, OfferFault>
    ensures { Gives (λ x. x) result (steps (leader_step line (map (λ k. k.now) names.now.keys)) [] leaders.now) }
{
    let mut numbers = Vec::new(alloc);
    for leader in leaders {
        add_leader(alloc, line, names, &mut numbers, leader)?;
    }
    Ok(Listed::new(numbers))
}

/// The names, as texts of their own.
pub fn kept_names(alloc: Global, names: &IndexSet<&[u8]>) -> Result<Listed<ByteText>, NoMemory>
    ensures { IfOk result (λ l. l ≡ map (λ k. k.now) names.now.keys) }
{
    let mut list = Vec::new(alloc);
    for name in names {
        list.push(ByteText::from_slice(alloc, *name)?)?;
    }
    Ok(Listed::new(list))
}

/// The arcs and the leaders by the numbers of their names, or the first reason why a name is
/// refused.
fn resolve_numbers(
    alloc: Global,
    line: u32,
    names: &IndexSet<&[u8]>,
    header: &RawHeader<'_>,
) -> Result<Numbered, OfferFault>
    ensures { Gives (λ n. n) result (resolve_numbers line (map (λ k. k.now) names.now.keys) header.now) }
{
    let arcs = resolve_all_ends(alloc, line, names, header.arcs.as_slice())?;
    let leaders = number_leaders(alloc, line, names, header.leaders.as_slice())?;
    Ok(Numbered {
        names: kept_names(alloc, names)?,
        arcs,
        leaders,
    })
}

/// The arcs and the leaders by the numbers of their names, where all names that the header states
/// are known.
fn assign_checked_numbers(
    alloc: Global,
    strategies: &[ByteText],
    line: u32,
    all: &IndexSet<&[u8]>,
    header: &RawHeader<'_>,
) -> Result<Numbered, OfferFault>
    ensures { Gives (λ n. n) result
        (assign_checked_numbers (has_strategy strategies.now) line (map (λ k. k.now) all.now.keys) header.now) }
{
    let mut names = IndexSet::new(alloc);
    add_parties(
        alloc,
        strategies,
        line,
        all,
        &mut names,
        header.parties.as_slice(),
    )?;
    resolve_numbers(alloc, line, &names, header)
}

/// The names of the header and the numbers that stand for them, or the first reason why a name is
/// refused.
#[tactic(auto, unfolding(crate::specs::Names::numbered_header))]
pub(crate) fn assign_numbers(
    alloc: Global,
    strategies: &[ByteText],
    line: u32,
    header: &RawHeader<'_>,
) -> Result<Numbered, OfferFault>
    ensures { Gives (λ n. n) result (numbered_header (has_strategy strategies.now) line header.now) }
{
    let mut all = IndexSet::new(alloc);
    state_names(&mut all, header.parties.as_slice())?;
    assign_checked_numbers(alloc, strategies, line, &all, header)
}
