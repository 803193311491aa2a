//! The parts of a header: its parties, arcs, leaders and rows of keys.

ghost use Rattle.std.specs.Prelude.{codes};
ghost use Rattle.serde_json.specs.View.{view};
ghost use Rattle.swap_base.specs.Fault.{Gives};
ghost use Rattle.offer_moves.specs.Fields.{only, optional_field_text, field_text};
ghost use Rattle.offer_header.specs.Raw.{script_actor, strategy_actor, planned_actor, object_actor, actor_of_word, actor_member, seed_member, party_fields, parse_party};
ghost use Rattle.offer_header.specs.Raw.{timelock_member, arc_fields, read_arc, object_arc};
ghost use Rattle.offer_header.specs.Raw.{hashlock_member, leader_fields, object_leader, parse_key_row};

use crate::raw::{RawActor, RawArc, RawLeader, RawParty, RawRow, Reading, is_plain};
use command_input::{OfferFault, wrong_kind};
use offer_moves::{
    Member, TextRef, allow_only, is_object, member_text, read_list, read_number_field,
    read_optional_text, read_text_field, read_texts,
};
use serde_json::Value;
use std::alloc::Global;
use swap_base::ByteText;
use swap_job::Purpose;

/// A script, by its moves.
#[tactic(auto, unfolding(crate::specs::Raw::script_actor))]
fn read_script<'v>(alloc: Global, line: u32, object: &'v Value) -> Result<RawActor<'v>, OfferFault>
    ensures { Gives (λ a. a) result (script_actor line (view object.now)) }
{
    let moves = read_list(alloc, (), line, "script", object)?;
    allow_only(alloc, line, &["script"], object)?;
    Ok(RawActor::Script(moves))
}

/// A strategy, by its name.
#[tactic(auto, unfolding(crate::specs::Raw::strategy_actor))]
fn read_strategy<'v>(
    alloc: Global,
    line: u32,
    object: &'v Value,
) -> Result<RawActor<'v>, OfferFault>
    ensures { Gives (λ a. a) result (strategy_actor line (view object.now)) }
{
    let name = read_text_field(alloc, line, "strategy", object)?;
    allow_only(alloc, line, &["strategy"], object)?;
    let name = ByteText::from_slice(alloc, name.as_bytes())?;
    Ok(RawActor::Strategy(name))
}

fn planned_actor<'v>(
    alloc: Global,
    line: u32,
    object: &'v Value,
) -> Result<RawActor<'v>, OfferFault>
    ensures { Gives (λ a. a) result (planned_actor line (view object.now)) }
{
    if object.get("script").is_some() {
        return read_script(alloc, line, object);
    }
    read_strategy(alloc, line, object)
}

fn object_actor<'v>(
    alloc: Global,
    line: u32,
    purpose: Purpose,
    object: &'v Value,
) -> Result<RawActor<'v>, OfferFault>
    ensures { Gives (λ a. a) result (object_actor line purpose (view object.now)) }
{
    match purpose {
        Purpose::Audit => Err(wrong_kind(alloc, line, b"actor")),
        _ => planned_actor(alloc, line, object),
    }
}

fn actor_of_word<'v>(alloc: Global, line: u32, word: &str) -> Result<RawActor<'v>, OfferFault>
    ensures { Gives (λ a. a) result (actor_of_word line word.now) }
{
    match word {
        "conforming" => Ok(RawActor::Conforming),
        "manual" => Ok(RawActor::Manual),
        _ => Err(wrong_kind(alloc, line, b"actor")),
    }
}

#[tactic(auto, unfolding(crate::specs::Raw::actor_member))]
fn read_actor<'v>(
    alloc: Global,
    line: u32,
    purpose: Purpose,
    object: &'v Value,
) -> Result<RawActor<'v>, OfferFault>
    ensures { Gives (λ a. a) result (actor_member line purpose (view object.now)) }
{
    let Some(value) = object.get("actor") else {
        return Ok(RawActor::Conforming);
    };
    if value.is_object() {
        return object_actor(alloc, line, purpose, value);
    }
    let word = member_text(alloc, line, "actor", value)?;
    actor_of_word(alloc, line, word)
}

fn read_stated_seed<'v>(
    alloc: Global,
    line: u32,
    object: &'v Value,
) -> Result<Option<TextRef<'v>>, OfferFault>
    ensures { Gives (λ s. s) result (optional_field_text line (codes "seed") (view object.now)) }
{
    match read_optional_text(alloc, line, "seed", object)? {
        None => Ok(None),
        Some(seed) => Ok(Some(TextRef::new(seed.as_bytes()))),
    }
}

fn read_seed<'v>(
    alloc: Global,
    line: u32,
    purpose: Purpose,
    object: &'v Value,
) -> Result<Option<TextRef<'v>>, OfferFault>
    ensures { Gives (λ s. s) result (seed_member line purpose (view object.now)) }
{
    match purpose {
        Purpose::Audit => Ok(None),
        _ => read_stated_seed(alloc, line, object),
    }
}

fn only_party_fields(
    alloc: Global,
    line: u32,
    purpose: Purpose,
    object: &Value,
) -> Result<(), OfferFault>
    ensures { Gives (λ u. u) result (only line (party_fields purpose) (view object.now)) }
{
    match purpose {
        Purpose::Audit => allow_only(alloc, line, &["actor", "name"], object),
        _ => allow_only(alloc, line, &["actor", "name", "seed"], object),
    }
}

impl<'v> Member<'v, Reading> for RawParty<'v> {
    ghost said = { parse_party };

    #[tactic(auto, unfolding(crate::specs::Raw::parse_party))]
    fn read(
        alloc: Global,
        reading: Reading,
        line: u32,
        value: &'v Value,
    ) -> Result<RawParty<'v>, OfferFault> {
        is_object(alloc, line, "parties", value)?;
        let name = read_text_field(alloc, line, "name", value)?;
        let actor = read_actor(alloc, line, reading.purpose, value)?;
        let seed = read_seed(alloc, line, reading.purpose, value)?;
        only_party_fields(alloc, line, reading.purpose, value)?;
        Ok(RawParty {
            name: TextRef::new(name.as_bytes()),
            actor,
            seed,
        })
    }
}

fn read_timelock(alloc: Global, line: u32, stated: bool, object: &Value) -> Result<u64, OfferFault>
    ensures { Gives (λ n. n) result (timelock_member line stated (view object.now)) }
{
    if stated {
        read_number_field(alloc, line, "timelock", object)
    } else {
        Ok(0)
    }
}

fn only_arc_fields(alloc: Global, line: u32, stated: bool, object: &Value) -> Result<(), OfferFault>
    ensures { Gives (λ u. u) result (only line (arc_fields stated) (view object.now)) }
{
    if stated {
        return allow_only(alloc, line, &["amount", "from", "timelock", "to"], object);
    }
    allow_only(alloc, line, &["amount", "from", "to"], object)
}

/// The arc between parties of these names.
fn read_arc<'v>(
    alloc: Global,
    stated: bool,
    line: u32,
    object: &'v Value,
    from: &'v str,
    to: &'v str,
) -> Result<RawArc<'v>, OfferFault>
    ensures { Gives (λ a. a) result (read_arc stated line (view object.now) from.now to.now) }
{
    let amount = read_number_field(alloc, line, "amount", object)?;
    let timelock = read_timelock(alloc, line, stated, object)?;
    only_arc_fields(alloc, line, stated, object)?;
    Ok(RawArc {
        from: TextRef::new(from.as_bytes()),
        to: TextRef::new(to.as_bytes()),
        amount,
        timelock,
    })
}

impl<'v> Member<'v, Reading> for RawArc<'v> {
    ghost said = { object_arc };

    #[tactic(auto, unfolding(crate::specs::Raw::object_arc))]
    fn read(
        alloc: Global,
        reading: Reading,
        line: u32,
        value: &'v Value,
    ) -> Result<RawArc<'v>, OfferFault> {
        is_object(alloc, line, "arcs", value)?;
        let from = read_text_field(alloc, line, "from", value)?;
        let to = read_text_field(alloc, line, "to", value)?;
        read_arc(alloc, reading.states_timelocks(), line, value, from, to)
    }
}

fn read_stated_hashlock<'v>(
    alloc: Global,
    line: u32,
    object: &'v Value,
) -> Result<TextRef<'v>, OfferFault>
    ensures { Gives (λ t. t) result (field_text line (codes "hashlock") (view object.now)) }
{
    let hashlock = read_text_field(alloc, line, "hashlock", object)?;
    Ok(TextRef::new(hashlock.as_bytes()))
}

fn read_hashlock<'v>(
    alloc: Global,
    line: u32,
    plain: bool,
    object: &'v Value,
) -> Result<TextRef<'v>, OfferFault>
    ensures { Gives (λ t. t) result (hashlock_member line plain (view object.now)) }
{
    if plain {
        Ok(TextRef::new(&[]))
    } else {
        read_stated_hashlock(alloc, line, object)
    }
}

fn only_leader_fields(
    alloc: Global,
    line: u32,
    plain: bool,
    object: &Value,
) -> Result<(), OfferFault>
    ensures { Gives (λ u. u) result (only line (leader_fields plain) (view object.now)) }
{
    if plain {
        return allow_only(alloc, line, &["party"], object);
    }
    allow_only(alloc, line, &["hashlock", "party"], object)
}

impl<'v> Member<'v, Reading> for RawLeader<'v> {
    ghost said = { object_leader };

    #[tactic(auto, unfolding(crate::specs::Raw::object_leader))]
    fn read(
        alloc: Global,
        reading: Reading,
        line: u32,
        value: &'v Value,
    ) -> Result<RawLeader<'v>, OfferFault> {
        is_object(alloc, line, "leaders", value)?;
        let party = read_text_field(alloc, line, "party", value)?;
        let plain = is_plain(reading.purpose);
        let hashlock = read_hashlock(alloc, line, plain, value)?;
        only_leader_fields(alloc, line, plain, value)?;
        Ok(RawLeader {
            party: TextRef::new(party.as_bytes()),
            hashlock,
        })
    }
}

impl<'v> Member<'v, Reading> for RawRow<'v> {
    ghost said = { λ _. parse_key_row };

    #[tactic(auto, unfolding(crate::specs::Raw::parse_key_row))]
    fn read(
        alloc: Global,
        _reading: Reading,
        line: u32,
        value: &'v Value,
    ) -> Result<RawRow<'v>, OfferFault> {
        let Some(values) = value.as_array() else {
            return Err(wrong_kind(alloc, line, b"keys"));
        };
        let texts = read_texts(alloc, line, "keys", values)?;
        Ok(RawRow { texts })
    }
}
