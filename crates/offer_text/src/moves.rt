//! The JSON of moves.

ghost use Rattle.std.specs.Prelude.{◌≡◌, ◌<◌, ℕ, List, IfOk, OnOk, All, codes, length};
ghost use Rattle.serde_json.specs.Data.{member, no_members, object, string};
ghost use Rattle.serde_json.specs.View.{view, members_view};
ghost use Rattle.swap_job.specs.declared.moves.Move.TheVariants.{Replay as replays, Raw as presents};
ghost use Rattle.swap_job.specs.declared.moves.Move.TheVariants.{Transfer as transfers, Wait as waits};
ghost use Rattle.offer_text.specs.Words.{digest_data, list_data, name_data, number_data, with_optional, AreTexts, IsBelow};
ghost use Rattle.offer_text.specs.Moves.{move_data, signature_data, AreBelow, BoundedNames};

use crate::fields::{put_first, put_number, put_text};
use crate::shown::list_value;
use crate::terms::{put_first_terms, put_last_terms};
use crate::words::{digest_value, names_value, party_label};
use hashkey_path::Hashkey;
use serde_json::{Map, Value};
use std::alloc::Global;
use swap_base::{ArcId, ByteText, LockId, NoMemory, PartyId};
use swap_job::Move;

/// Puts what is done, and the arc, before the others.
fn put_head(
    alloc: Global,
    fields: &mut Map<String, Value>,
    word: &str,
    arc: ArcId,
) -> Result<(), NoMemory>
    requires { IsBelow (codes "do") (members_view fields.old.entries) }
    ensures { OnOk result (members_view fields.new.entries
        ≡ member (codes "arc") (number_data arc) (member (codes "do") (string word.now) (members_view fields.old.entries))) }
{
    put_text(alloc, fields, "do", word)?;
    put_number(alloc, fields, "arc", arc as u64)
}

/// Puts a lock before the others, with an arc after it where there is one.
fn put_lock(
    alloc: Global,
    fields: &mut Map<String, Value>,
    lock: LockId,
    onto: Option<ArcId>,
) -> Result<(), NoMemory>
    requires onto { IsBelow (codes "onto") (members_view fields.old.entries) }
    requires lock { IsBelow (codes "lock") (members_view fields.old.entries) }
    ensures { OnOk result (members_view fields.new.entries
        ≡ member (codes "lock") (number_data lock) (with_optional (codes "onto") number_data onto (members_view fields.old.entries))) }
{
    match onto {
        None => put_number(alloc, fields, "lock", lock as u64),
        Some(onto) => {
            put_number(alloc, fields, "onto", onto as u64)?;
            put_number(alloc, fields, "lock", lock as u64)
        }
    }
}

/// The parties that make a craft's hashkey.
fn put_via(
    alloc: Global,
    fields: &mut Map<String, Value>,
    names: &[ByteText],
    via: &[PartyId],
) -> Result<(), NoMemory>
    requires none { members_view fields.old.entries ≡ no_members }
    requires texts { AreTexts names.now }
    requires known { AreBelow (length names.now) via.now }
    ensures { OnOk result (members_view fields.new.entries ≡ member (codes "via") (list_data (name_data names.now) via.now) no_members) }
{
    let via = names_value(alloc, names, via)?;
    put_first(alloc, fields, "via", via)
}

#[tactic(auto, unfolding(crate::specs::Moves::move_data))]
fn put_replay(
    alloc: Global,
    fields: &mut Map<String, Value>,
    arc: ArcId,
    lock: LockId,
    onto: ArcId,
) -> Result<(), NoMemory>
    requires { members_view fields.old.entries ≡ no_members }
    ensures { OnOk result ((names : List (List ℕ)) → object (members_view fields.new.entries) ≡ move_data names (replays arc lock onto)) }
{
    put_number(alloc, fields, "onto", onto as u64)?;
    put_number(alloc, fields, "lock", lock as u64)?;
    put_head(alloc, fields, "replay", arc)
}

/// The fields of a hashkey but for its lock.
fn put_key(
    alloc: Global,
    fields: &mut Map<String, Value>,
    names: &[ByteText],
    key: &Hashkey,
) -> Result<(), NoMemory>
    requires none { members_view fields.old.entries ≡ no_members }
    requires texts { AreTexts names.now }
    requires known { AreBelow (length names.now) key.now.path }
    ensures { OnOk result (members_view fields.new.entries ≡ member (codes "path") (list_data (name_data names.now) key.now.path)
        (member (codes "secret") (digest_data key.now.secret) (member (codes "sigs") (list_data signature_data key.now.sigs) no_members))) }
{
    let sigs = list_value(alloc, key.sigs.as_slice())?;
    put_first(alloc, fields, "sigs", sigs)?;
    let secret = digest_value(alloc, &key.secret)?;
    put_first(alloc, fields, "secret", secret)?;
    let path = names_value(alloc, names, key.path.as_slice())?;
    put_first(alloc, fields, "path", path)
}

#[tactic(auto, unfolding(crate::specs::Moves::move_data))]
fn put_raw(
    alloc: Global,
    fields: &mut Map<String, Value>,
    names: &[ByteText],
    arc: ArcId,
    key: &Hashkey,
) -> Result<(), NoMemory>
    requires none { members_view fields.old.entries ≡ no_members }
    requires texts { AreTexts names.now }
    requires known { AreBelow (length names.now) key.now.path }
    ensures { OnOk result (object (members_view fields.new.entries) ≡ move_data names.now (presents arc key.now)) }
{
    put_key(alloc, fields, names, key)?;
    put_number(alloc, fields, "lock", key.lock as u64)?;
    put_head(alloc, fields, "raw", arc)
}

#[tactic(auto, unfolding(crate::specs::Moves::move_data))]
fn put_transfer(
    alloc: Global,
    fields: &mut Map<String, Value>,
    names: &[ByteText],
    arc: ArcId,
    to: PartyId,
    units: u64,
) -> Result<(), NoMemory>
    requires none { members_view fields.old.entries ≡ no_members }
    requires texts { AreTexts names.now }
    requires known { to < length names.now }
    ensures { OnOk result (object (members_view fields.new.entries) ≡ move_data names.now (transfers arc to units)) }
{
    put_number(alloc, fields, "units", units)?;
    put_text(alloc, fields, "to", party_label(names, to))?;
    put_head(alloc, fields, "transfer", arc)
}

#[tactic(auto, unfolding(crate::specs::Moves::move_data))]
fn put_wait(
    alloc: Global,
    fields: &mut Map<String, Value>,
    arc: ArcId,
    height: u32,
) -> Result<(), NoMemory>
    requires { members_view fields.old.entries ≡ no_members }
    ensures { OnOk result ((names : List (List ℕ)) → object (members_view fields.new.entries) ≡ move_data names (waits arc height)) }
{
    put_number(alloc, fields, "height", height as u64)?;
    put_head(alloc, fields, "wait", arc)
}

#[tactic(auto, unfolding(crate::specs::Moves::move_data))]
fn put_move(
    alloc: Global,
    fields: &mut Map<String, Value>,
    names: &[ByteText],
    mv: &Move,
) -> Result<(), NoMemory>
    requires none { members_view fields.old.entries ≡ no_members }
    requires texts { AreTexts names.now }
    requires known { BoundedNames (length names.now) mv.now }
    ensures { OnOk result (object (members_view fields.new.entries) ≡ move_data names.now mv.now) }
{
    match mv {
        Move::Publish {
            arc,
            start,
            delta,
            bound,
            timelock,
            amount,
            locks,
        } => {
            put_last_terms(alloc, fields, locks, *start, *timelock)?;
            put_first_terms(alloc, fields, *amount, *arc, *bound, *delta)
        }
        Move::Craft {
            arc,
            lock,
            via,
            onto,
        } => {
            put_via(alloc, fields, names, via.as_slice())?;
            put_lock(alloc, fields, *lock, *onto)?;
            put_head(alloc, fields, "craft", *arc)
        }
        Move::Replay { arc, lock, onto } => put_replay(alloc, fields, *arc, *lock, *onto),
        Move::Raw { arc, key } => put_raw(alloc, fields, names, *arc, key),
        Move::Claim { arc } => put_head(alloc, fields, "claim", *arc),
        Move::Refund { arc } => put_head(alloc, fields, "refund", *arc),
        Move::Transfer { arc, to, units } => {
            put_transfer(alloc, fields, names, *arc, *to, *units)
        }
        Move::Wait { arc, height } => put_wait(alloc, fields, *arc, *height),
    }
}

fn move_value(alloc: Global, names: &[ByteText], mv: &Move) -> Result<Value, NoMemory>
    requires texts { AreTexts names.now }
    requires known { BoundedNames (length names.now) mv.now }
    ensures { IfOk result (λ v. view v ≡ move_data names.now mv.now) }
{
    let mut fields = Map::new(alloc);
    put_move(alloc, &mut fields, names, mv)?;
    Ok(Value::Object(fields))
}

/// Moves, as a list.
pub(crate) fn moves_value(
    alloc: Global,
    names: &[ByteText],
    moves: &[Move],
) -> Result<Value, NoMemory>
    requires texts { AreTexts names.now }
    requires known { All (BoundedNames (length names.now)) moves.now }
    ensures { IfOk result (λ v. view v ≡ list_data (move_data names.now) moves.now) }
{
    let mut list = Vec::new(alloc);
    for mv in moves {
        list.push(move_value(alloc, names, mv)?)?;
    }
    Ok(Value::Array(list))
}
