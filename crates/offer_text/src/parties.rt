//! The JSON of a job's parties.

ghost use Rattle.std.specs.Prelude.{◌≡◌, ◌<◌, ℕ, List, IfOk, OnOk, codes, length};
ghost use Rattle.serde_json.specs.Data.{member, no_members, object};
ghost use Rattle.serde_json.specs.View.{view, members_view};
ghost use Rattle.swap_job.specs.declared.job.Role.TheVariants.{Strategy as strategy};
ghost use Rattle.offer_text.specs.Words.{digest_data, with_optional, AreTexts};
ghost use Rattle.offer_text.specs.HeaderLine.{shown_party, made_party, parties_data, word_of_conforming, actor_data, AreSayable, IsSayable, IsWritable};

use crate::fields::{put_first, put_text};
use crate::moves::moves_value;
use crate::words::{digest_value, party_label, word_value};
use serde_json::{Map, Value};
use std::alloc::Global;
use swap_base::{ByteText, Digest, NoMemory, PartyId};
use swap_job::{Job, Role};

fn word_of_conforming(conforms: bool) -> &'static str
    ensures { result.now ≡ word_of_conforming conforms }
{
    if conforms { "conforming" } else { "manual" }
}

fn put_shown_party(
    alloc: Global,
    fields: &mut Map<String, Value>,
    job: &Job,
    p: PartyId,
) -> Result<(), NoMemory>
    requires none { members_view fields.old.entries ≡ no_members }
    requires writable { IsWritable job.now }
    requires party { p < job.now.deal.graph.n }
    ensures { OnOk result (object (members_view fields.new.entries) ≡ shown_party job.now p) }
{
    put_text(alloc, fields, "name", party_label(job.names.as_slice(), p))?;
    let actor = word_of_conforming(job.conforming.as_slice()[p as usize]);
    put_text(alloc, fields, "actor", actor)
}

fn shown_party(alloc: Global, job: &Job, p: PartyId) -> Result<Value, NoMemory>
    requires writable { IsWritable job.now }
    requires party { p < job.now.deal.graph.n }
    ensures { IfOk result (λ v. view v ≡ shown_party job.now p) }
{
    let mut fields = Map::new(alloc);
    put_shown_party(alloc, &mut fields, job, p)?;
    Ok(Value::Object(fields))
}

/// The parties as a transcript shows them, as a list.
pub(crate) fn shown_parties(alloc: Global, job: &Job) -> Result<Value, NoMemory>
    requires { IsWritable job.now }
    ensures { IfOk result (λ v. view v ≡ parties_data shown_party job.now) }
{
    let mut list = Vec::new(alloc);
    for p in 0..job.deal.graph.n() {
        list.push(shown_party(alloc, job, p)?)?;
    }
    Ok(Value::Array(list))
}

/// An object with one field.
fn one_field(alloc: Global, name: &str, value: Value) -> Result<Value, NoMemory>
    ensures { IfOk result (λ v. view v ≡ object (member name.now (view value) no_members)) }
{
    let mut fields = Map::new(alloc);
    put_first(alloc, &mut fields, name, value)?;
    Ok(Value::Object(fields))
}

/// The name of a strategy, as an actor.
fn strategy_value(alloc: Global, name: &[u8]) -> Result<Value, NoMemory>
    ensures { IfOk result (λ v. (names : List (List ℕ)) → view v ≡ actor_data names (strategy name.now)) }
{
    let text = Value::String(String::from_utf8_lossy(alloc, name)?);
    one_field(alloc, "strategy", text)
}

/// An actor as the moves that it stands for.
fn actor_value(alloc: Global, names: &[ByteText], role: &Role) -> Result<Value, NoMemory>
    requires texts { AreTexts names.now }
    requires sayable { IsSayable (length names.now) role.now }
    ensures { IfOk result (λ v. view v ≡ actor_data names.now role.now) }
{
    match role {
        Role::Conforming => word_value(alloc, "conforming"),
        Role::Manual => word_value(alloc, "manual"),
        Role::Script(moves) => {
            let list = moves_value(alloc, names, moves.as_slice())?;
            one_field(alloc, "script", list)
        }
        Role::Strategy(name) => strategy_value(alloc, name.as_slice()),
    }
}

/// Puts a seed, where it is there.
fn put_seed(
    alloc: Global,
    fields: &mut Map<String, Value>,
    seed: &Option<Digest>,
) -> Result<(), NoMemory>
    requires { members_view fields.old.entries ≡ no_members }
    ensures { OnOk result (members_view fields.new.entries ≡ with_optional (codes "seed") digest_data seed.now no_members) }
{
    match seed {
        None => Ok(()),
        Some(seed) => put_first(alloc, fields, "seed", digest_value(alloc, seed)?),
    }
}

fn put_made_party(
    alloc: Global,
    fields: &mut Map<String, Value>,
    job: &Job,
    p: PartyId,
) -> Result<(), NoMemory>
    requires none { members_view fields.old.entries ≡ no_members }
    requires writable { IsWritable job.now }
    requires sayable { AreSayable job.now }
    requires party { p < job.now.deal.graph.n }
    ensures { OnOk result (object (members_view fields.new.entries) ≡ made_party job.now p) }
{
    let names = job.names.as_slice();
    put_seed(alloc, fields, &job.seeds.as_slice()[p as usize])?;
    put_text(alloc, fields, "name", party_label(names, p))?;
    let actor = actor_value(alloc, names, &job.roles.as_slice()[p as usize])?;
    put_first(alloc, fields, "actor", actor)
}

fn made_party(alloc: Global, job: &Job, p: PartyId) -> Result<Value, NoMemory>
    requires writable { IsWritable job.now }
    requires sayable { AreSayable job.now }
    requires party { p < job.now.deal.graph.n }
    ensures { IfOk result (λ v. view v ≡ made_party job.now p) }
{
    let mut fields = Map::new(alloc);
    put_made_party(alloc, &mut fields, job, p)?;
    Ok(Value::Object(fields))
}

/// The parties of a made job, as a list.
pub(crate) fn made_parties(alloc: Global, job: &Job) -> Result<Value, NoMemory>
    requires writable { IsWritable job.now }
    requires sayable { AreSayable job.now }
    ensures { IfOk result (λ v. view v ≡ parties_data made_party job.now) }
{
    let mut list = Vec::new(alloc);
    for p in 0..job.deal.graph.n() {
        list.push(made_party(alloc, job, p)?)?;
    }
    Ok(Value::Array(list))
}
