//! The header line of a job.

ghost use Rattle.std.specs.Prelude.{◌≡◌, IfOk, OnOk, codes, true};
ghost use Rattle.serde_json.specs.Data.{member, string, no_members};
ghost use Rattle.serde_json.specs.View.{view, members_view};
ghost use Rattle.offer_text.specs.Words.{number_data, IsBelow};
ghost use Rattle.offer_text.specs.HeaderLine.{first_fields, fields_by_mode, last_fields, leaders_data, finish_word, shown_header, made_header, header_data};
ghost use Rattle.offer_text.specs.HeaderLine.{header_line, is_make, version_number, AreSayable, IsWritable};

use crate::deal::{arcs_value, leaders_value};
use crate::fields::{put_first, put_number, put_text};
use crate::parties::{made_parties, shown_parties};
use crate::shown::list_value;
use serde_json::{Map, Value};
use std::alloc::Global;
use swap_base::{ByteText, NoMemory};
use swap_digraph::{Mode, Version};
use swap_job::{Finish, Job, Purpose};

fn version_number(version: Version) -> u64
    ensures { result ≡ version_number version }
{
    match version {
        Version::One => 1,
        Version::Two => 2,
    }
}

/// The last three fields of a header.
fn put_parties(
    alloc: Global,
    fields: &mut Map<String, Value>,
    job: &Job,
    parties: Value,
) -> Result<(), NoMemory>
    requires { members_view fields.old.entries ≡ no_members }
    ensures { OnOk result (members_view fields.new.entries ≡ member (codes "parties") (view parties)
        (member (codes "start") (number_data job.now.deal.start) (member (codes "swap") (number_data (version_number job.now.deal.version)) no_members))) }
{
    put_number(alloc, fields, "swap", version_number(job.deal.version))?;
    put_number(alloc, fields, "start", job.deal.start as u64)?;
    put_first(alloc, fields, "parties", parties)
}

/// The fields that every header has last.
fn put_last_fields(
    alloc: Global,
    fields: &mut Map<String, Value>,
    job: &Job,
    mode: &str,
    parties: Value,
) -> Result<(), NoMemory>
    requires none { members_view fields.old.entries ≡ no_members }
    requires writable { IsWritable job.now }
    ensures { OnOk result (members_view fields.new.entries
        ≡ last_fields (leaders_data job.now.names job.now.deal) (string mode.now) (view parties) job.now.deal) }
{
    put_parties(alloc, fields, job, parties)?;
    put_text(alloc, fields, "mode", mode)?;
    let leaders = leaders_value(alloc, job.names.as_slice(), &job.deal)?;
    put_first(alloc, fields, "leaders", leaders)
}

/// The fields from the keys on, which stand with hashkeys alone.
fn put_by_mode(
    alloc: Global,
    fields: &mut Map<String, Value>,
    job: &Job,
    parties: Value,
) -> Result<(), NoMemory>
    requires none { members_view fields.old.entries ≡ no_members }
    requires writable { IsWritable job.now }
    ensures { OnOk result (members_view fields.new.entries ≡ fields_by_mode job.now.deal.mode job.now.names (view parties) job.now.deal) }
{
    match job.deal.mode {
        Mode::Timelocks => put_last_fields(alloc, fields, job, "timelocks", parties),
        Mode::Hashkeys => {
            put_last_fields(alloc, fields, job, "hashkeys", parties)?;
            let keys = list_value(alloc, job.deal.keys.as_slice())?;
            put_first(alloc, fields, "keys", keys)
        }
    }
}

/// The fields that every header has first.
fn put_first_fields(
    alloc: Global,
    fields: &mut Map<String, Value>,
    job: &Job,
) -> Result<(), NoMemory>
    requires after { IsBelow (codes "delta") (members_view fields.old.entries) }
    requires writable { IsWritable job.now }
    ensures { OnOk result (members_view fields.new.entries ≡ first_fields job.now.names job.now.deal (members_view fields.old.entries)) }
{
    put_number(alloc, fields, "delta", job.deal.delta as u64)?;
    put_number(alloc, fields, "bound", job.deal.bound as u64)?;
    let arcs = arcs_value(alloc, job.names.as_slice(), &job.deal)?;
    put_first(alloc, fields, "arcs", arcs)
}

/// A header as a transcript shows it.
fn shown_header(alloc: Global, job: &Job) -> Result<Value, NoMemory>
    requires { IsWritable job.now }
    ensures { IfOk result (λ v. view v ≡ shown_header job.now) }
{
    let mut fields = Map::new(alloc);
    let parties = shown_parties(alloc, job)?;
    put_by_mode(alloc, &mut fields, job, parties)?;
    put_first_fields(alloc, &mut fields, job)?;
    Ok(Value::Object(fields))
}

fn finish_word(finish: Finish) -> &'static str
    ensures { result.now ≡ finish_word finish }
{
    match finish {
        Finish::Stop => "stop",
        Finish::Fair => "fair",
    }
}

/// A header with seeds, finish, and the actors as the moves that they stand for.
fn made_header(alloc: Global, job: &Job) -> Result<Value, NoMemory>
    requires writable { IsWritable job.now }
    requires sayable { AreSayable job.now }
    ensures { IfOk result (λ v. view v ≡ made_header job.now) }
{
    let mut fields = Map::new(alloc);
    let parties = made_parties(alloc, job)?;
    put_by_mode(alloc, &mut fields, job, parties)?;
    put_text(alloc, &mut fields, "finish", finish_word(job.finish))?;
    put_first_fields(alloc, &mut fields, job)?;
    Ok(Value::Object(fields))
}

fn is_make(purpose: Purpose) -> bool
    ensures { result ≡ is_make purpose }
{
    matches!(purpose, Purpose::Make)
}

fn header_value(alloc: Global, job: &Job) -> Result<Value, NoMemory>
    requires writable { IsWritable job.now }
    requires sayable { is_make job.now.purpose ≡ true → AreSayable job.now }
    ensures { IfOk result (λ v. view v ≡ header_data job.now) }
{
    if is_make(job.purpose) {
        made_header(alloc, job)
    } else {
        shown_header(alloc, job)
    }
}

/// The header line of a job, without a line feed.
pub fn write_deal(alloc: Global, job: &Job) -> Result<ByteText, NoMemory>
    requires writable { IsWritable job.now }
    requires sayable { is_make job.now.purpose ≡ true → AreSayable job.now }
    ensures { IfOk result (λ t. t ≡ header_line job.now) }
{
    let text = header_value(alloc, job)?.to_string(alloc)?;
    Ok(ByteText::new(text.into_bytes()))
}
