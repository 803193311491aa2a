//! The fields of an object.

ghost use Rattle.std.specs.Prelude.{◌≡◌, ℕ, Result, map, option_map};
ghost use Rattle.std.specs.List.{list_any};
ghost use Rattle.std.specs.Str.{bytes_eq};
ghost use Rattle.serde_json.specs.View.{view, items_view, members_view};
ghost use Rattle.serde_json.specs.Data.{Data};
ghost use Rattle.swap_base.specs.Fault.{Gives};
ghost use Rattle.offer_moves.specs.Fields.{needed, field_number, field_text, optional_field_number, optional_field_text, text_member, first_unknown as unknown, only};
ghost use Rattle.offer_moves.specs.Fields.{each, read_array_field, field_list, required_object};
ghost use Rattle.command_input.specs.declared.reason.Reason.{Reason};

use crate::text::TextRef;
use command_input::{OfferFault, Reason, missing, unknown_field, wrong_kind};
use serde_json::{Map, Value};
use std::alloc::Global;
use swap_base::Listed;

#[tactic(auto, unfolding(crate::specs::Fields::needed))]
pub fn field_value<'v>(
    alloc: Global,
    line: u32,
    field: &str,
    object: &'v Value,
) -> Result<&'v Value, OfferFault>
    ensures { Gives (λ v. view v.now) result (needed line field.now (view object.now)) }
{
    match object.get(field) {
        Some(value) => Ok(value),
        None => Err(missing(alloc, line, field.as_bytes())),
    }
}

#[tactic(auto, unfolding(crate::specs::Fields::field_number))]
pub fn read_number_field(
    alloc: Global,
    line: u32,
    field: &str,
    object: &Value,
) -> Result<u64, OfferFault>
    ensures { Gives (λ n. n) result (field_number line field.now (view object.now)) }
{
    match field_value(alloc, line, field, object)?.as_u64() {
        Some(number) => Ok(number),
        None => Err(wrong_kind(alloc, line, field.as_bytes())),
    }
}

#[tactic(auto, unfolding(crate::specs::Fields::field_text))]
pub fn read_text_field<'v>(
    alloc: Global,
    line: u32,
    field: &str,
    object: &'v Value,
) -> Result<&'v str, OfferFault>
    ensures { Gives (λ s. s.now) result (field_text line field.now (view object.now)) }
{
    match field_value(alloc, line, field, object)?.as_str() {
        Some(text) => Ok(text),
        None => Err(wrong_kind(alloc, line, field.as_bytes())),
    }
}

#[tactic(auto, unfolding(crate::specs::Fields::optional_field_number))]
pub fn read_optional_number(
    alloc: Global,
    line: u32,
    field: &str,
    object: &Value,
) -> Result<Option<u64>, OfferFault>
    ensures { Gives (λ n. n) result (optional_field_number line field.now (view object.now)) }
{
    match object.get(field) {
        None => Ok(None),
        Some(value) => match value.as_u64() {
            Some(number) => Ok(Some(number)),
            None => Err(wrong_kind(alloc, line, field.as_bytes())),
        },
    }
}

#[tactic(auto, unfolding(crate::specs::Fields::read_array_field))]
pub fn field_array<'v>(
    alloc: Global,
    line: u32,
    field: &str,
    object: &'v Value,
) -> Result<&'v Vec<Value>, OfferFault>
    ensures { Gives (λ v. items_view v.now.items) result (read_array_field line field.now (view object.now)) }
{
    match field_value(alloc, line, field, object)?.as_array() {
        Some(values) => Ok(values),
        None => Err(wrong_kind(alloc, line, field.as_bytes())),
    }
}

#[tactic(auto, unfolding(crate::specs::Fields::required_object))]
pub fn is_object(alloc: Global, line: u32, field: &str, value: &Value) -> Result<(), OfferFault>
    ensures { Gives (λ u. u) result (required_object line field.now (view value.now)) }
{
    if value.is_object() {
        Ok(())
    } else {
        Err(wrong_kind(alloc, line, field.as_bytes()))
    }
}

fn is_listed(word: &str, words: &[&str]) -> bool
    ensures { result ≡ list_any (bytes_eq word.now) (map (λ w. w.now) words.now) }
{
    for known in words {
        if word == *known {
            return true;
        }
    }
    false
}

fn first_unknown<'v>(members: &'v Map<String, Value>, allowed: &[&str]) -> Option<&'v str>
    ensures { option_map (λ k. k.now) result ≡ unknown (map (λ w. w.now) allowed.now) (members_view members.now.entries) }
{
    for (key, _) in members {
        if !is_listed(key.as_str(), allowed) {
            return Some(key.as_str());
        }
    }
    None
}

#[tactic(auto, unfolding(crate::specs::Fields::only))]
pub fn allow_only(
    alloc: Global,
    line: u32,
    allowed: &[&str],
    object: &Value,
) -> Result<(), OfferFault>
    ensures { Gives (λ u. u) result (only line (map (λ w. w.now) allowed.now) (view object.now)) }
{
    let Some(members) = object.as_object() else {
        return Ok(());
    };
    match first_unknown(members, allowed) {
        None => Ok(()),
        Some(key) => Err(unknown_field(alloc, line, key.as_bytes())),
    }
}

/// What a member of a list is read as, in a context that all members share.
pub trait Member<'v, C: Copy>: Sized {
    ghost said: { C → ℕ → Data → Result Self Reason };

    fn read(alloc: Global, context: C, line: u32, value: &'v Value) -> Result<Self, OfferFault>
        ensures { Gives (λ x. x) result (said context line (view value.now)) };
}

/// The list of that name, each member read in turn.
#[tactic(auto, unfolding(crate::specs::Fields::field_list))]
pub fn read_list<'v, C: Copy, T: Member<'v, C> + Drop>(
    alloc: Global,
    context: C,
    line: u32,
    field: &str,
    object: &'v Value,
) -> Result<Listed<T>, OfferFault>
    ensures { Gives (λ x. x) result (field_list line field.now (T.said context line) (view object.now)) }
{
    let values = field_array(alloc, line, field, object)?;
    read_each(alloc, context, line, values)
}

/// The members of a list, each read in turn.
fn read_each<'v, C: Copy, T: Member<'v, C> + Drop>(
    alloc: Global,
    context: C,
    line: u32,
    values: &'v [Value],
) -> Result<Listed<T>, OfferFault>
    ensures { Gives (λ x. x) result (each (T.said context line) (items_view values.now)) }
{
    let mut list = Vec::new(alloc);
    for value in values {
        list.push(T::read(alloc, context, line, value)?)?;
    }
    Ok(Listed::new(list))
}

#[tactic(auto, unfolding(crate::specs::Fields::text_member))]
fn text_ref<'v>(
    alloc: Global,
    line: u32,
    field: &str,
    value: &'v Value,
) -> Result<TextRef<'v>, OfferFault>
    ensures { Gives (λ x. x) result (text_member line field.now (view value.now)) }
{
    let text = member_text(alloc, line, field, value)?;
    Ok(TextRef::new(text.as_bytes()))
}

/// The texts that the members of the list of that name are.
pub fn read_texts<'v>(
    alloc: Global,
    line: u32,
    field: &str,
    values: &'v [Value],
) -> Result<Listed<TextRef<'v>>, OfferFault>
    ensures { Gives (λ x. x) result (each (text_member line field.now) (items_view values.now)) }
{
    let mut list = Vec::new(alloc);
    for value in values {
        list.push(text_ref(alloc, line, field, value)?)?;
    }
    Ok(Listed::new(list))
}

/// The text of a field that may be absent.
#[tactic(auto, unfolding(crate::specs::Fields::optional_field_text))]
pub fn read_optional_text<'v>(
    alloc: Global,
    line: u32,
    field: &str,
    object: &'v Value,
) -> Result<Option<&'v str>, OfferFault>
    ensures { Gives (λ s. option_map (λ t. t.now) s) result (optional_field_text line field.now (view object.now)) }
{
    match object.get(field) {
        None => Ok(None),
        Some(value) => match value.as_str() {
            Some(text) => Ok(Some(text)),
            None => Err(wrong_kind(alloc, line, field.as_bytes())),
        },
    }
}

/// The text that a member of the list of that name is.
#[tactic(auto, unfolding(crate::specs::Fields::text_member))]
pub fn member_text<'v>(
    alloc: Global,
    line: u32,
    field: &str,
    value: &'v Value,
) -> Result<&'v str, OfferFault>
    ensures { Gives (λ s. s.now) result (text_member line field.now (view value.now)) }
{
    match value.as_str() {
        Some(text) => Ok(text),
        None => Err(wrong_kind(alloc, line, field.as_bytes())),
    }
}
