//! The fields of a move, in the order in which they are examined.

ghost use Rattle.serde_json.specs.View.{view};
ghost use Rattle.serde_json.specs.Find.{as_array};
ghost use Rattle.swap_base.specs.Fault.{Gives};
ghost use Rattle.offer_moves.specs.Fields.{only};
ghost use Rattle.offer_moves.specs.Reading.{list_texts, optional_field_texts, field_texts, word_move_kind, move_kind, raw_publish_terms, publish_fields, raw_publish_move, raw_hashkey};
ghost use Rattle.offer_moves.specs.Reading.{raw_fields, raw_unlock_move, raw_claim_move, raw_refund_move, raw_transfer_move, raw_move_of_kind, stated_raw_move, raw_crafting, raw_craft_move, raw_replay_move};
ghost use Rattle.offer_moves.specs.Reading.{script_move, wait_move_kind, raw_wait_move};

use crate::fields::{
    Member, allow_only, field_array, is_object, read_number_field, read_optional_number,
    read_text_field, read_texts as members_in,
};
use crate::raw::{MoveKind, RawCraft, RawKey, RawMove, RawTerms};
use crate::text::TextRef;
use command_input::{OfferFault, wrong_kind};
use serde_json::Value;
use std::alloc::Global;
use swap_base::Listed;

/// The texts that a list holds.
#[tactic(auto, unfolding(crate::specs::Reading::list_texts))]
fn list_texts<'v>(
    alloc: Global,
    line: u32,
    field: &str,
    list: &'v Value,
) -> Result<Listed<TextRef<'v>>, OfferFault>
    ensures { Gives (λ x. x) result (list_texts line field.now (as_array (view list.now))) }
{
    match list.as_array() {
        Some(values) => members_in(alloc, line, field, values),
        None => Err(wrong_kind(alloc, line, field.as_bytes())),
    }
}

/// The texts of a list that may be absent.
#[tactic(auto, unfolding(crate::specs::Reading::optional_field_texts))]
fn read_optional_texts<'v>(
    alloc: Global,
    line: u32,
    field: &str,
    object: &'v Value,
) -> Result<Option<Listed<TextRef<'v>>>, OfferFault>
    ensures { Gives (λ x. x) result (optional_field_texts line field.now (view object.now)) }
{
    match object.get(field) {
        None => Ok(None),
        Some(list) => Ok(Some(list_texts(alloc, line, field, list)?)),
    }
}

/// The texts of a list.
#[tactic(auto, unfolding(crate::specs::Reading::field_texts, crate::specs::Fields::field_list))]
fn read_texts<'v>(
    alloc: Global,
    line: u32,
    field: &str,
    object: &'v Value,
) -> Result<Listed<TextRef<'v>>, OfferFault>
    ensures { Gives (λ x. x) result (field_texts line field.now (view object.now)) }
{
    let values = field_array(alloc, line, field, object)?;
    members_in(alloc, line, field, values)
}

/// What a word asks for that no other move is: a wait, in a script.
fn wait_move_kind(
    alloc: Global,
    line: u32,
    scripted: bool,
    word: &str,
) -> Result<MoveKind, OfferFault>
    ensures { Gives (λ k. k) result (wait_move_kind line scripted word.now) }
{
    if scripted && word == "wait" {
        return Ok(MoveKind::Wait);
    }
    Err(wrong_kind(alloc, line, b"do"))
}

fn word_move_kind(
    alloc: Global,
    line: u32,
    scripted: bool,
    word: &str,
) -> Result<MoveKind, OfferFault>
    ensures { Gives (λ k. k) result (word_move_kind line scripted word.now) }
{
    match word {
        "publish" => Ok(MoveKind::Publish),
        "raw" => Ok(MoveKind::Raw),
        "claim" => Ok(MoveKind::Claim),
        "refund" => Ok(MoveKind::Refund),
        "transfer" => Ok(MoveKind::Transfer),
        "craft" => Ok(MoveKind::Craft),
        "replay" => Ok(MoveKind::Replay),
        _ => wait_move_kind(alloc, line, scripted, word),
    }
}

#[tactic(auto, unfolding(crate::specs::Reading::move_kind))]
fn read_kind(
    alloc: Global,
    line: u32,
    scripted: bool,
    object: &Value,
) -> Result<MoveKind, OfferFault>
    ensures { Gives (λ k. k) result (move_kind line scripted (view object.now)) }
{
    let word = read_text_field(alloc, line, "do", object)?;
    word_move_kind(alloc, line, scripted, word)
}

#[tactic(auto, unfolding(crate::specs::Reading::raw_publish_terms))]
fn parse_terms<'v>(alloc: Global, line: u32, object: &'v Value) -> Result<RawTerms<'v>, OfferFault>
    ensures { Gives (λ t. t) result (raw_publish_terms line (view object.now)) }
{
    let start = read_optional_number(alloc, line, "start", object)?;
    let delta = read_optional_number(alloc, line, "delta", object)?;
    let bound = read_optional_number(alloc, line, "bound", object)?;
    let timelock = read_optional_number(alloc, line, "timelock", object)?;
    let amount = read_optional_number(alloc, line, "amount", object)?;
    let locks = read_optional_texts(alloc, line, "locks", object)?;
    Ok(RawTerms {
        start,
        delta,
        bound,
        timelock,
        amount,
        locks,
    })
}

fn only_publish(alloc: Global, line: u32, object: &Value) -> Result<(), OfferFault>
    ensures { Gives (λ u. u) result (only line publish_fields (view object.now)) }
{
    let allowed = [
        "amount", "arc", "bound", "delta", "do", "locks", "start", "timelock",
    ];
    allow_only(alloc, line, &allowed, object)
}

#[tactic(auto, unfolding(crate::specs::Reading::raw_publish_move))]
fn read_publish<'v>(
    alloc: Global,
    line: u32,
    arc: u64,
    object: &'v Value,
) -> Result<RawMove<'v>, OfferFault>
    ensures { Gives (λ m. m) result (raw_publish_move line arc (view object.now)) }
{
    let terms = parse_terms(alloc, line, object)?;
    only_publish(alloc, line, object)?;
    Ok(RawMove::Publish { arc, terms })
}

#[tactic(auto, unfolding(crate::specs::Reading::raw_crafting))]
fn read_crafting<'v>(
    alloc: Global,
    line: u32,
    object: &'v Value,
) -> Result<RawCraft<'v>, OfferFault>
    ensures { Gives (λ k. k) result (raw_crafting line (view object.now)) }
{
    let lock = read_number_field(alloc, line, "lock", object)?;
    let via = read_texts(alloc, line, "via", object)?;
    let onto = read_optional_number(alloc, line, "onto", object)?;
    Ok(RawCraft { lock, via, onto })
}

#[tactic(auto, unfolding(crate::specs::Reading::raw_craft_move))]
fn read_craft<'v>(
    alloc: Global,
    line: u32,
    arc: u64,
    object: &'v Value,
) -> Result<RawMove<'v>, OfferFault>
    ensures { Gives (λ m. m) result (raw_craft_move line arc (view object.now)) }
{
    let craft = read_crafting(alloc, line, object)?;
    allow_only(alloc, line, &["arc", "do", "lock", "onto", "via"], object)?;
    Ok(RawMove::Craft { arc, craft })
}

#[tactic(auto, unfolding(crate::specs::Reading::raw_replay_move))]
fn read_replay<'v>(
    alloc: Global,
    line: u32,
    arc: u64,
    object: &'v Value,
) -> Result<RawMove<'v>, OfferFault>
    ensures { Gives (λ m. m) result (raw_replay_move line arc (view object.now)) }
{
    let lock = read_number_field(alloc, line, "lock", object)?;
    let onto = read_number_field(alloc, line, "onto", object)?;
    allow_only(alloc, line, &["arc", "do", "lock", "onto"], object)?;
    Ok(RawMove::Replay { arc, lock, onto })
}

#[tactic(auto, unfolding(crate::specs::Reading::raw_hashkey))]
fn read_raw_key<'v>(alloc: Global, line: u32, object: &'v Value) -> Result<RawKey<'v>, OfferFault>
    ensures { Gives (λ k. k) result (raw_hashkey line (view object.now)) }
{
    let lock = read_number_field(alloc, line, "lock", object)?;
    let secret = read_text_field(alloc, line, "secret", object)?;
    let path = read_texts(alloc, line, "path", object)?;
    let sigs = read_texts(alloc, line, "sigs", object)?;
    Ok(RawKey {
        lock,
        secret: TextRef::new(secret.as_bytes()),
        path,
        sigs,
    })
}

fn only_raw(alloc: Global, line: u32, object: &Value) -> Result<(), OfferFault>
    ensures { Gives (λ u. u) result (only line raw_fields (view object.now)) }
{
    let allowed = ["arc", "do", "lock", "path", "secret", "sigs"];
    allow_only(alloc, line, &allowed, object)
}

#[tactic(auto, unfolding(crate::specs::Reading::raw_unlock_move))]
fn parse_raw<'v>(
    alloc: Global,
    line: u32,
    arc: u64,
    object: &'v Value,
) -> Result<RawMove<'v>, OfferFault>
    ensures { Gives (λ m. m) result (raw_unlock_move line arc (view object.now)) }
{
    let key = read_raw_key(alloc, line, object)?;
    only_raw(alloc, line, object)?;
    Ok(RawMove::Raw { arc, key })
}

#[tactic(auto, unfolding(crate::specs::Reading::raw_claim_move))]
fn read_claim<'v>(
    alloc: Global,
    line: u32,
    arc: u64,
    object: &'v Value,
) -> Result<RawMove<'v>, OfferFault>
    ensures { Gives (λ m. m) result (raw_claim_move line arc (view object.now)) }
{
    allow_only(alloc, line, &["arc", "do"], object)?;
    Ok(RawMove::Claim { arc })
}

#[tactic(auto, unfolding(crate::specs::Reading::raw_refund_move))]
fn read_refund<'v>(
    alloc: Global,
    line: u32,
    arc: u64,
    object: &'v Value,
) -> Result<RawMove<'v>, OfferFault>
    ensures { Gives (λ m. m) result (raw_refund_move line arc (view object.now)) }
{
    allow_only(alloc, line, &["arc", "do"], object)?;
    Ok(RawMove::Refund { arc })
}

#[tactic(auto, unfolding(crate::specs::Reading::raw_transfer_move))]
fn read_transfer<'v>(
    alloc: Global,
    line: u32,
    arc: u64,
    object: &'v Value,
) -> Result<RawMove<'v>, OfferFault>
    ensures { Gives (λ m. m) result (raw_transfer_move line arc (view object.now)) }
{
    let to = read_text_field(alloc, line, "to", object)?;
    let units = read_number_field(alloc, line, "units", object)?;
    allow_only(alloc, line, &["arc", "do", "to", "units"], object)?;
    let to = TextRef::new(to.as_bytes());
    Ok(RawMove::Transfer { arc, to, units })
}

#[tactic(auto, unfolding(crate::specs::Reading::raw_wait_move))]
fn read_wait<'v>(
    alloc: Global,
    line: u32,
    arc: u64,
    object: &'v Value,
) -> Result<RawMove<'v>, OfferFault>
    ensures { Gives (λ m. m) result (raw_wait_move line arc (view object.now)) }
{
    let height = read_number_field(alloc, line, "height", object)?;
    allow_only(alloc, line, &["arc", "do", "height"], object)?;
    Ok(RawMove::Wait { arc, height })
}

/// The further fields of a move.
fn read_rest<'v>(
    alloc: Global,
    line: u32,
    kind: MoveKind,
    arc: u64,
    object: &'v Value,
) -> Result<RawMove<'v>, OfferFault>
    ensures { Gives (λ m. m) result (raw_move_of_kind line kind arc (view object.now)) }
{
    match kind {
        MoveKind::Publish => read_publish(alloc, line, arc, object),
        MoveKind::Craft => read_craft(alloc, line, arc, object),
        MoveKind::Replay => read_replay(alloc, line, arc, object),
        MoveKind::Raw => parse_raw(alloc, line, arc, object),
        MoveKind::Claim => read_claim(alloc, line, arc, object),
        MoveKind::Refund => read_refund(alloc, line, arc, object),
        MoveKind::Transfer => read_transfer(alloc, line, arc, object),
        MoveKind::Wait => read_wait(alloc, line, arc, object),
    }
}

/// The move that an object states; a wait is one in a script alone.
#[tactic(auto, unfolding(crate::specs::Reading::stated_raw_move))]
pub fn read_move<'v>(
    alloc: Global,
    line: u32,
    scripted: bool,
    object: &'v Value,
) -> Result<RawMove<'v>, OfferFault>
    ensures { Gives (λ m. m) result (stated_raw_move line scripted (view object.now)) }
{
    let kind = read_kind(alloc, line, scripted, object)?;
    let arc = read_number_field(alloc, line, "arc", object)?;
    read_rest(alloc, line, kind, arc, object)
}

/// A move of a script.
impl<'v> Member<'v, ()> for RawMove<'v> {
    ghost said = { λ _. script_move };

    #[tactic(auto, unfolding(crate::specs::Reading::script_move))]
    fn read(
        alloc: Global,
        _context: (),
        line: u32,
        value: &'v Value,
    ) -> Result<RawMove<'v>, OfferFault> {
        is_object(alloc, line, "script", value)?;
        read_move(alloc, line, true, value)
    }
}
