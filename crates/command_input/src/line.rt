//! The line that tells why an input was refused.

ghost use Rattle.std.specs.Prelude.{◌≡◌, ◌++◌, IfOk, OnOk, OnErr};
ghost use Rattle.swap_base.specs.Text.{lines};
ghost use Rattle.command_input.specs.declared.reason.Reason.TheVariants.{OverLimit, WrongWallet, WrongTimelock, BadReply, Overdrawn};
ghost use Rattle.command_input.specs.Line.{numbered_word, numbered_twice, lined, comma_named, all_named, of_party, of_parties, reason_text, refusal_line_text};

use crate::escaped::put_escaped;
use crate::party_words::{party_name, put_words};
use crate::reason::Reason;
use escrow_core::Reply;
use std::alloc::Global;
use swap_base::{ArcId, ByteText, LockId, NoMemory, PartyId, Piece, put};

fn put_comma_name(out: &mut Vec<u8>, names: &[ByteText], p: PartyId) -> Result<(), NoMemory>
    ensures { OnOk result (out.new.items ≡ out.old.items ++ comma_named names.now 0 p) }
{
    put(out, &[Piece::Text(",")])?;
    put_escaped(out, party_name(names, p))
}

/// The further names of a list, each after a comma.
fn put_further(out: &mut Vec<u8>, names: &[ByteText], parties: &[PartyId]) -> Result<(), NoMemory>
    ensures { OnOk result (out.new.items ≡ out.old.items ++ lines (comma_named names.now) 0 parties.now) }
{
    for p in parties {
        put_comma_name(out, names, *p)?;
    }
    Ok(())
}

/// Appends the names of parties, joined by commas. After want of memory a part of them stands
/// there.
#[tactic(auto, unfolding(crate::specs::Line::all_named))]
fn put_joined(out: &mut Vec<u8>, names: &[ByteText], parties: &[PartyId]) -> Result<(), NoMemory>
    ensures { OnOk result (out.new.items ≡ out.old.items ++ all_named names.now parties.now) }
{
    match parties {
        [] => Ok(()),
        [first, further @ ..] => {
            put_escaped(out, party_name(names, *first))?;
            put_further(out, names, further)
        }
    }
}

/// Appends the names of parties, joined by commas. Want of memory leaves the text as it was.
pub fn put_names(out: &mut Vec<u8>, names: &[ByteText], parties: &[PartyId]) -> Result<(), NoMemory>
    ensures ok { OnOk result (out.new.items ≡ out.old.items ++ all_named names.now parties.now) }
    ensures err { OnErr result (out.new.items ≡ out.old.items) }
{
    let mut text = Vec::new(*out.allocator());
    put_joined(&mut text, names, parties)?;
    out.extend_from_slice(&text)?;
    Ok(())
}

#[tactic(auto, unfolding(crate::specs::Line::numbered_word))]
fn put_numbered(out: &mut Vec<u8>, word: &str, number: u64) -> Result<(), NoMemory>
    ensures { OnOk result (out.new.items ≡ out.old.items ++ numbered_word word.now number) }
{
    put(
        out,
        &[Piece::Text(word), Piece::Text(" "), Piece::Number(number)],
    )
}

#[tactic(auto, unfolding(crate::specs::Line::numbered_twice))]
fn put_two(out: &mut Vec<u8>, word: &str, first: u64, second: u64) -> Result<(), NoMemory>
    ensures { OnOk result (out.new.items ≡ out.old.items ++ numbered_twice word.now first second) }
{
    put(
        out,
        &[
            Piece::Text(word),
            Piece::Text(" "),
            Piece::Number(first),
            Piece::Text(" "),
            Piece::Number(second),
        ],
    )
}

#[tactic(auto, unfolding(crate::specs::Line::lined))]
fn put_lined(out: &mut Vec<u8>, word: &str, line: u32, text: &ByteText) -> Result<(), NoMemory>
    ensures { OnOk result (out.new.items ≡ out.old.items ++ lined word.now line text.now) }
{
    put_numbered(out, word, line as u64)?;
    put(out, &[Piece::Text(" ")])?;
    put_escaped(out, text.as_slice())
}

#[tactic(auto, unfolding(crate::specs::Line::of_party))]
fn put_party(
    out: &mut Vec<u8>,
    word: &str,
    names: &[ByteText],
    party: PartyId,
) -> Result<(), NoMemory>
    ensures { OnOk result (out.new.items ≡ out.old.items ++ of_party word.now names.now party) }
{
    put(out, &[Piece::Text(word), Piece::Text(" ")])?;
    put_escaped(out, party_name(names, party))
}

#[tactic(auto, unfolding(crate::specs::Line::of_parties))]
fn put_parties(
    out: &mut Vec<u8>,
    word: &str,
    names: &[ByteText],
    parties: &[PartyId],
) -> Result<(), NoMemory>
    ensures { OnOk result (out.new.items ≡ out.old.items ++ of_parties word.now names.now parties.now) }
{
    put(out, &[Piece::Text(word), Piece::Text(" ")])?;
    put_joined(out, names, parties)
}

#[tactic(auto, unfolding(crate::specs::Line::reason_text))]
fn put_limit(
    out: &mut Vec<u8>,
    names: &[ByteText],
    line: u32,
    field: &ByteText,
    number: u64,
) -> Result<(), NoMemory>
    ensures { OnOk result (out.new.items ≡ out.old.items ++ reason_text names.now (OverLimit line field.now number)) }
{
    put_lined(out, "OverLimit", line, field)?;
    put(out, &[Piece::Text(" "), Piece::Number(number)])
}

#[tactic(auto, unfolding(crate::specs::Line::reason_text))]
fn put_wallet(
    out: &mut Vec<u8>,
    names: &[ByteText],
    party: PartyId,
    lock: LockId,
) -> Result<(), NoMemory>
    ensures { OnOk result (out.new.items ≡ out.old.items ++ reason_text names.now (WrongWallet party lock)) }
{
    put_party(out, "WrongWallet", names, party)?;
    put(out, &[Piece::Text(" "), Piece::Number(lock as u64)])
}

#[tactic(auto, unfolding(crate::specs::Line::reason_text))]
fn put_timelock(
    out: &mut Vec<u8>,
    names: &[ByteText],
    arc: ArcId,
    given: u64,
    wanted: u64,
) -> Result<(), NoMemory>
    ensures { OnOk result (out.new.items ≡ out.old.items ++ reason_text names.now (WrongTimelock arc given wanted)) }
{
    put_two(out, "WrongTimelock", arc as u64, given)?;
    put(out, &[Piece::Text(" "), Piece::Number(wanted)])
}

#[tactic(auto, unfolding(crate::specs::Line::reason_text))]
fn put_replies(
    out: &mut Vec<u8>,
    names: &[ByteText],
    at: (ArcId, u32),
    stated: Reply,
    replayed: Reply,
) -> Result<(), NoMemory>
    ensures { OnOk result (out.new.items ≡ out.old.items ++ reason_text names.now (BadReply at.0 at.1 stated replayed)) }
{
    put_two(out, "BadReply", at.0 as u64, at.1 as u64)?;
    put(out, &[Piece::Text(" ")])?;
    put_words(out, stated)?;
    put(out, &[Piece::Text(" ")])?;
    put_words(out, replayed)
}

#[tactic(auto, unfolding(crate::specs::Line::reason_text))]
fn put_overdrawn(
    out: &mut Vec<u8>,
    names: &[ByteText],
    chain: u8,
    name: &ByteText,
    have: u64,
    wanted: u64,
) -> Result<(), NoMemory>
    ensures { OnOk result (out.new.items ≡ out.old.items ++ reason_text names.now (Overdrawn chain name.now have wanted)) }
{
    put_lined(out, "Overdrawn", chain as u32, name)?;
    put(
        out,
        &[
            Piece::Text(" "),
            Piece::Number(have),
            Piece::Text(" "),
            Piece::Number(wanted),
        ],
    )
}

/// The reason's name and its fields.
#[tactic(auto, unfolding(crate::specs::Line::reason_text))]
fn put_reason(out: &mut Vec<u8>, names: &[ByteText], reason: &Reason) -> Result<(), NoMemory>
    ensures { OnOk result (out.new.items ≡ out.old.items ++ reason_text names.now reason.now) }
{
    match reason {
        Reason::NotJson(line) => put_numbered(out, "NotJson", *line as u64),
        Reason::Missing(line, field) => put_lined(out, "Missing", *line, field),
        Reason::WrongKind(line, field) => put_lined(out, "WrongKind", *line, field),
        Reason::UnknownField(line, field) => put_lined(out, "UnknownField", *line, field),
        Reason::BadName(line, name) => put_lined(out, "BadName", *line, name),
        Reason::Duplicate(line, name) => put_lined(out, "Duplicate", *line, name),
        Reason::Unknown(line, name) => put_lined(out, "Unknown", *line, name),
        Reason::OverLimit(line, field, n) => put_limit(out, names, *line, field, *n),
        Reason::WrongHex(line, field) => put_lined(out, "WrongHex", *line, field),
        Reason::NotAdjacent(line) => put_numbered(out, "NotAdjacent", *line as u64),
        Reason::ConformingCall(line) => put_numbered(out, "ConformingCall", *line as u64),
        Reason::EventInRace(line) => put_numbered(out, "EventInRace", *line as u64),
        Reason::SelfArc(arc) => put_numbered(out, "SelfArc", *arc as u64),
        Reason::Parallel(a, b) => put_two(out, "Parallel", *a as u64, *b as u64),
        Reason::NotStrong(set) => put_parties(out, "NotStrong", names, set.as_slice()),
        Reason::ManyLeaders(count) => put_numbered(out, "ManyLeaders", *count as u64),
        Reason::NotFeedback(cycle) => put_parties(out, "NotFeedback", names, cycle.as_slice()),
        Reason::BoundTooSmall(given, needed) => put_two(out, "BoundTooSmall", *given, *needed),
        Reason::StartTooSoon(start, delta) => put_two(out, "StartTooSoon", *start, *delta),
        Reason::WrongTimelock(arc, given, due) => put_timelock(out, names, *arc, *given, *due),
        Reason::NoSeed(party) => put_party(out, "NoSeed", names, *party),
        Reason::WrongWallet(party, lock) => put_wallet(out, names, *party, *lock),
        Reason::BadLine(line) => put_numbered(out, "BadLine", *line as u64),
        Reason::CutShort => put(out, &[Piece::Text("CutShort")]),
        Reason::BadReply(arc, at, old, new) => put_replies(out, names, (*arc, *at), *old, *new),
        Reason::TooManyLeaders(group, count) => put_two(
            out,
            "TooManyLeaders",
            *group as u64,
            *count as u64,
        ),
        Reason::NoAccount(swap, arc) => put_two(out, "NoAccount", *swap as u64, *arc as u64),
        Reason::Overdrawn(chain, name, have, wanted) => put_overdrawn(
            out, names, *chain, name, *have, *wanted,
        ),
        Reason::NotConforming(line) => put_numbered(out, "NotConforming", *line as u64),
    }
}

/// The line that tells the reason, with the parties by their names, and without a line feed.
#[tactic(auto, unfolding(crate::specs::Line::refusal_line_text))]
pub fn refusal_line(
    alloc: Global,
    reason: &Reason,
    names: &[ByteText],
) -> Result<ByteText, NoMemory>
    ensures text { IfOk result (λ t. t ≡ refusal_line_text names.now reason.now) }
{
    let mut out = Vec::new(alloc);
    put(&mut out, &[Piece::Text("swap: refused: ")])?;
    put_reason(&mut out, names, reason)?;
    Ok(ByteText::new(out))
}
