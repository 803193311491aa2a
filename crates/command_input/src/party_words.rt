//! The words that reports and refusals share.

ghost use Rattle.std.specs.Prelude.{◌≡◌, ◌++◌, OnOk, OnErr};
ghost use Rattle.command_input.specs.Words.{party_name, reply_text};

use escrow_core::Reply;
use swap_base::{ByteText, NoMemory, PartyId, Piece, put};

/// The name of a party; no text where the number is nobody's.
pub fn party_name(names: &[ByteText], p: PartyId) -> &[u8]
    ensures { result.now ≡ party_name names.now p }
{
    match names.get(p as usize) {
        Some(name) => name.as_slice(),
        None => &[],
    }
}

/// Appends a ledger's answer to a call. After want of memory a part of it stands there.
#[tactic(auto, unfolding(crate::specs::Words::reply_text))]
pub(crate) fn put_words(out: &mut Vec<u8>, reply: Reply) -> Result<(), NoMemory>
    ensures { OnOk result (out.new.items ≡ out.old.items ++ reply_text reply) }
{
    match reply {
        Reply::Accepted => put(out, &[Piece::Text("accepted")]),
        Reply::Settled => put(out, &[Piece::Text("Settled")]),
        Reply::NotCounterparty => put(out, &[Piece::Text("NotCounterparty")]),
        Reply::NotParty => put(out, &[Piece::Text("NotParty")]),
        Reply::AlreadyUnlocked => put(out, &[Piece::Text("AlreadyUnlocked")]),
        Reply::WrongSecret => put(out, &[Piece::Text("WrongSecret")]),
        Reply::WrongPath => put(out, &[Piece::Text("WrongPath")]),
        Reply::WrongSignature => put(out, &[Piece::Text("WrongSignature")]),
        Reply::TooLate(last) => put(out, &[Piece::Text("TooLate "), Piece::Number(last)]),
        Reply::StillLocked(i) => put(out, &[Piece::Text("StillLocked "), Piece::Number(i as u64)]),
        Reply::NothingLocked => put(out, &[Piece::Text("NothingLocked")]),
        Reply::NotExpired(first) => put(out, &[Piece::Text("NotExpired "), Piece::Number(first)]),
        Reply::NoContract => put(out, &[Piece::Text("NoContract")]),
        Reply::AlreadyPublished => put(out, &[Piece::Text("AlreadyPublished")]),
        Reply::NoFunds(have) => put(out, &[Piece::Text("NoFunds "), Piece::Number(have)]),
        Reply::SenderFull => put(out, &[Piece::Text("SenderFull")]),
        Reply::ClockFull => put(out, &[Piece::Text("ClockFull")]),
    }
}

/// Appends a ledger's answer to a call. Want of memory leaves the text as it was.
pub fn put_reply(out: &mut Vec<u8>, reply: Reply) -> Result<(), NoMemory>
    ensures ok { OnOk result (out.new.items ≡ out.old.items ++ reply_text reply) }
    ensures err { OnErr result (out.new.items ≡ out.old.items) }
{
    let mut text = Vec::new(*out.allocator());
    put_words(&mut text, reply)?;
    out.extend_from_slice(&text)?;
    Ok(())
}
