//! The line of an entry.

ghost use Rattle.std.specs.Prelude.{◌≡◌, ◌∷◌, ◌++◌, [], OnOk, codes, decimal};
ghost use Rattle.transcript_book.specs.Between.{spaced};
ghost use Rattle.transcript_book.specs.Words.{call_words, key_words, terms_words, reply_words};
ghost use Rattle.run_texts.specs.Texts.{entry_text, numbers_text};

use crate::words::{put_digits, put_locks, put_path, put_signatures};
use command_input::put_reply;
use escrow_core::{Reply, Terms};
use hashkey_path::Hashkey;
use ledger_core::{Call, Entry, Sender, What};
use swap_base::{NoMemory, PartyId, Piece, put};

#[tactic(auto, unfolding(crate::specs::Texts::numbers_text))]
fn put_numbers(out: &mut Vec<u8>, terms: &Terms) -> Result<(), NoMemory>
    ensures { OnOk result (out.new.items ≡ out.old.items ++ numbers_text terms.now) }
{
    put(
        out,
        &[
            Piece::Text("publish "),
            Piece::Number(terms.start as u64),
            Piece::Text(" "),
            Piece::Number(terms.delta as u64),
            Piece::Text(" "),
            Piece::Number(terms.bound as u64),
            Piece::Text(" "),
            Piece::Number(terms.timelock as u64),
            Piece::Text(" "),
            Piece::Number(terms.amount),
        ],
    )
}

/// Appends what a publish states.
fn put_terms(out: &mut Vec<u8>, terms: &Terms) -> Result<(), NoMemory>
    ensures { OnOk result (out.new.items ≡ out.old.items ++ spaced (codes "publish" ∷ terms_words terms.now)) }
{
    put_numbers(out, terms)?;
    put_locks(out, &terms.locks)
}

/// Appends the fields of a hashkey. After want of memory a part of them stands there.
pub(crate) fn put_hashkey(out: &mut Vec<u8>, key: &Hashkey) -> Result<(), NoMemory>
    ensures { OnOk result (out.new.items ≡ out.old.items ++ spaced (key_words key.now)) }
{
    put(out, &[Piece::Number(key.lock as u64), Piece::Text(" ")])?;
    put_digits(out, key.secret.as_slice())?;
    put(out, &[Piece::Text(" ")])?;
    put_path(out, key.path.as_slice())?;
    put(out, &[Piece::Text(" ")])?;
    put_signatures(out, key.sigs.as_slice())
}

/// Appends what an unlock presents.
fn put_key(out: &mut Vec<u8>, key: &Hashkey) -> Result<(), NoMemory>
    ensures { OnOk result (out.new.items ≡ out.old.items ++ spaced (codes "unlock" ∷ key_words key.now)) }
{
    put(out, &[Piece::Text("unlock ")])?;
    put_hashkey(out, key)
}

/// Appends the fields of a call. After want of memory a part of them stands there.
pub(crate) fn put_call(out: &mut Vec<u8>, call: &Call) -> Result<(), NoMemory>
    ensures { OnOk result (out.new.items ≡ out.old.items ++ spaced (call_words call.now)) }
{
    match call {
        Call::Publish(terms) => put_terms(out, terms),
        Call::Unlock(key) => put_key(out, key),
        Call::Claim => put(out, &[Piece::Text("claim")]),
        Call::Refund => put(out, &[Piece::Text("refund")]),
        Call::Transfer(to, units) => put(
            out,
            &[
                Piece::Text("transfer "),
                Piece::Number(*to as u64),
                Piece::Text(" "),
                Piece::Number(*units),
            ],
        ),
    }
}

fn put_made(out: &mut Vec<u8>, sender: PartyId, call: &Call, reply: Reply) -> Result<(), NoMemory>
    ensures { OnOk result (out.new.items ≡ out.old.items
        ++ (spaced (codes "c" ∷ decimal sender ∷ (call_words call.now ++ codes "=" ∷ reply_words reply)) ++ 10 ∷ [])) }
{
    put(
        out,
        &[
            Piece::Text("c "),
            Piece::Number(sender as u64),
            Piece::Text(" "),
        ],
    )?;
    put_call(out, call)?;
    put(out, &[Piece::Text(" = ")])?;
    put_reply(out, reply)?;
    put(out, &[Piece::Text("\n")])
}

/// Appends the line of a tick.
pub(crate) fn put_tick(out: &mut Vec<u8>, by: u32) -> Result<(), NoMemory>
    ensures { OnOk result (out.new.items ≡ out.old.items ++ (spaced (codes "t" ∷ decimal by ∷ []) ++ 10 ∷ [])) }
{
    put(
        out,
        &[
            Piece::Text("t "),
            Piece::Number(by as u64),
            Piece::Text("\n"),
        ],
    )
}

/// Appends the line of an entry.
pub(crate) fn put_entry(out: &mut Vec<u8>, entry: &Entry) -> Result<(), NoMemory>
    ensures { OnOk result (out.new.items ≡ out.old.items ++ entry_text 0 entry.now) }
{
    match (entry.sender, &entry.what) {
        (Sender::Party(sender), What::Call(call)) => put_made(out, sender, call, entry.reply),
        (Sender::Clock, What::Tick(by)) => put_tick(out, *by),
        _ => put(out, &[Piece::Text("\n")]),
    }
}
