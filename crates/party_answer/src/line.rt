//! The lines that answer.

ghost use Rattle.std.specs.Prelude.{◌≡◌, ◌++◌, List, IfOk, OnOk, None, option_copied};
ghost use Rattle.std.specs.List.{flat_map};
ghost use Rattle.party_wallet.specs.Value.{signed_hashkey};
ghost use Rattle.wallet_promise.specs.Answers.{is_asked};
ghost use Rattle.party_answer.specs.Lines.{KeepFirst, Present, call_lines};
ghost use Rattle.party_answer.specs.Text.{presented_call_text, keep_text, key_text, landing_text, line_text, lines_text, until_text};
ghost use Rattle.party_answer.specs.Growing.{asking_text, unkept_key, GrowsByLine};

use crate::timed::Timed;
use conduct_check::is_first_key;
use hashkey_path::Hashkey;
use ledger_core::Call;
use party_wallet::Signed;
use run_texts::{put_call, put_digits, put_path, put_signatures};
use swap_base::{LockId, NoMemory, PartyId, Piece, put};
use useful_calls::kept_key;

/// The lines that answer: those of hashkeys stand before those of calls.
#[derive(Clone, Copy)]
pub(crate) enum Part {
    Keeps,
    Calls,
}

/// Appends the last height at which a call helps, if there is one.
fn put_last_height(out: &mut Vec<u8>, until: Option<u64>) -> Result<(), NoMemory>
    ensures { OnOk result (out.new.items ≡ out.old.items ++ until_text until) }
{
    match until {
        Some(last) => put(out, &[Piece::Text(" until "), Piece::Number(last)]),
        None => Ok(()),
    }
}

/// Appends the line of a call that may be presented.
#[tactic(auto, unfolding(crate::specs::Text::presented_call_text))]
fn put_present(out: &mut Vec<u8>, me: PartyId, timed: &Timed) -> Result<(), NoMemory>
    ensures { OnOk result (out.new.items ≡ out.old.items ++ presented_call_text me timed.now) }
{
    put(
        out,
        &[
            Piece::Text("call "),
            Piece::Number(timed.arc as u64),
            Piece::Text(" "),
            Piece::Number(me as u64),
            Piece::Text(" by "),
            Piece::Number(timed.last),
        ],
    )?;
    put_last_height(out, timed.until)?;
    put(out, &[Piece::Text(" ")])?;
    put_call(out, &timed.call)?;
    put(out, &[Piece::Text("\n")])
}

/// Appends the fields of a hashkey but for its lock.
fn put_key(out: &mut Vec<u8>, key: &Hashkey) -> Result<(), NoMemory>
    ensures { OnOk result (out.new.items ≡ out.old.items ++ key_text key.now) }
{
    put_digits(out, key.secret.as_slice())?;
    put(out, &[Piece::Text(" ")])?;
    put_path(out, key.path.as_slice())?;
    put(out, &[Piece::Text(" ")])?;
    put_signatures(out, key.sigs.as_slice())
}

/// Appends the line of a hashkey that has to be kept before the unlock with it.
#[tactic(auto, unfolding(crate::specs::Text::keep_text))]
fn put_keep(out: &mut Vec<u8>, timed: &Timed, key: &Hashkey) -> Result<(), NoMemory>
    ensures { OnOk result (out.new.items ≡ out.old.items ++ keep_text timed.now key.now) }
{
    put(
        out,
        &[
            Piece::Text("keep "),
            Piece::Number(key.lock as u64),
            Piece::Text(" by "),
            Piece::Number(timed.last),
        ],
    )?;
    put_last_height(out, timed.until)?;
    put(out, &[Piece::Text(" ")])?;
    put_key(out, key)?;
    put(out, &[Piece::Text("\n")])
}

/// The hashkey of a call, where it isn't the one that was kept for its lock.
fn unkept_key<'a>(kept: &Signed, call: &'a Call) -> Option<&'a Hashkey>
    ensures { option_copied result ≡ unkept_key (signed_hashkey kept.now.keys) call.now }
{
    match call {
        Call::Unlock(key) => {
            if is_first_key(kept_key(kept, key.lock), key) {
                None
            } else {
                Some(key)
            }
        }
        _ => None,
    }
}

/// Whether the hashkey that was asked for last is for the lock.
fn is_asked(asked: Option<LockId>, lock: LockId) -> bool
    ensures { result ≡ is_asked asked lock }
{
    match asked {
        Some(last) => last == lock,
        None => false,
    }
}

/// Appends the line of a hashkey among those of hashkeys.
fn put_keep_in(
    out: &mut Vec<u8>,
    part: Part,
    me: PartyId,
    timed: &Timed,
    key: &Hashkey,
) -> Result<(), NoMemory>
    ensures { OnOk result (out.new.items ≡ out.old.items ++ line_text part me (KeepFirst timed.now key.now)) }
{
    match part {
        Part::Keeps => put_keep(out, timed, key),
        Part::Calls => Ok(()),
    }
}

/// Appends the line of a call among those of calls.
fn put_present_in(out: &mut Vec<u8>, part: Part, me: PartyId, timed: &Timed) -> Result<(), NoMemory>
    ensures { OnOk result (out.new.items ≡ out.old.items ++ line_text part me (Present timed.now)) }
{
    match part {
        Part::Keeps => Ok(()),
        Part::Calls => put_present(out, me, timed),
    }
}

/// Appends the line of a hashkey that has to be kept, unless one for its lock was asked for last.
fn put_once(
    out: &mut Vec<u8>,
    part: Part,
    me: PartyId,
    asked: Option<LockId>,
    timed: &Timed,
    key: &Hashkey,
) -> Result<(), NoMemory>
    ensures { OnOk result (out.new.items ≡ out.old.items ++ asking_text part me asked timed.now key.now) }
{
    if is_asked(asked, key.lock) {
        return Ok(());
    }
    put_keep_in(out, part, me, timed, key)
}

/// Appends the line of a useful call. Answers the lock whose hashkey was asked for last.
fn put_line(
    out: &mut Vec<u8>,
    part: Part,
    me: PartyId,
    kept: &Signed,
    asked: Option<LockId>,
    timed: &Timed,
) -> Result<Option<LockId>, NoMemory>
    ensures { IfOk result (λ next. (ts : List Timed) → GrowsByLine part me (signed_hashkey kept.now.keys) asked next out.old.items out.new.items timed.now ts) }
{
    match unkept_key(kept, &timed.call) {
        Some(key) => {
            put_once(out, part, me, asked, timed, key)?;
            Ok(Some(key.lock))
        }
        None => {
            put_present_in(out, part, me, timed)?;
            Ok(asked)
        }
    }
}

/// Appends these of the lines of useful calls.
fn put_part(
    out: &mut Vec<u8>,
    part: Part,
    me: PartyId,
    kept: &Signed,
    calls: &[Timed],
) -> Result<(), NoMemory>
    ensures { OnOk result (out.new.items ≡ out.old.items
        ++ flat_map (line_text part me) (call_lines (signed_hashkey kept.now.keys) None calls.now)) }
{
    let mut asked = None;
    for timed in calls {
        asked = put_line(out, part, me, kept, asked, timed)?;
    }
    Ok(())
}

/// Appends the lines of useful calls: those of hashkeys, and behind them those of calls.
#[tactic(auto, using(crate::proofs::Joined::put_both))]
pub(crate) fn put_lines(
    out: &mut Vec<u8>,
    me: PartyId,
    kept: &Signed,
    calls: &[Timed],
) -> Result<(), NoMemory>
    ensures { OnOk result (out.new.items ≡ out.old.items ++ lines_text me (call_lines (signed_hashkey kept.now.keys) None calls.now)) }
{
    put_part(out, Part::Keeps, me, kept, calls)?;
    put_part(out, Part::Calls, me, kept, calls)
}

/// Appends the line of a publish that was sent and may land.
#[tactic(auto, unfolding(crate::specs::Text::landing_text))]
fn put_landing(out: &mut Vec<u8>, timed: &Timed) -> Result<(), NoMemory>
    ensures { OnOk result (out.new.items ≡ out.old.items ++ landing_text timed.now) }
{
    put(
        out,
        &[
            Piece::Text("landing "),
            Piece::Number(timed.arc as u64),
            Piece::Text(" by "),
            Piece::Number(timed.last),
        ],
    )?;
    put_last_height(out, timed.until)?;
    put(out, &[Piece::Text("\n")])
}

/// Appends the lines of publishes that may land.
pub(crate) fn put_landings(out: &mut Vec<u8>, calls: &[Timed]) -> Result<(), NoMemory>
    ensures { OnOk result (out.new.items ≡ out.old.items ++ flat_map landing_text calls.now) }
{
    for timed in calls {
        put_landing(out, timed)?;
    }
    Ok(())
}
