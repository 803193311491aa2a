//! Ledgers that follow the rows of a table.

ghost use Rattle.std.specs.Prelude.{◌<◌, length};
ghost use Rattle.swap_digraph.specs.Deal.{IsWellSized};

use escrow_core::{Reply, stated_terms};
use hashkey_path::Hashkey;
use ledger_core::{Accounts, Call, Ledger, fits, history_accounts, is_adjacent, share_deal};
use std::alloc::Global;
use std::process::Abort;
use std::test::Fail;
use swap_base::{Listed, NoMemory, PartyId, Shared};
use swap_digraph::Deal;
use tests_parts::small_deal;

/// A publish of the deal's terms but for the amount.
fn publish(alloc: Global, ledger: &Ledger, amount: u64) -> Result<Call, NoMemory> {
    let mut terms = stated_terms(ledger.deal(), ledger.arc());
    terms.amount = amount;
    Ok(Call::Publish(Shared::new(alloc, terms)?))
}

/// An unlock by a secret of 32 equal bytes, with a path.
fn unlock(alloc: Global, lock: u8, byte: u8, path: &[PartyId]) -> Result<Call, NoMemory> {
    let key = Hashkey {
        lock,
        secret: [byte; 32],
        path: Listed::new(Vec::from_slice(alloc, path)?),
        sigs: Listed::empty(alloc),
    };
    Ok(Call::Unlock(Shared::new(alloc, key)?))
}

/// The unlock of a lock and the byte of its secret.
fn parse_unlock(alloc: Global, words: &str, path: &[PartyId]) -> Result<Call, Fail> {
    let (lock, byte) = two(words)?;
    Ok(unlock(alloc, lock.parse()?, byte.parse()?, path)?)
}

/// The number of a party.
fn parse_party(word: &str) -> Result<PartyId, Fail> {
    match word {
        "a" => Ok(0),
        "b" => Ok(1),
        _ => Err("no party".into()),
    }
}

/// Two words.
fn two(words: &str) -> Result<(&str, &str), Fail> {
    Ok(words.split_once(" ").ok_or("no two words")?)
}

/// The transfer of a number of units to a party.
fn parse_transfer(words: &str) -> Result<Call, Fail> {
    let (to, units) = two(words)?;
    Ok(Call::Transfer(parse_party(to)?, units.parse()?))
}

/// The publish of a number of units.
fn make_publish(alloc: Global, ledger: &Ledger, words: &str) -> Result<Call, Fail> {
    Ok(publish(alloc, ledger, words.parse()?)?)
}

/// The call of a kind that says more.
fn build_call(alloc: Global, ledger: &Ledger, kind: &str, rest: &str) -> Result<Call, Fail> {
    match kind {
        "publish" => make_publish(alloc, ledger, rest),
        "unlock" => parse_unlock(alloc, rest, &[]),
        "trace" => parse_unlock(alloc, rest, &[1]),
        "pay" => parse_transfer(rest),
        _ => Err("no call".into()),
    }
}

/// The call that words stand for.
fn parse_call(alloc: Global, ledger: &Ledger, words: &str) -> Result<Call, Fail> {
    match words {
        "claim" => Ok(Call::Claim),
        "refund" => Ok(Call::Refund),
        _ => {
            let (kind, rest) = two(words)?;
            build_call(alloc, ledger, kind, rest)
        }
    }
}

/// The reply to a call, which has room.
fn make(rt: &impl Abort, ledger: &mut Ledger, by: PartyId, call: Call) -> Reply
    requires { 0 < ledger.old.spare }
{
    let arc = ledger.arc();
    assert!(rt; is_adjacent(ledger.deal(), arc, by));
    assert!(rt; fits(ledger.deal(), arc, &call));
    ledger.apply(by, call, 0)
}

fn tick(rt: &impl Abort, ledger: &mut Ledger, k: u32) -> Result<Reply, Fail> {
    assert!(rt; 1 <= k && k <= 1_000_000);
    ledger.reserve()?;
    Ok(ledger.tick(k))
}

/// The reply to an act: `tick` and by how many heights, or a party and its call.
fn act(rt: &impl Abort, alloc: Global, ledger: &mut Ledger, words: &str) -> Result<Reply, Fail> {
    let (first, rest) = two(words)?;
    if first == "tick" {
        return tick(rt, ledger, rest.parse()?);
    }
    let party = parse_party(first)?;
    ledger.reserve()?;
    let call = parse_call(alloc, ledger, rest)?;
    Ok(make(rt, ledger, party, call))
}

/// The units of the arc's party, those of its counterparty, and those held.
fn accounts(rt: &impl Abort, ledger: &Ledger) -> Accounts {
    assert!(rt; is_adjacent(ledger.deal(), ledger.arc(), 0));
    assert!(rt; is_adjacent(ledger.deal(), ledger.arc(), 1));
    Accounts {
        party: ledger.balance(0),
        counterparty: ledger.balance(1),
        held: ledger.held(),
    }
}

/// The units of the arc's party, those of its counterparty, and those held, by the entries.
fn accounts_read(ledger: &Ledger) -> Result<Accounts, NoMemory> {
    let _ = ledger.history();
    let list = ledger.copy_tail(0)?;
    Ok(history_accounts(ledger.deal(), ledger.arc(), &list))
}

/// Whether the text is a reply, and the units after it.
fn is_told(
    rt: &impl Abort,
    alloc: Global,
    ledger: &Ledger,
    reply: Reply,
    wanted: &str,
) -> Result<bool, Fail> {
    let Accounts {
        party,
        counterparty,
        held,
    } = accounts(rt, ledger);
    let text = format!(in alloc; "{reply:?} {party} {counterparty} {held}")?;
    Ok(text.as_str() == wanted)
}

/// How often something is asked, and what.
fn counted(words: &str) -> Result<(u32, &str), Fail> {
    match words.split_once(" times ") {
        Some((count, words)) => Ok((count.parse()?, words)),
        None => Ok((1, words)),
    }
}

fn follow_row(rt: &impl Abort, alloc: Global, ledger: &mut Ledger, row: &str) -> Result<(), Fail> {
    let (asked, wanted) = row.split_once(" => ").ok_or("no row")?;
    let (count, words) = counted(asked)?;
    for _ in 0..count {
        let reply = act(rt, alloc, ledger, words)?;
        let told = is_told(rt, alloc, ledger, reply, wanted)?;
        assert!(rt; told, "{row}");
    }
    Ok(())
}

/// The ledger of a deal's first arc, before any entry.
fn make_ledger(alloc: Global, deal: &Deal) -> Result<Ledger, Fail>
    requires sized { IsWellSized deal.now }
    requires arc { 0 < length deal.now.graph.arcs }
{
    Ok(Ledger::new(alloc, &share_deal(alloc, deal)?, 0)?)
}

/// The ledger of the small deal's first arc, before any entry.
pub(crate) fn first_ledger(alloc: Global) -> Result<Ledger, Fail> {
    let deal = small_deal(alloc)?;
    make_ledger(alloc, &deal)
}

/// Whether the accounts are those that the entries give.
fn are_read(rt: &impl Abort, ledger: &Ledger) -> Result<bool, Fail> {
    let read = accounts_read(ledger)?;
    Ok(read == accounts(rt, ledger))
}

/// Lets a ledger follow the rows. Each says what is asked, the reply, and the units of the arc's
/// party, those of its counterparty, and those held: `TIMES times ACT => REPLY UNITS UNITS UNITS`.
pub(crate) fn follow(
    rt: &impl Abort,
    alloc: Global,
    ledger: &mut Ledger,
    rows: &str,
) -> Result<(), Fail> {
    for row in rows.lines() {
        follow_row(rt, alloc, ledger, row)?;
    }
    assert!(rt; are_read(rt, ledger)?);
    Ok(())
}
