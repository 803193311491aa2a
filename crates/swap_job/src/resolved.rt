//! The call that a move stands for.

ghost use Rattle.std.specs.Prelude.{◌≡◌, ◌<◌, IsTrue, IfOk, length, option_map, option_copied, is_some, not};
ghost use Rattle.std.specs.Option.{ForSome};
ghost use Rattle.swap_digraph.specs.Deal.{IsWellSized};
ghost use Rattle.ledger_core.specs.History.{fit};
ghost use Rattle.ledger_core.specs.Book.{IsLegalBook};
ghost use Rattle.swap_job.specs.Fitting.{IsFitting};
ghost use Rattle.swap_job.specs.MoveKeys.{IsUsable, move_publish_terms};
ghost use Rattle.swap_job.specs.Resolved.{move_arc, opening_named, key_opened, build_call, plain_call, resolved, is_idle};

use crate::crafted::{craft, extend_craft};
use crate::moves::{Move, arc_of_move};
use crate::openings::opened_key;
use escrow_core::{Terms, stated_terms};
use hashkey_path::Hashkey;
use ledger_core::{Book, Call};
use std::alloc::Global;
use swap_base::{ArcId, Digest, LockId, NoMemory, Shared, TryCopy};
use swap_digraph::Deal;

fn move_publish_terms(deal: &Deal, mv: &Move) -> Option<Terms>
    requires sized { IsWellSized deal.now }
    requires arc { move_arc mv.now < length deal.now.graph.arcs }
    ensures { result ≡ move_publish_terms deal.now mv.now }
{
    match mv {
        Move::Publish {
            arc,
            start,
            delta,
            bound,
            timelock,
            amount,
            locks,
        } => {
            let correct = stated_terms(deal, *arc);
            Some(Terms {
                locks: locks.unwrap_or(correct.locks),
                start: start.unwrap_or(correct.start),
                delta: delta.unwrap_or(correct.delta),
                bound: bound.unwrap_or(correct.bound),
                timelock: timelock.unwrap_or(correct.timelock),
                amount: amount.unwrap_or(correct.amount),
            })
        }
        _ => None,
    }
}

/// The call of a move that stands for one by itself.
fn plain_call(alloc: Global, deal: &Deal, mv: &Move) -> Result<Option<Call>, NoMemory>
    requires sized { IsWellSized deal.now }
    requires arc { move_arc mv.now < length deal.now.graph.arcs }
    ensures { IfOk result (λ c. c ≡ plain_call deal.now mv.now) }
{
    match mv {
        Move::Publish { .. } => match move_publish_terms(deal, mv) {
            Some(terms) => Ok(Some(Call::Publish(Shared::new(alloc, terms)?))),
            None => Ok(None),
        },
        Move::Raw { key, .. } => Ok(Some(Call::Unlock(Shared::new(alloc, key.copy()?)?))),
        Move::Claim { .. } => Ok(Some(Call::Claim)),
        Move::Refund { .. } => Ok(Some(Call::Refund)),
        Move::Transfer { to, units, .. } => Ok(Some(Call::Transfer(*to, *units))),
        _ => Ok(None),
    }
}

/// An unlock with the hashkey, where there is one.
fn make_unlock(alloc: Global, key: Option<Hashkey>) -> Result<Option<Call>, NoMemory>
    ensures { IfOk result (λ c. c ≡ option_map Call.Unlock key) }
{
    match key {
        Some(key) => Ok(Some(Call::Unlock(Shared::new(alloc, key)?))),
        None => Ok(None),
    }
}

fn copy_optional_key(key: Option<&Hashkey>) -> Result<Option<Hashkey>, NoMemory>
    ensures { IfOk result (λ o. o ≡ option_copied key.entry) }
{
    match key {
        Some(key) => Ok(Some(key.copy()?)),
        None => Ok(None),
    }
}

/// The arc and the lock whose opening a move names: that of `onto`.
pub fn opening_named(mv: &Move) -> Option<(ArcId, LockId)>
    ensures { result ≡ opening_named mv.now }
{
    match mv {
        Move::Craft { lock, onto, .. } => match onto {
            Some(onto) => Some((*onto, *lock)),
            None => None,
        },
        Move::Replay { lock, onto, .. } => Some((*onto, *lock)),
        _ => None,
    }
}

/// The hashkey of the opening that a move names, where it is known.
fn known_key_named<'k>(known: &'k Book, mv: &Move) -> Option<&'k Hashkey>
    requires { ForSome (opening_named mv.now) (λ x. x.0 < length known.now.histories) }
    ensures { option_copied result ≡ key_opened known.now.histories (opening_named mv.now) }
{
    match opening_named(mv) {
        Some((onto, lock)) => opened_key(&known.histories.as_slice()[onto as usize], lock),
        None => None,
    }
}

/// The call of a move, where `key` is the hashkey of the opening that it names.
fn build_call(
    alloc: Global,
    deal: &Deal,
    seeds: &[Option<Digest>],
    mv: &Move,
    key: Option<&Hashkey>,
) -> Result<Option<Call>, NoMemory>
    requires sized { IsWellSized deal.now }
    requires fits { IsFitting deal.now seeds.now mv.now }
    requires key { ForSome (option_copied key) (IsUsable deal.now) }
    ensures { IfOk result (λ c. c ≡ build_call deal.now seeds.now (option_copied key.entry) mv.now) }
{
    match mv {
        Move::Craft {
            lock,
            via,
            onto,
            ..
        } => match onto {
            Some(_) => {
                let made = extend_craft(
                    alloc,
                    deal,
                    seeds,
                    *lock,
                    copy_optional_key(key)?,
                    via.as_slice(),
                )?;
                make_unlock(alloc, made)
            }
            None => make_unlock(
                alloc,
                craft(alloc, deal, seeds, *lock, None, via.as_slice())?,
            ),
        },
        Move::Replay { .. } => make_unlock(alloc, copy_optional_key(key)?),
        _ => plain_call(alloc, deal, mv),
    }
}

/// The call of a move with its arc, where `key` is the hashkey of the opening that it names.
/// Nothing comes for a wait, where the opening isn't there, or where a crafted path would be too
/// long.
pub fn resolve_keyed_move(
    alloc: Global,
    deal: &Deal,
    seeds: &[Option<Digest>],
    mv: &Move,
    key: Option<&Hashkey>,
) -> Result<Option<(ArcId, Call)>, NoMemory>
    requires sized { IsWellSized deal.now }
    requires fits { IsFitting deal.now seeds.now mv.now }
    requires key { ForSome (option_copied key) (IsUsable deal.now) }
    ensures exact { IfOk result (λ o. o ≡ option_map (λ c. (move_arc mv.now, c)) (build_call deal.now seeds.now (option_copied key.entry) mv.now)) }
    ensures fits { IfOk result (λ o. ForSome o (λ x. IsTrue (fit deal.now x.0 x.1))) }
{
    match build_call(alloc, deal, seeds, mv, key)? {
        Some(call) => Ok(Some((arc_of_move(mv), call))),
        None => Ok(None),
    }
}

/// The call of a move with its arc, over what is known. There is none for a wait, for a move that
/// names an unknown opening, and for a crafted path that would be too long.
pub fn resolve(
    alloc: Global,
    deal: &Deal,
    seeds: &[Option<Digest>],
    mv: &Move,
    known: &Book,
) -> Result<Option<(ArcId, Call)>, NoMemory>
    requires sized { IsWellSized deal.now }
    requires fits { IsFitting deal.now seeds.now mv.now }
    requires known { IsLegalBook deal.now known.now.histories }
    ensures exact { IfOk result (λ o. o ≡ resolved deal.now seeds.now known.now.histories mv.now) }
    ensures none { IfOk result (λ o. is_some o ≡ not (is_idle deal.now known.now.histories mv.now)) }
    ensures fits { IfOk result (λ o. ForSome o (λ x. IsTrue (fit deal.now x.0 x.1))) }
{
    resolve_keyed_move(alloc, deal, seeds, mv, known_key_named(known, mv))
}
