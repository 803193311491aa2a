//! The hashkeys that are known from accepted unlocks.

ghost use Rattle.std.specs.Prelude.{◌≡◌, ◌++◌, OnOk, IfOk};
ghost use Rattle.std.specs.List.{flat_map};
ghost use Rattle.swap_run.specs.Rules.{item_in_turn, call_keys, keys_known, item_keys};
ghost use Rattle.ledger_core.specs.History.{accepted};

use escrow_core::Reply;
use hashkey_path::Hashkey;
use ledger_core::{Book, Call, Entry, EntryList, Item, What};
use std::alloc::Global;
use swap_base::{NoMemory, Shared, TryCopy};

fn add_key(keys: &mut Vec<Shared<Hashkey>>, e: &Entry) -> Result<(), NoMemory>
    ensures { OnOk result (keys.new.items ≡ keys.old.items ++ call_keys (accepted e.now)) }
{
    match (&e.what, e.reply) {
        (What::Call(Call::Unlock(key)), Reply::Accepted) => {
            keys.push(key.copy()?)?;
            Ok(())
        }
        _ => Ok(()),
    }
}

fn add_of_item(keys: &mut Vec<Shared<Hashkey>>, item: &Item) -> Result<(), NoMemory>
    ensures { OnOk result (keys.new.items ≡ keys.old.items ++ item_keys item.now) }
{
    match item {
        Item::One(entry) => add_key(keys, entry),
        Item::Ticks(_) => Ok(()),
    }
}

fn add_keys(keys: &mut Vec<Shared<Hashkey>>, items: &[Item]) -> Result<(), NoMemory>
    ensures { OnOk result (keys.new.items ≡ keys.old.items ++ flat_map item_keys items.now) }
{
    for item in items {
        add_of_item(keys, item)?;
    }
    Ok(())
}

fn add_known(keys: &mut Vec<Shared<Hashkey>>, list: &EntryList) -> Result<(), NoMemory>
    ensures { OnOk result (keys.new.items ≡ keys.old.items ++ flat_map (λ e. call_keys (accepted e)) list.now) }
{
    let (items, _) = list.parts();
    add_keys(keys, items)
}

/// The hashkeys of the accepted unlocks that are known, by arc and entry.
pub(crate) fn keys_known(alloc: Global, known: &Book) -> Result<Vec<Shared<Hashkey>>, NoMemory>
    ensures { IfOk result (λ v. v.items ≡ keys_known known.now.histories) }
{
    let mut keys = Vec::new(alloc);
    for list in known.histories.as_slice() {
        add_known(&mut keys, list)?;
    }
    Ok(keys)
}

/// The hashkey number `turn`, counted round and round.
pub(crate) fn key_in_turn(
    keys: &[Shared<Hashkey>],
    turn: u32,
) -> Result<Option<Shared<Hashkey>>, NoMemory>
    ensures { IfOk result (λ o. o ≡ item_in_turn keys.now turn) }
{
    if keys.is_empty() {
        return Ok(None);
    }
    Ok(Some(keys[turn as usize % keys.len()].copy()?))
}
