//! What stands in a history.

use crate::entry_list::EntryList;
use escrow_core::{Reply, Terms};
use hashkey_path::Hashkey;
use swap_base::{Listed, NoMemory, PartyId, Shared, TryCopy};

/// What a party asks of a ledger. Terms and hashkeys are shared, so that a copy of a call copies
/// neither.
#[derive(Debug, Drop)]
pub enum Call {
    Publish(Shared<Terms>),
    Unlock(Shared<Hashkey>),
    Claim,
    Refund,
    /// To whom, and how many units.
    Transfer(PartyId, u64),
}

impl TryCopy for Call {
    fn copy(&self) -> Result<Call, NoMemory> {
        match self {
            Call::Publish(terms) => Ok(Call::Publish(terms.copy()?)),
            Call::Unlock(key) => Ok(Call::Unlock(key.copy()?)),
            Call::Claim => Ok(Call::Claim),
            Call::Refund => Ok(Call::Refund),
            Call::Transfer(to, units) => Ok(Call::Transfer(*to, *units)),
        }
    }
}

/// Who made an entry.
#[derive(Clone, Copy, Debug, PartialEq, Eq)]
pub enum Sender {
    Party(PartyId),
    Clock,
}

/// What an entry is: a call, or a tick by a number of heights.
#[derive(Debug, Drop)]
pub enum What {
    Call(Call),
    Tick(u32),
}

impl TryCopy for What {
    fn copy(&self) -> Result<What, NoMemory> {
        match self {
            What::Call(call) => Ok(What::Call(call.copy()?)),
            What::Tick(by) => Ok(What::Tick(*by)),
        }
    }
}

/// An entry of a history. A tick carries the height after it, and a call the height at which it
/// ran.
#[derive(Debug, Drop)]
pub struct Entry {
    pub sender: Sender,
    pub height: u32,
    pub what: What,
    pub reply: Reply,
}

impl TryCopy for Entry {
    fn copy(&self) -> Result<Entry, NoMemory> {
        Ok(Entry {
            sender: self.sender,
            height: self.height,
            what: self.what.copy()?,
            reply: self.reply,
        })
    }
}

/// The histories of a swap, one per arc in arc order.
#[derive(Debug, Drop)]
pub struct Book {
    pub histories: Listed<EntryList>,
}
