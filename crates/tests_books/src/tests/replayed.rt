//! What a ledger of one thread replies to the calls and ticks of a history.

use escrow_core::Reply;
use ledger_core::{Entry, Ledger, Sender, What, fits, is_adjacent};
use std::process::Abort;
use std::test::Fail;
use swap_base::TryCopy;

fn reply_again(rt: &impl Abort, ledger: &mut Ledger, entry: &Entry) -> Result<Reply, Fail> {
    ledger.reserve()?;
    match (entry.sender, &entry.what) {
        (Sender::Party(p), What::Call(call)) => {
            let arc = ledger.arc();
            assert!(rt; is_adjacent(ledger.deal(), arc, p));
            assert!(rt; fits(ledger.deal(), arc, call));
            Ok(ledger.apply(p, call.copy()?, 0))
        }
        (Sender::Clock, What::Tick(k)) => {
            assert!(rt; 1 <= *k && *k <= 1_000_000);
            Ok(ledger.tick(*k))
        }
        _ => Err("a call of the clock, or a party's tick".into()),
    }
}

/// Each entry has the reply that a ledger of one thread gives to what it is, and its height.
pub(crate) fn replays(rt: &impl Abort, plain: &mut Ledger, entries: &[Entry]) -> Result<(), Fail> {
    for entry in entries {
        let reply = reply_again(rt, plain, entry)?;
        assert!(rt; reply == entry.reply && plain.height() == entry.height);
    }
    Ok(())
}
