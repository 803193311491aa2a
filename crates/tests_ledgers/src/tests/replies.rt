//! The table of replies, and the units after each call, on single ledgers.

use crate::tests::ledgers::{first_ledger, follow};
use ledger_core::Ledger;
use std::alloc::Global;
use std::process::Abort;
use std::test::Fail;

/// Ledgers of their own, parted by empty lines, each with its height and the number of its entries
/// at the end. To trace is to unlock with a path.
const LEDGERS: &str = "\
a refund => NoContract 100 0 0
b publish 100 => NotParty 100 0 0
a publish 101 => NoFunds(100) 100 0 0
a publish 100 => Accepted 0 0 100
b refund => NotParty 0 0 100
b claim => StillLocked(0) 0 0 100
tick 50 => Accepted 0 0 100
a refund => NotExpired(51) 0 0 100
tick 1 => Accepted 0 0 100
a refund => Accepted 100 0 0
a refund => Settled 100 0 0
a publish 100 => AlreadyPublished 100 0 0
end at 51 with 12

a publish 99 => Accepted 1 0 99
tick 50 => Accepted 1 0 99
a unlock 0 0 => NotCounterparty 1 0 99
b unlock 0 1 => WrongSecret 1 0 99
b trace 0 1 => WrongSecret 1 0 99
b trace 0 0 => WrongPath 1 0 99
b unlock 0 0 => Accepted 1 0 99
b unlock 0 0 => AlreadyUnlocked 1 0 99
b claim => StillLocked(1) 1 0 99
b unlock 1 1 => Accepted 1 0 99
tick 1 => Accepted 1 0 99
a refund => NothingLocked 1 0 99
a claim => NotCounterparty 1 0 99
b claim => Accepted 1 99 0
b claim => Settled 1 99 0
b unlock 1 1 => Settled 1 99 0
a pay b 2 => NoFunds(1) 1 99 0
b pay a 9 => Accepted 10 90 0
b pay b 90 => Accepted 10 90 0
end at 51 with 19

a pay b 1 => Accepted 99 1 0
a publish 100 => NoFunds(99) 99 1 0
a publish 99 => Accepted 0 1 99
b unlock 1 1 => Accepted 0 1 99
tick 51 => Accepted 0 1 99
b unlock 0 0 => TooLate(50) 0 1 99
b claim => StillLocked(0) 0 1 99
a refund => Accepted 99 1 0
b unlock 0 0 => Settled 99 1 0
end at 51 with 9

32 times b claim => NoContract 100 0 0
20000 times tick 1 => Accepted 100 0 0
b claim => SenderFull 100 0 0
tick 1 => ClockFull 100 0 0
a publish 100 => Accepted 0 0 100
end at 20000 with 20033

tick 999999 => Accepted 100 0 0
tick 2 => ClockFull 100 0 0
tick 1 => Accepted 100 0 0
tick 1 => ClockFull 100 0 0
end at 1000000 with 2";

/// Whether the text is the height of a ledger, and the number of its entries.
fn is_end(alloc: Global, ledger: &Ledger, end: &str) -> Result<bool, Fail> {
    let (height, len) = (ledger.height(), ledger.len());
    let text = format!(in alloc; "{height} with {len}")?;
    Ok(text.as_str() == end)
}

fn ends(rt: &impl Abort, alloc: Global, ledger: &mut Ledger, table: &str) -> Result<(), Fail> {
    let (rows, end) = table.rsplit_once("\nend at ").ok_or("no end")?;
    follow(rt, alloc, ledger, rows)?;
    let ends = is_end(alloc, ledger, end)?;
    assert!(rt; ends, "{table}");
    Ok(())
}

fn ends_anew(rt: &impl Abort, alloc: Global, table: &str) -> Result<(), Fail> {
    let mut ledger = first_ledger(alloc)?;
    ends(rt, alloc, &mut ledger, table)
}

fn end_as_told(rt: &impl Abort, alloc: Global, tables: &str) -> Result<(), Fail> {
    for table in tables.split("\n\n") {
        ends_anew(rt, alloc, table)?;
    }
    Ok(())
}

#[test]
fn replies_with_their_units(rt: HostRuntime) -> Result<(), Fail> {
    end_as_told(&rt, rt.alloc(), LEDGERS)
}
