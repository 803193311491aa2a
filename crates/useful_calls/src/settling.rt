//! The claims and the refunds that are due.

ghost use Rattle.std.specs.Prelude.{◌≡◌, ◌++◌, OnOk};
ghost use Rattle.swap_rules.specs.Due.{due_claims, due_refunds};
ghost use Rattle.useful_calls.specs.Actions.{actions};
ghost use Rattle.useful_calls.specs.Asker.{known_entries, IsDealAsker};

use crate::asker::Asker;
use crate::due_call::{DueCall, put_when};
use due_calls::{is_due_claim, is_due_refund};
use ledger_core::Call;
use swap_base::NoMemory;

/// Adds the claims that are due, by entering arc.
pub(crate) fn put_claims(asker: &Asker<'_>, calls: &mut Vec<DueCall>) -> Result<(), NoMemory>
    requires asker { IsDealAsker asker.now }
    ensures { OnOk result (actions calls.new.items ≡ actions calls.old.items ++ due_claims asker.now.deal.now asker.now.me (known_entries asker.now)) }
{
    'arcs: for arc in asker.deal.graph.entering(asker.me) {
        let test = is_due_claim(asker.deal, asker.me, asker.known, *arc);
        put_when(calls, test, *arc, Call::Claim)?;
    }
    Ok(())
}

/// Adds the refunds that are due, by leaving arc.
pub(crate) fn put_refunds(asker: &Asker<'_>, calls: &mut Vec<DueCall>) -> Result<(), NoMemory>
    requires asker { IsDealAsker asker.now }
    ensures { OnOk result (actions calls.new.items ≡ actions calls.old.items ++ due_refunds asker.now.deal.now asker.now.me (known_entries asker.now)) }
{
    'arcs: for arc in asker.deal.graph.leaving(asker.me) {
        let test = is_due_refund(asker.deal, asker.me, asker.known, *arc);
        put_when(calls, test, *arc, Call::Refund)?;
    }
    Ok(())
}
