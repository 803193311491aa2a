//! A call that is due.

ghost use Rattle.std.specs.Prelude.{◌≡◌, ◌++◌, IfOk, OnOk, filter, not};
ghost use Rattle.swap_digraph.specs.Graph.{is_listed as is_listed_arc};
ghost use Rattle.swap_rules.specs.Due.{when_due};
ghost use Rattle.wallet_promise.specs.Answers.{was_sent};
ghost use Rattle.useful_calls.specs.Actions.{actions, due_call_action};

use ledger_core::Call;
use std::alloc::Global;
use swap_base::{ArcId, NoMemory};
use swap_digraph::is_listed;

/// A call that is due on an arc.
#[derive(Debug, Drop)]
pub struct DueCall {
    pub arc: ArcId,
    pub call: Call,
}

/// Adds the call on the arc, where the test holds.
pub(crate) fn put_when(
    calls: &mut Vec<DueCall>,
    test: bool,
    arc: ArcId,
    call: Call,
) -> Result<(), NoMemory>
    ensures { OnOk result (actions calls.new.items ≡ actions calls.old.items ++ when_due test arc call) }
{
    if test {
        calls.push(DueCall { arc, call })?;
    }
    Ok(())
}

/// Whether the call is a publish, and one was sent on its arc.
fn was_sent(sent: &[ArcId], due: &DueCall) -> bool
    ensures { result ≡ was_sent (λ a. is_listed_arc a sent.now) (due_call_action due.now) }
{
    match due.call {
        Call::Publish(_) => is_listed(due.arc, sent),
        _ => false,
    }
}

/// The calls without publishes that were sent.
pub fn without_sent(
    alloc: Global,
    sent: &[ArcId],
    calls: Vec<DueCall>,
) -> Result<Vec<DueCall>, NoMemory>
    ensures { IfOk result (λ v. actions v.items ≡ filter (λ x. not (was_sent (λ a. is_listed_arc a sent.now) x)) (actions calls.items)) }
{
    let mut left = Vec::new(alloc);
    'calls: for due in calls {
        if !was_sent(sent, &due) {
            left.push(due)?;
        }
    }
    Ok(left)
}
