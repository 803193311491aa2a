//! How a party of a race watches the ledgers of its arcs, whatever decides for it: it looks at each
//! of them, and makes calls.

ghost use Rattle.std.specs.Prelude.{◌≡◌, ◌≢◌, ◌<◌, None, OnOk, OnErr, length};
ghost use Rattle.swap_digraph.specs.Deal.{IsWellSized};
ghost use Rattle.party_threads.specs.declared.side.Side.{Side};
ghost use Rattle.party_threads.specs.Later.{Advanced, HaveAdvanced};
ghost use Rattle.party_threads.specs.Tracks.{Watcher, KnowsArc, CanLearn, knowing_more, IsWatching, IsSameElsewhere};
ghost use Rattle.party_threads.specs.Tracks.{IsWatcherPlace, LookedIf, HaveLooked, CanWatcherCall, MadeIf, HasSubmitted};

use crate::side::Side;
use ledger_core::{Call, EntryList};
use ledger_shared::Pass;
use std::sync::Wait;
use swap_base::{ArcId, NoMemory};

/// What decides for a party, and learns what stands on the ledgers.
pub(crate) trait Learner {
    /// The party on that side, with what it knows of each ledger. A machine has a deal and a number
    /// of its own, and goes by these.
    ghost watcher: { Side → Self → Watcher };

    /// All of it but what it knows.
    ghost rest: { Self → Self };

    /// Adds entries to what it knows of an arc.
    fn learn(&mut self, arc: ArcId, entries: EntryList) -> Result<(), NoMemory>
        requires { (s : Side) × CanLearn (watcher s self.old) arc entries }
        ensures ok { OnOk result ((s : Side) → watcher s self.new ≡ knowing_more (watcher s self.old) arc entries) }
        ensures rest { rest self.new ≡ rest self.old }
        ensures err { OnErr result (self.new ≡ self.old) };
}

/// Looks at the ledger of an arc through the pass at its place, if any, and learns what is fresh.
fn look<R: Wait, L: Learner>(
    rt: &R,
    side: &Side<'_>,
    learner: &mut L,
    arc: ArcId,
    place: &mut Option<Pass>,
) -> Result<(), NoMemory>
    requires ledger { arc < length side.now.ledgers.now }
    requires arc { KnowsArc (L.watcher side.now learner.old) arc }
    requires place { IsWatcherPlace side.now.ledgers.now (L.watcher side.now learner.old) arc place.old }
    ensures later { Advanced place.old place.new }
    ensures looked { OnOk result (LookedIf (L.watcher side.now learner.old) arc place.old (L.watcher side.now learner.new) place.new) }
    ensures rest { L.rest learner.new ≡ L.rest learner.old }
    ensures err { OnErr result (learner.new ≡ learner.old) }
{
    match place {
        None => Ok(()),
        Some(pass) => {
            let ledger = &side.ledgers[arc as usize];
            let fresh = ledger.look(rt, pass)?;
            learner.learn(arc, fresh)
        }
    }
}

/// Looks at each ledger in arc order.
pub(crate) fn look_round<R: Wait, L: Learner>(
    rt: &R,
    side: &Side<'_>,
    learner: &mut L,
    passes: &mut [Option<Pass>],
) -> Result<(), NoMemory>
    requires sized { IsWellSized (L.watcher side.now learner.old).deal }
    requires watching { IsWatching side.now.ledgers.now (L.watcher side.now learner.old) passes.old }
    ensures gone_on { HaveAdvanced passes.old passes.new }
    ensures looked { OnOk result (HaveLooked side.now.ledgers.now (L.watcher side.now learner.old) passes.old (length passes.new)
        (L.watcher side.now learner.new) passes.new) }
    ensures elsewhere { IsSameElsewhere passes.old (L.watcher side.now learner.old).known (L.watcher side.now learner.new).known }
    ensures rest { L.rest learner.new ≡ L.rest learner.old }
{
    'arcs: for arc in 0..passes.len() {
        look(rt, side, learner, arc as ArcId, &mut passes[arc])?;
    }
    Ok(())
}

/// Makes a call on the ledger of its arc through the pass at its place, and learns what is fresh.
/// The last `verified` of the call's signatures were verified before, and the ledger verifies the
/// others.
fn call<R: Wait, L: Learner>(
    rt: &R,
    side: &Side<'_>,
    learner: &mut L,
    place: &mut Option<Pass>,
    due: (ArcId, Call),
    verified: usize,
) -> Result<(), NoMemory>
    requires ledger { due.0 < length side.now.ledgers.now }
    requires arc { KnowsArc (L.watcher side.now learner.old) due.0 }
    requires can { CanWatcherCall (L.watcher side.now learner.old) due.0 due.1 verified }
    requires place { IsWatcherPlace side.now.ledgers.now (L.watcher side.now learner.old) due.0 place.old }
    requires there { place.old ≢ None }
    ensures later { Advanced place.old place.new }
    ensures made { OnOk result (MadeIf (L.watcher side.now learner.old) due.0 due.1 place.old (L.watcher side.now learner.new) place.new) }
    ensures rest { L.rest learner.new ≡ L.rest learner.old }
    ensures err { OnErr result (learner.new ≡ learner.old) }
{
    let (arc, call) = due;
    match place {
        None => unreachable!(),
        Some(pass) => {
            let ledger = &side.ledgers[arc as usize];
            match ledger.call_known(rt, pass, call, verified) {
                Ok(called) => learner.learn(arc, called.fresh),
                Err(_) => Err(NoMemory),
            }
        }
    }
}

/// Makes a call on an arc that touches the party, and learns what is fresh there.
pub(crate) fn submit<R: Wait, L: Learner>(
    rt: &R,
    side: &Side<'_>,
    learner: &mut L,
    passes: &mut [Option<Pass>],
    due: (ArcId, Call),
    verified: usize,
) -> Result<(), NoMemory>
    requires watching { IsWatching side.now.ledgers.now (L.watcher side.now learner.old) passes.old }
    requires can { CanWatcherCall (L.watcher side.now learner.old) due.0 due.1 verified }
    ensures gone_on { HaveAdvanced passes.old passes.new }
    ensures submitted { OnOk result (HasSubmitted side.now.ledgers.now (L.watcher side.now learner.old) due.0 due.1 passes.old (L.watcher side.now learner.new)
        passes.new) }
    ensures elsewhere { IsSameElsewhere passes.old (L.watcher side.now learner.old).known (L.watcher side.now learner.new).known }
    ensures rest { L.rest learner.new ≡ L.rest learner.old }
{
    let place = due.0 as usize;
    call(rt, side, learner, &mut passes[place], due, verified)
}
