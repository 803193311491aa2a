//! The publishes that are useful.

ghost use Rattle.std.specs.Prelude.{◌≡◌, ◌<◌, ◌&&◌, ◌++◌, length, true, OnOk};
ghost use Rattle.escrow_core.specs.Terms.{stated_terms};
ghost use Rattle.ledger_core.specs.declared.entry.Call.TheVariants.{Publish};
ghost use Rattle.swap_rules.specs.Due.{is_due_publish, when_due};
ghost use Rattle.swap_rules.specs.Useful.{opens_in_time, useful_publishes};
ghost use Rattle.useful_calls.specs.Actions.{actions};
ghost use Rattle.useful_calls.specs.Asker.{asker_at, known_entries, IsDealAsker};

use crate::asker::Asker;
use crate::due_call::{DueCall, put_when};
use crate::landing::landing_height;
use due_calls::{has_published, may_publish};
use escrow_core::stated_terms;
use ledger_core::Call;
use std::alloc::Global;
use swap_base::{ArcId, NoMemory, Shared};
use time_bounds::opening_deadline;

/// Whether the publish on the arc is due.
#[tactic(auto, unfolding(swap_rules::specs::Due::is_due_publish))]
fn is_due_publish(asker: &Asker<'_>, arc: ArcId) -> bool
    requires asker { IsDealAsker asker.now }
    ensures { result ≡ is_due_publish asker.now.deal.now asker.now.me (known_entries asker.now) arc }
{
    may_publish(asker.deal, asker.me, asker.known) && !has_published(asker.me, asker.known, arc)
}

/// Whether a publish on the arc lands by the height by which contracts open.
fn opens_in_time(asker: &Asker<'_>, arc: ArcId) -> bool
    requires asker { IsDealAsker asker.now }
    ensures { result ≡ opens_in_time asker.now.deal.now (asker_at asker.now) arc }
{
    let deal = asker.deal;
    let lands = landing_height(asker.known, asker.told, arc);
    lands <= opening_deadline(deal.start, deal.delta, deal.bound)
}

/// Whether the publish on the arc is due and lands in time.
fn is_useful_publish(asker: &Asker<'_>, arc: ArcId) -> bool
    requires asker { IsDealAsker asker.now }
    ensures { result ≡ (is_due_publish asker.now.deal.now asker.now.me (known_entries asker.now) arc && opens_in_time asker.now.deal.now (asker_at asker.now) arc) }
{
    is_due_publish(asker, arc) && opens_in_time(asker, arc)
}

/// Adds the publish on the arc, where it is useful.
fn put_publish(
    alloc: Global,
    asker: &Asker<'_>,
    arc: ArcId,
    calls: &mut Vec<DueCall>,
) -> Result<(), NoMemory>
    requires asker { IsDealAsker asker.now }
    requires arc { arc < length asker.now.deal.now.graph.arcs }
    ensures { OnOk result (actions calls.new.items ≡ actions calls.old.items
        ++ when_due (is_due_publish asker.now.deal.now asker.now.me (known_entries asker.now) arc && opens_in_time asker.now.deal.now (asker_at asker.now) arc) arc
        (Publish (stated_terms asker.now.deal.now arc))) }
{
    if is_useful_publish(asker, arc) {
        let terms = Shared::new(alloc, stated_terms(asker.deal, arc))?;
        put_when(calls, true, arc, Call::Publish(terms))?;
    }
    Ok(())
}

/// Adds the publishes that are useful, by leaving arc.
pub(crate) fn put_publishes(
    alloc: Global,
    asker: &Asker<'_>,
    calls: &mut Vec<DueCall>,
) -> Result<(), NoMemory>
    requires asker { IsDealAsker asker.now }
    ensures { OnOk result (actions calls.new.items ≡ actions calls.old.items ++ useful_publishes asker.now.deal.now asker.now.me (asker_at asker.now) (known_entries asker.now)) }
{
    'arcs: for arc in asker.deal.graph.leaving(asker.me) {
        put_publish(alloc, asker, *arc, calls)?;
    }
    Ok(())
}
