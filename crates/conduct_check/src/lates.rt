//! Where a party was late, in order.

ghost use Rattle.std.specs.Prelude.{◌≡◌, ◌<◌, ◌^◌, ◌++◌, IfSome, OnOk, OnErr, length, option_copied};
ghost use Rattle.std.specs.List.{flat_map};
ghost use Rattle.swap_digraph.specs.Graph.{entering, is_listed, leaving};
ghost use Rattle.swap_digraph.specs.Deal.{locks};
ghost use Rattle.ledger_core.specs.Book.{history};
ghost use Rattle.swap_rules.specs.Party.{first_key};
ghost use Rattle.swap_rules.specs.Findings.{arc_late_findings, lates};
ghost use Rattle.conduct_check.specs.Judged.{judged_book, IsJudged};
ghost use Rattle.conduct_check.specs.Overdue.{rule_late_findings, overdue, publish_start, unlock_start, IsAsked};

use crate::counting::{Counted, is_done};
use crate::froms::{claim_start, publish_start, refund_start, unlock_start};
use crate::judged::Judged;
use crate::keys::first_key;
use due_calls::{arc_height, least_expiry};
use hashkey_path::Hashkey;
use swap_base::{ArcId, LockId, NoMemory, PartyId};
use swap_digraph::Deal;
use swap_rules::{Finding, Rule};

fn leaves(deal: &Deal, party: PartyId, arc: ArcId) -> bool
    requires arc { arc < length deal.now.graph.arcs }
    ensures { result ≡ is_listed arc (leaving deal.now.graph party) }
{
    deal.graph.arcs()[arc as usize].from == party
}

fn enters(deal: &Deal, party: PartyId, arc: ArcId) -> bool
    requires arc { arc < length deal.now.graph.arcs }
    ensures { result ≡ is_listed arc (entering deal.now.graph party) }
{
    deal.graph.arcs()[arc as usize].to == party
}

/// The height by which the action was due on the arc, if it wasn't done by then.
fn overdue(judged: &Judged<'_>, arc: ArcId, from: Option<u64>, counted: &Counted) -> Option<u64>
    requires { IfSome from (λ n. n < 2 ^ 62) }
    ensures { result ≡ overdue judged.now.deal.now.delta counted.now judged.now.party from (history (judged_book judged.now) arc) }
{
    match from {
        Some(from) => {
            let due = from + judged.deal.delta as u64;
            if due < arc_height(judged.known, arc) as u64
                && !is_done(judged.known, judged.party, counted, arc, due)
            {
                Some(due)
            } else {
                None
            }
        }
        None => None,
    }
}

/// Adds that the party is late by the rule on the arc, where it is.
fn put_late_arc(
    out: &mut Vec<Finding>,
    judged: &Judged<'_>,
    rule: Rule,
    arc: ArcId,
    from: Option<u64>,
    counted: &Counted,
) -> Result<(), NoMemory>
    requires small { IfSome from (λ n. n < 2 ^ 62) }
    requires asked { IsAsked judged.now.deal.now (judged_book judged.now) judged.now.party rule arc from counted.now }
    ensures { OnOk result (out.new.items ≡ out.old.items ++ arc_late_findings judged.now.deal.now (judged_book judged.now) judged.now.party rule arc) }
{
    match overdue(judged, arc, from, counted) {
        Some(due) => out.push(Finding::Late(judged.party, rule, arc, due))?,
        None => {}
    }
    Ok(())
}

/// Adds that the party is late by a publish on the arc, where it is.
fn put_late_publish(
    out: &mut Vec<Finding>,
    judged: &Judged<'_>,
    arc: ArcId,
    from: Option<u64>,
) -> Result<(), NoMemory>
    requires arc { arc < length judged.now.deal.now.graph.arcs }
    requires from { from ≡ publish_start judged.now.deal.now (judged_book judged.now) judged.now.party }
    requires small { IfSome from (λ n. n < 2 ^ 62) }
    ensures { OnOk result (out.new.items ≡ out.old.items ++ arc_late_findings judged.now.deal.now (judged_book judged.now) judged.now.party Rule.Publish arc) }
{
    if !leaves(judged.deal, judged.party, arc) {
        return Ok(());
    }
    put_late_arc(out, judged, Rule::Publish, arc, from, &Counted::Publish)
}

/// Adds where the party is late by a publish, by arc.
#[tactic(auto, using(crate::proofs::KeyLoops::flat_more))]
fn put_late_publishes(out: &mut Vec<Finding>, judged: &Judged<'_>) -> Result<(), NoMemory>
    requires { IsJudged judged.now }
    ensures { OnOk result (out.new.items ≡ out.old.items ++ rule_late_findings judged.now.deal.now (judged_book judged.now) judged.now.party Rule.Publish) }
{
    let from = publish_start(judged.deal, judged.known, judged.party);
    for arc in 0..judged.deal.graph.arcs().len() as u8 {
        put_late_publish(out, judged, arc, from)?;
    }
    Ok(())
}

/// Adds that the party is late by an unlock of the lock on the arc, where it is.
fn put_late_unlock(
    out: &mut Vec<Finding>,
    judged: &Judged<'_>,
    lock: LockId,
    first: Option<&Hashkey>,
    arc: ArcId,
    from: Option<u64>,
) -> Result<(), NoMemory>
    requires arc { arc < length judged.now.deal.now.graph.arcs }
    requires first { option_copied first ≡ first_key (judged_book judged.now) judged.now.party lock }
    requires from { from ≡ unlock_start judged.now.deal.now (judged_book judged.now) judged.now.party lock }
    requires small { IfSome from (λ n. n < 2 ^ 62) }
    ensures { OnOk result (out.new.items ≡ out.old.items ++ arc_late_findings judged.now.deal.now (judged_book judged.now) judged.now.party (Rule.Unlock lock) arc) }
{
    if !enters(judged.deal, judged.party, arc) {
        return Ok(());
    }
    let counted = Counted::Unlock(lock, first);
    put_late_arc(out, judged, Rule::Unlock(lock), arc, from, &counted)
}

/// Adds where the party is late by an unlock of the lock, by arc.
#[tactic(auto, using(crate::proofs::KeyLoops::flat_more))]
fn put_late_lock_unlocks(
    out: &mut Vec<Finding>,
    judged: &Judged<'_>,
    lock: LockId,
) -> Result<(), NoMemory>
    requires judged { IsJudged judged.now }
    requires lock { lock < length judged.now.deal.now.leaders }
    ensures { OnOk result (out.new.items ≡ out.old.items ++ rule_late_findings judged.now.deal.now (judged_book judged.now) judged.now.party (Rule.Unlock lock)) }
{
    let first = first_key(judged.known, judged.party, judged.keys, lock);
    let from = unlock_start(judged.deal, judged.known, judged.party, lock, first);
    for arc in 0..judged.deal.graph.arcs().len() as u8 {
        put_late_unlock(out, judged, lock, first, arc, from)?;
    }
    Ok(())
}

/// Adds where the party is late by an unlock, by lock and arc.
#[tactic(auto, using(crate::proofs::KeyLoops::flat_more))]
fn put_late_unlocks(out: &mut Vec<Finding>, judged: &Judged<'_>) -> Result<(), NoMemory>
    requires { IsJudged judged.now }
    ensures { OnOk result (out.new.items ≡ out.old.items ++ flat_map (λ i. rule_late_findings judged.now.deal.now (judged_book judged.now) judged.now.party (Rule.Unlock i)) (locks judged.now.deal.now)) }
{
    for lock in 0..judged.deal.leaders.len() as u8 {
        put_late_lock_unlocks(out, judged, lock)?;
    }
    Ok(())
}

/// Adds that the party is late by a claim on the arc, where it is.
fn put_late_claim(out: &mut Vec<Finding>, judged: &Judged<'_>, arc: ArcId) -> Result<(), NoMemory>
    requires judged { IsJudged judged.now }
    requires arc { arc < length judged.now.deal.now.graph.arcs }
    ensures { OnOk result (out.new.items ≡ out.old.items ++ arc_late_findings judged.now.deal.now (judged_book judged.now) judged.now.party Rule.Claim arc) }
{
    if !enters(judged.deal, judged.party, arc) {
        return Ok(());
    }
    let from = claim_start(judged.deal, judged.known, arc);
    put_late_arc(out, judged, Rule::Claim, arc, from, &Counted::Claim)
}

/// Adds where the party is late by a claim, by arc.
#[tactic(auto, using(crate::proofs::KeyLoops::flat_more))]
fn put_late_claims(out: &mut Vec<Finding>, judged: &Judged<'_>) -> Result<(), NoMemory>
    requires { IsJudged judged.now }
    ensures { OnOk result (out.new.items ≡ out.old.items ++ rule_late_findings judged.now.deal.now (judged_book judged.now) judged.now.party Rule.Claim) }
{
    for arc in 0..judged.deal.graph.arcs().len() as u8 {
        put_late_claim(out, judged, arc)?;
    }
    Ok(())
}

/// Adds that the party is late by a refund on the arc, where it is.
fn put_late_refund(out: &mut Vec<Finding>, judged: &Judged<'_>, arc: ArcId) -> Result<(), NoMemory>
    requires judged { IsJudged judged.now }
    requires arc { arc < length judged.now.deal.now.graph.arcs }
    ensures { OnOk result (out.new.items ≡ out.old.items ++ arc_late_findings judged.now.deal.now (judged_book judged.now) judged.now.party Rule.Refund arc) }
{
    if !leaves(judged.deal, judged.party, arc) {
        return Ok(());
    }
    let least = least_expiry(judged.deal, judged.known, arc);
    let from = refund_start(judged.deal, judged.known, arc, least);
    put_late_arc(
        out,
        judged,
        Rule::Refund,
        arc,
        from,
        &Counted::Refund(least),
    )
}

/// Adds where the party is late by a refund, by arc.
#[tactic(auto, using(crate::proofs::KeyLoops::flat_more))]
fn put_late_refunds(out: &mut Vec<Finding>, judged: &Judged<'_>) -> Result<(), NoMemory>
    requires { IsJudged judged.now }
    ensures { OnOk result (out.new.items ≡ out.old.items ++ rule_late_findings judged.now.deal.now (judged_book judged.now) judged.now.party Rule.Refund) }
{
    for arc in 0..judged.deal.graph.arcs().len() as u8 {
        put_late_refund(out, judged, arc)?;
    }
    Ok(())
}

/// Adds where the party is late, by rule, lock and arc. After want of memory a part stands there.
fn put_lates_by_rule(out: &mut Vec<Finding>, judged: &Judged<'_>) -> Result<(), NoMemory>
    requires { IsJudged judged.now }
    ensures { OnOk result (out.new.items ≡ out.old.items ++ lates judged.now.deal.now (judged_book judged.now) judged.now.party) }
{
    put_late_publishes(out, judged)?;
    put_late_unlocks(out, judged)?;
    put_late_claims(out, judged)?;
    put_late_refunds(out, judged)?;
    Ok(())
}

/// Adds where the party is late, by rule, lock and arc. Want of memory leaves the list as it was.
pub fn put_lates(out: &mut Vec<Finding>, judged: &Judged<'_>) -> Result<(), NoMemory>
    requires judged { IsJudged judged.now }
    ensures ok { OnOk result (out.new.items ≡ out.old.items ++ lates judged.now.deal.now (judged_book judged.now) judged.now.party) }
    ensures err { OnErr result (out.new.items ≡ out.old.items) }
{
    let mut found = Vec::new(*out.allocator());
    put_lates_by_rule(&mut found, judged)?;
    out.append(&mut found)?;
    Ok(())
}
