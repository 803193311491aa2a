//! What is found of a book, in its order.

ghost use Rattle.std.specs.Prelude.{◌≡◌, ◌<◌, ◌++◌, [], IfOk, OnOk, length, if◌then◌else◌};
ghost use Rattle.swap_digraph.specs.Deal.{IsWellSized};
ghost use Rattle.ledger_core.specs.Book.{IsLegalBook};
ghost use Rattle.history_index.specs.Indexes.{all_entries, AreIndexes};
ghost use Rattle.swap_rules.specs.Accepted.{IsAccepted};
ghost use Rattle.swap_rules.specs.Findings.{findings, party_findings, unfinished};
ghost use Rattle.swap_rules.specs.Outcome.{outcome};
ghost use Rattle.swap_rules.specs.Laws.{FindsNothing, IsTransferred};
ghost use Rattle.outcome_rules.specs.UnfinishedArcs.{arc_unfinished};
ghost use Rattle.outcome_rules.specs.Promises.{AllAreConforming, AllArePaid, AllHaveRefunds, NobodyGains, NoneIsUnderwater, NoneLosesUnits};
ghost use Rattle.outcome_rules.specs.Report.{is_conforming_party};

use crate::indexes::build_indexes;
use conduct_check::{Judged, put_broken, put_forgeries, put_lates, unlocks_on_own_arcs};
use due_calls::arc_height;
use history_index::Index;
use ledger_core::Book;
use std::alloc::Global;
use swap_base::{ArcId, Listed, NoMemory, PartyId};
use swap_digraph::Deal;
use swap_rules::Finding;
use time_bounds::horizon;

/// Adds what is found of the party.
fn put_rule_findings(
    alloc: Global,
    out: &mut Vec<Finding>,
    deal: &Deal,
    known: &[Index],
    party: PartyId,
) -> Result<(), NoMemory>
    requires sized { IsWellSized deal.now }
    requires known { AreIndexes deal.now known.now }
    requires legal { IsLegalBook deal.now (all_entries known.now) }
    requires party { party < deal.now.graph.n }
    ensures { OnOk result (out.new.items ≡ out.old.items ++ party_findings deal.now (all_entries known.now) party) }
{
    let keys = unlocks_on_own_arcs(alloc, deal, known, party)?;
    let judged = Judged {
        deal,
        known,
        party,
        keys: keys.as_slice(),
    };
    put_broken(out, &judged)?;
    put_lates(out, &judged)?;
    put_forgeries(out, &judged)?;
    Ok(())
}

/// Adds what is found of the party, where it conforms.
fn put_party_findings(
    alloc: Global,
    out: &mut Vec<Finding>,
    deal: &Deal,
    conforming: &Listed<bool>,
    known: &[Index],
    party: PartyId,
) -> Result<(), NoMemory>
    requires sized { IsWellSized deal.now }
    requires conforming { length conforming.now ≡ deal.now.graph.n }
    requires known { AreIndexes deal.now known.now }
    requires legal { IsLegalBook deal.now (all_entries known.now) }
    requires party { party < deal.now.graph.n }
    ensures { OnOk result (out.new.items ≡ out.old.items
        ++ (if is_conforming_party conforming.now party then party_findings deal.now (all_entries known.now) party else [])) }
{
    if conforming.as_slice()[party as usize] {
        put_rule_findings(alloc, out, deal, known, party)?;
    }
    Ok(())
}

/// Adds the ledger of the arc, where it isn't above the horizon.
fn put_unfinished_arc(
    out: &mut Vec<Finding>,
    horizon: u64,
    known: &[Index],
    arc: ArcId,
) -> Result<(), NoMemory>
    ensures { OnOk result (out.new.items ≡ out.old.items ++ arc_unfinished horizon (all_entries known.now) arc) }
{
    let height = arc_height(known, arc);
    if height as u64 <= horizon {
        out.push(Finding::Unfinished(arc, height))?;
    }
    Ok(())
}

/// Adds the ledgers that aren't above the horizon.
#[tactic(auto, using(conduct_check::proofs::KeyLoops::flat_more))]
fn put_unfinished(out: &mut Vec<Finding>, deal: &Deal, known: &[Index]) -> Result<(), NoMemory>
    requires { IsWellSized deal.now }
    ensures { OnOk result (out.new.items ≡ out.old.items ++ unfinished deal.now (all_entries known.now)) }
{
    let horizon = horizon(deal.start, deal.delta, deal.bound);
    for arc in 0..deal.graph.arcs().len() as u8 {
        put_unfinished_arc(out, horizon, known, arc)?;
    }
    Ok(())
}

/// The ledgers that aren't above the horizon, by arc, with their heights.
pub fn unfinished(alloc: Global, deal: &Deal, book: &Book) -> Result<Listed<Finding>, NoMemory>
    requires sized { IsWellSized deal.now }
    requires legal { IsLegalBook deal.now book.now.histories }
    ensures { IfOk result (λ l. l ≡ unfinished deal.now book.now.histories) }
{
    let known = build_indexes(alloc, deal, book)?;
    let mut list = Vec::new(alloc);
    put_unfinished(&mut list, deal, &known)?;
    Ok(Listed::new(list))
}

/// What is found of each conforming party, ascending, and then of the ledgers, read through one
/// index per arc.
pub fn findings_indexed(
    alloc: Global,
    deal: &Deal,
    conforming: &Listed<bool>,
    known: &[Index],
) -> Result<Listed<Finding>, NoMemory>
    requires sized { IsWellSized deal.now }
    requires conforming { length conforming.now ≡ deal.now.graph.n }
    requires known { AreIndexes deal.now known.now }
    requires legal { IsLegalBook deal.now (all_entries known.now) }
    ensures exact { IfOk result (λ l. l ≡ findings deal.now (is_conforming_party conforming.now) (all_entries known.now)) }
    ensures safe { IfOk result (λ l. IsAccepted deal.now → NoneIsUnderwater deal.now conforming.now (outcome deal.now (all_entries known.now)) l) }
    ensures gains { IfOk result (λ l. IsAccepted deal.now
        → NobodyGains deal.now conforming.now (all_entries known.now) (outcome deal.now (all_entries known.now)) l) }
    ensures refunds { IfOk result (λ l. IsAccepted deal.now → AllHaveRefunds deal.now conforming.now (all_entries known.now) l) }
    ensures paid { IfOk result (λ l. IsAccepted deal.now → AllArePaid deal.now conforming.now (all_entries known.now) l) }
    ensures units { IfOk result (λ l. IsAccepted deal.now → NoneLosesUnits deal.now conforming.now (all_entries known.now) l) }
    ensures transfer { IfOk result (λ l. (k : IsAccepted deal.now) → AllAreConforming deal.now conforming.now → l ≡ []
        → IsTransferred deal.now (all_entries known.now) k) }
    ensures nothing_found { IfOk result (λ l. l ≡ [] → FindsNothing deal.now (is_conforming_party conforming.now) (all_entries known.now)) }
{
    let mut list = Vec::new(alloc);
    for party in 0..deal.graph.n() {
        put_party_findings(alloc, &mut list, deal, conforming, known, party)?;
    }
    put_unfinished(&mut list, deal, known)?;
    Ok(Listed::new(list))
}

/// The findings of each conforming party, ascending, and then those of the ledgers. A party's
/// findings are its entries that broke a rule of conduct, its late actions, and the entries that
/// are forged in its name.
pub fn findings(
    alloc: Global,
    deal: &Deal,
    conforming: &Listed<bool>,
    book: &Book,
) -> Result<Listed<Finding>, NoMemory>
    requires sized { IsWellSized deal.now }
    requires conforming { length conforming.now ≡ deal.now.graph.n }
    requires legal { IsLegalBook deal.now book.now.histories }
    ensures exact { IfOk result (λ l. l ≡ findings deal.now (is_conforming_party conforming.now) book.now.histories) }
    ensures safe { IfOk result (λ l. IsAccepted deal.now → NoneIsUnderwater deal.now conforming.now (outcome deal.now book.now.histories) l) }
    ensures gains { IfOk result (λ l. IsAccepted deal.now
        → NobodyGains deal.now conforming.now book.now.histories (outcome deal.now book.now.histories) l) }
    ensures refunds { IfOk result (λ l. IsAccepted deal.now → AllHaveRefunds deal.now conforming.now book.now.histories l) }
    ensures paid { IfOk result (λ l. IsAccepted deal.now → AllArePaid deal.now conforming.now book.now.histories l) }
    ensures units { IfOk result (λ l. IsAccepted deal.now → NoneLosesUnits deal.now conforming.now book.now.histories l) }
    ensures transfer { IfOk result (λ l. (k : IsAccepted deal.now) → AllAreConforming deal.now conforming.now → l ≡ []
        → IsTransferred deal.now book.now.histories k) }
    ensures nothing_found { IfOk result (λ l. l ≡ [] → FindsNothing deal.now (is_conforming_party conforming.now) book.now.histories) }
{
    let known = build_indexes(alloc, deal, book)?;
    findings_indexed(alloc, deal, conforming, &known)
}
