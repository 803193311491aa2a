//! A report of a book.

ghost use Rattle.std.specs.Prelude.{◌≡◌, [], nat_lt, IfOk, length};
ghost use Rattle.std.specs.List.{list_all};
ghost use Rattle.swap_digraph.specs.Deal.{IsWellSized};
ghost use Rattle.ledger_core.specs.History.{height as latest_height};
ghost use Rattle.ledger_core.specs.Book.{IsLegalBook};
ghost use Rattle.history_index.specs.Indexes.{all_entries, AreIndexes};
ghost use Rattle.swap_rules.specs.Accepted.{IsAccepted};
ghost use Rattle.swap_rules.specs.Laws.{FindsNothing, IsTransferred};
ghost use Rattle.outcome_rules.specs.Promises.{AllAreConforming, AllArePaid, AllAreWhole, AllHaveRefunds, NobodyGains, NoneIsUnderwater, NoneLosesUnits, shown_outcome};
ghost use Rattle.outcome_rules.specs.Report.{is_conforming_party, has_ended, deal_outcomes, build_report};

use crate::ending::outcome;
use crate::indexes::build_indexes;
use crate::listing::findings_indexed;
use history_index::Index;
use ledger_core::{Book, Facts};
use std::alloc::Global;
use swap_base::{Listed, NoMemory};
use swap_digraph::Deal;
use swap_rules::{Finding, Outcome};
use time_bounds::horizon;

/// Whether a book has ended, how each party ended, and what is found.
#[derive(Debug, Drop)]
pub struct Report {
    pub ended: bool,
    /// One per party.
    pub outcomes: Listed<Outcome>,
    pub findings: Listed<Finding>,
}

/// Whether each ledger's height is above this one.
fn exceed_height(known: &[Index], height: u64) -> bool
    ensures { result ≡ list_all (λ x. nat_lt height (latest_height x.entries)) known.now }
{
    known.iter().all(|index| height < index.height() as u64)
}

/// Whether each ledger's height is above the horizon.
fn has_ended(deal: &Deal, known: &[Index]) -> bool
    requires { IsWellSized deal.now }
    ensures { result ≡ has_ended deal.now (all_entries known.now) }
{
    exceed_height(known, horizon(deal.start, deal.delta, deal.bound))
}

/// How each party ended.
#[tactic(auto, using(crate::proofs::Loops::map_one_more))]
fn deal_outcomes(alloc: Global, deal: &Deal, known: &[Index]) -> Result<Listed<Outcome>, NoMemory>
    requires sized { IsWellSized deal.now }
    requires known { AreIndexes deal.now known.now }
    ensures { IfOk result (λ l. l ≡ deal_outcomes deal.now (all_entries known.now)) }
{
    let mut list = Vec::new(alloc);
    for party in 0..deal.graph.n() {
        list.push(outcome(deal, known, party))?;
    }
    Ok(Listed::new(list))
}

/// The report of what the indexes hold.
#[tactic(auto, unfolding(crate::specs::Report::build_report))]
fn report_indexed(
    alloc: Global,
    deal: &Deal,
    conforming: &Listed<bool>,
    known: &[Index],
) -> Result<Report, NoMemory>
    requires sized { IsWellSized deal.now }
    requires conforming { length conforming.now ≡ deal.now.graph.n }
    requires known { AreIndexes deal.now known.now }
    requires legal { IsLegalBook deal.now (all_entries known.now) }
    ensures exact { IfOk result (λ r. r ≡ build_report deal.now conforming.now (all_entries known.now)) }
    ensures safe { IfOk result (λ r. IsAccepted deal.now → NoneIsUnderwater deal.now conforming.now (shown_outcome r) r.findings) }
    ensures gains { IfOk result (λ r. IsAccepted deal.now → NobodyGains deal.now conforming.now (all_entries known.now) (shown_outcome r) r.findings) }
    ensures refunds { IfOk result (λ r. IsAccepted deal.now → AllHaveRefunds deal.now conforming.now (all_entries known.now) r.findings) }
    ensures paid { IfOk result (λ r. IsAccepted deal.now → AllArePaid deal.now conforming.now (all_entries known.now) r.findings) }
    ensures units { IfOk result (λ r. IsAccepted deal.now → NoneLosesUnits deal.now conforming.now (all_entries known.now) r.findings) }
    ensures transfer { IfOk result (λ r. (k : IsAccepted deal.now) → AllAreConforming deal.now conforming.now → r.findings ≡ []
        → IsTransferred deal.now (all_entries known.now) k) }
    ensures whole { IfOk result (λ r. IsAccepted deal.now → AllAreConforming deal.now conforming.now → r.findings ≡ [] → AllAreWhole deal.now r) }
    ensures nothing_found { IfOk result (λ r. r.findings ≡ [] → FindsNothing deal.now (is_conforming_party conforming.now) (all_entries known.now)) }
{
    Ok(Report {
        ended: has_ended(deal, known),
        outcomes: deal_outcomes(alloc, deal, known)?,
        findings: findings_indexed(alloc, deal, conforming, known)?,
    })
}

/// The report of a book. Findings are those of the parties that conform, and of ledgers that aren't
/// above the horizon.
pub fn build_report(
    alloc: Global,
    deal: &Deal,
    conforming: &Listed<bool>,
    book: &Book,
) -> Result<Report, NoMemory>
    requires sized { IsWellSized deal.now }
    requires conforming { length conforming.now ≡ deal.now.graph.n }
    requires legal { IsLegalBook deal.now book.now.histories }
    ensures exact { IfOk result (λ r. r ≡ build_report deal.now conforming.now book.now.histories) }
    ensures safe { IfOk result (λ r. IsAccepted deal.now → NoneIsUnderwater deal.now conforming.now (shown_outcome r) r.findings) }
    ensures gains { IfOk result (λ r. IsAccepted deal.now → NobodyGains deal.now conforming.now book.now.histories (shown_outcome r) r.findings) }
    ensures refunds { IfOk result (λ r. IsAccepted deal.now → AllHaveRefunds deal.now conforming.now book.now.histories r.findings) }
    ensures paid { IfOk result (λ r. IsAccepted deal.now → AllArePaid deal.now conforming.now book.now.histories r.findings) }
    ensures units { IfOk result (λ r. IsAccepted deal.now → NoneLosesUnits deal.now conforming.now book.now.histories r.findings) }
    ensures transfer { IfOk result (λ r. (k : IsAccepted deal.now) → AllAreConforming deal.now conforming.now → r.findings ≡ []
        → IsTransferred deal.now book.now.histories k) }
    ensures whole { IfOk result (λ r. IsAccepted deal.now → AllAreConforming deal.now conforming.now → r.findings ≡ [] → AllAreWhole deal.now r) }
    ensures nothing_found { IfOk result (λ r. r.findings ≡ [] → FindsNothing deal.now (is_conforming_party conforming.now) book.now.histories) }
{
    let known = build_indexes(alloc, deal, book)?;
    report_indexed(alloc, deal, conforming, &known)
}
