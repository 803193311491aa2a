//! The audit of a book.

ghost use Rattle.std.specs.Prelude.{◌≡◌, [], IfOk, OnOk, length};
ghost use Rattle.swap_base.specs.Fault.{Gives};
ghost use Rattle.swap_digraph.specs.Deal.{IsWellSized};
ghost use Rattle.ledger_core.specs.Book.{IsLegalBook};
ghost use Rattle.swap_rules.specs.Accepted.{IsAccepted};
ghost use Rattle.swap_rules.specs.Laws.{FindsNothing, IsTransferred};
ghost use Rattle.outcome_rules.specs.Promises.{AllAreConforming, AllArePaid, AllAreWhole, AllHaveRefunds, NobodyGains, NoneIsUnderwater, NoneLosesUnits, shown_outcome};
ghost use Rattle.outcome_rules.specs.Report.{is_conforming_party};
ghost use Rattle.swap_auditor.specs.Audit.{audited, replay_histories, AreUnitsConserved};
ghost use Rattle.ledger_core.specs.WellFormed.{IsWellFormed};

use crate::found::Found;
use crate::replay::{AuditFault, replay};
use ledger_core::{Book, share_deal};
use outcome_rules::{Report, build_report};
use std::alloc::Global;
use swap_base::{ArcId, Listed, Shared};
use swap_digraph::Deal;

/// Replays each history of a book, by ledgers that hold this deal.
fn replay_all(alloc: Global, deal: &Shared<Deal>, book: &Book) -> Result<(), AuditFault>
    requires sized { IsWellSized deal.now }
    requires formed { IsWellFormed deal.now book.now.histories }
    ensures exact { Gives (λ u. u) result (replay_histories deal.now 0 book.now.histories) }
    ensures legal { OnOk result (IsLegalBook deal.now book.now.histories) }
{
    let mut found = Found::new(alloc, deal)?;
    for (arc, list) in book.histories.as_slice().iter().enumerate() {
        replay(alloc, deal, arc as ArcId, &mut found, list)?;
    }
    Ok(())
}

/// Replays each history of a book: every stated reply has to be the ledger's. Each signature is
/// verified once.
pub fn replay_book(alloc: Global, deal: &Deal, book: &Book) -> Result<(), AuditFault>
    requires sized { IsWellSized deal.now }
    requires formed { IsWellFormed deal.now book.now.histories }
    ensures exact { Gives (λ u. u) result (replay_histories deal.now 0 book.now.histories) }
    ensures legal { OnOk result (IsLegalBook deal.now book.now.histories) }
{
    let held = share_deal(alloc, deal)?;
    replay_all(alloc, &held, book)
}

/// The report of a book if the replayed ledgers give all its stated replies, or else the first
/// stated reply, in order of arc and entry, that they don't give. Each signature is verified once.
pub fn audit_book(
    alloc: Global,
    deal: &Deal,
    conforming: &Listed<bool>,
    book: &Book,
) -> Result<Report, AuditFault>
    requires accepted { IsAccepted deal.now }
    requires conforming { length conforming.now ≡ deal.now.graph.n }
    requires formed { IsWellFormed deal.now book.now.histories }
    ensures exact { Gives (λ r. r) result (audited deal.now conforming.now book.now.histories) }
    ensures legal { OnOk result (IsLegalBook deal.now book.now.histories) }
    ensures units { OnOk result (AreUnitsConserved deal.now book.now.histories) }
    ensures safe { IfOk result (λ r. NoneIsUnderwater deal.now conforming.now (shown_outcome r) r.findings) }
    ensures gains { IfOk result (λ r. NobodyGains deal.now conforming.now book.now.histories (shown_outcome r) r.findings) }
    ensures refunds { IfOk result (λ r. AllHaveRefunds deal.now conforming.now book.now.histories r.findings) }
    ensures paid { IfOk result (λ r. AllArePaid deal.now conforming.now book.now.histories r.findings) }
    ensures lossless { IfOk result (λ r. NoneLosesUnits deal.now conforming.now book.now.histories r.findings) }
    ensures transfer { IfOk result (λ r. (k : IsAccepted deal.now) → AllAreConforming deal.now conforming.now → r.findings ≡ []
        → IsTransferred deal.now book.now.histories k) }
    ensures whole { IfOk result (λ r. AllAreConforming deal.now conforming.now → r.findings ≡ [] → AllAreWhole deal.now r) }
    ensures nothing_found { IfOk result (λ r. r.findings ≡ [] → FindsNothing deal.now (is_conforming_party conforming.now) book.now.histories) }
{
    replay_book(alloc, deal, book)?;
    let report = build_report(alloc, deal, conforming, book)?;
    Ok(report)
}
