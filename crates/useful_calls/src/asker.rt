//! A party that asks what is useful to it.

use crate::signer::Signer;
use history_index::Index;
use swap_base::PartyId;
use swap_digraph::Deal;
use told_ledgers::ToldLedger;

/// A party of a deal that asks what is useful to it: its number, what it signs with, what it
/// knows of each ledger, and what was told of it.
#[derive(Clone, Copy)]
pub(crate) struct Asker<'a> {
    pub deal: &'a Deal,
    pub me: PartyId,
    pub signer: Signer<'a>,
    pub known: &'a [Index],
    /// What was told of each ledger.
    pub told: &'a [ToldLedger],
}
