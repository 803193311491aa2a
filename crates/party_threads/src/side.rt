//! A party's side of a round.

use ledger_shared::SharedLedger;
use swap_base::PartyId;
use swap_job::Job;

/// Where a party has its turn: at the ledgers of a job, under its number.
#[derive(Clone, Copy)]
pub(crate) struct Side<'a> {
    pub ledgers: &'a [SharedLedger],
    pub job: &'a Job,
    pub me: PartyId,
}
