//! A party that is judged, and what it is judged by.

use hashkey_path::Hashkey;
use history_index::Index;
use swap_base::PartyId;
use swap_digraph::Deal;

/// A party that is judged by its deal, one index per arc, and the hashkeys of its unlock calls.
#[derive(Clone, Copy)]
pub struct Judged<'a> {
    pub deal: &'a Deal,
    pub known: &'a [Index],
    pub party: PartyId,
    pub keys: &'a [&'a Hashkey],
}
