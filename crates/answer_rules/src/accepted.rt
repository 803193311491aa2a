//! Up to which height a contract accepts a hashkey.

ghost use Rattle.std.specs.Prelude.{◌≡◌, ◌<◌, ◌≤◌, length};
ghost use Rattle.swap_digraph.specs.Deal.{IsWellSized};
ghost use Rattle.escrow_core.specs.Terms.{last_unlock as last_of_key, stated_terms};
ghost use Rattle.answer_rules.specs.Heights.{last_accepted, IsShort};

use hashkey_path::Hashkey;
use ledger_core::Call;
use swap_base::ArcId;
use swap_digraph::{Deal, Mode};
use time_bounds::deadline;

/// The last height at which the contract of the arc accepts the hashkey.
fn last_height(deal: &Deal, arc: ArcId, key: &Hashkey) -> u64
    requires sized { IsWellSized deal.now }
    requires arc { arc < length deal.now.graph.arcs }
    requires path { length key.now.path ≤ 1000000 }
    ensures { result ≡ last_of_key deal.now.mode (stated_terms deal.now arc) key.now }
{
    match deal.mode {
        Mode::Timelocks => deal.timelocks.as_slice()[arc as usize] as u64,
        Mode::Hashkeys => {
            let arcs = key.path.len().saturating_sub(1) as u32;
            deadline(deal.start, deal.delta, deal.bound, arcs)
        }
    }
}

/// The last height at which the contract of the arc accepts the hashkey of an unlock; none of
/// another call.
pub fn last_accepted(deal: &Deal, arc: ArcId, call: &Call) -> Option<u64>
    requires sized { IsWellSized deal.now }
    requires arc { arc < length deal.now.graph.arcs }
    requires path { IsShort call.now }
    ensures { result ≡ last_accepted deal.now arc call.now }
{
    match call {
        Call::Unlock(key) => Some(last_height(deal, arc, key)),
        _ => None,
    }
}
