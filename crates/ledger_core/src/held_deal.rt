//! A deal with several holders.

ghost use Rattle.std.specs.Prelude.{◌≡◌, IfOk};

use std::alloc::Global;
use swap_base::{NoMemory, Shared};
use swap_digraph::{Deal, copy_deal};

/// A copy of the deal that ledgers hold in common.
pub fn share_deal(alloc: Global, deal: &Deal) -> Result<Shared<Deal>, NoMemory>
    ensures { IfOk result (λ d. d ≡ deal.now) }
{
    Ok(Shared::new(alloc, copy_deal(deal)?)?)
}
