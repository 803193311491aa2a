//! A tick of the ledgers that stand on one chain.

ghost use Rattle.std.specs.Prelude.{◌≡◌, ◌<◌, ◌≤◌, true, All, length, fold};
ghost use Rattle.std.specs.List.Sorted.{IsStrictlyIncreasing};
ghost use Rattle.ledger_core.specs.History.{IsLegal};
ghost use Rattle.swap_run.specs.Run.{after_tick};
ghost use Rattle.swap_world.specs.Acting.{histories, tick_book};
ghost use Rattle.swap_world.specs.Inside.{AreArcLedgers, HaveRoom};

use ledger_core::Ledger;
use swap_base::ArcId;
use swap_digraph::Deal;

/// Ticks a ledger by k heights, and answers whether it has room for a further entry.
#[tactic(auto, unfolding(swap_run::specs::Run::after_tick))]
fn tick_one(ledger: &mut Ledger, k: u32) -> bool
    requires some { 1 ≤ k }
    requires below { k ≤ 1000000 }
    requires room { 0 < ledger.old.spare }
    requires legal { IsLegal ledger.old.deal ledger.old.arc ledger.old.history }
    ensures ticked { ledger.new.history ≡ after_tick k ledger.old.history }
    ensures room { result ≡ true → 0 < ledger.new.spare }
    ensures deal { ledger.new.deal ≡ ledger.old.deal }
    ensures arc { ledger.new.arc ≡ ledger.old.arc }
    ensures legal { IsLegal ledger.new.deal ledger.new.arc ledger.new.history }
{
    let _ = ledger.tick(k);
    ledger.reserve().is_ok()
}

/// Ticks each ledger of these arcs, and answers whether each has room for a further entry. It makes
/// all ticks.
pub(crate) fn tick_all(ledgers: &mut Vec<Ledger>, _deal: &Deal, on: &[ArcId], k: u32) -> bool
    requires some { 1 ≤ k }
    requires below { k ≤ 1000000 }
    requires arcs { All (λ a. a < length ledgers.old.items) on.now }
    requires ascending { IsStrictlyIncreasing on.now }
    requires ledgers { AreArcLedgers _deal.now ledgers.old.items }
    requires room { HaveRoom ledgers.old.items }
    ensures ticked { histories ledgers.new.items ≡ fold (tick_book k) (histories ledgers.old.items) on.now }
    ensures ledgers { AreArcLedgers _deal.now ledgers.new.items }
    ensures room { result ≡ true → HaveRoom ledgers.new.items }
{
    let mut ready = true;
    'arcs: for arc in on {
        let place = *arc as usize;
        let has_room = tick_one(&mut ledgers[place], k);
        ready = ready && has_room;
    }
    ready
}
