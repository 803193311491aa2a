//! The header of a swap.

ghost use Rattle.std.specs.Prelude.{◌≡◌, IfOk};
ghost use Rattle.swap_base.specs.Fault.{Gives};
ghost use Rattle.offer_header.specs.Limits.{HoldsEach};
ghost use Rattle.offer_header.specs.Names.{AreNames, has_strategy};
ghost use Rattle.swap_offer.specs.Checks.{IsAcceptedOrProposed};
ghost use Rattle.swap_offer.specs.Job.{IsWholeJob};
ghost use Rattle.swap_offer.specs.Wallets.{HaveRequiredScripts, HaveRequiredSeeds, HaveRequiredWallets, prepared_wallets};
ghost use Rattle.many_lines.specs.Heading.{swap_job, tells_finish, without_finish};

use crate::fault::{bad, nameless};
use command_input::{HeaderFault, OfferFault};
use offer_moves::parse_object;
use std::alloc::Global;
use swap_base::ByteText;
use swap_job::Purpose;
use swap_offer::{Prepared, read_header};

/// Whether the object of a line states a finish.
#[tactic(auto, unfolding(crate::specs::Heading::tells_finish))]
fn tells_finish(alloc: Global, line: u32, text: &[u8]) -> Result<bool, OfferFault>
    ensures { Gives (λ b. b) result (tells_finish line text.now) }
{
    let object = parse_object(alloc, line, text)?;
    Ok(object.get("finish").is_some())
}

/// A header states no finish, since all swaps have one finish.
#[tactic(auto, using(command_input::proofs::Named::fails), unfolding(crate::specs::Heading::without_finish))]
fn without_finish(alloc: Global, line: u32, text: &[u8]) -> Result<(), HeaderFault>
    ensures { Gives (λ u. u) result (without_finish line text.now) }
{
    match tells_finish(alloc, line, text) {
        Ok(false) => Ok(()),
        Ok(true) => Err(bad(alloc, line)),
        Err(fault) => Err(nameless(alloc, fault)),
    }
}

/// The job of a swap's header, with its wallets.
#[tactic(auto, unfolding(crate::specs::Heading::swap_job))]
pub(crate) fn read_swap(
    alloc: Global,
    strategies: &[ByteText],
    line: u32,
    text: &[u8],
) -> Result<Prepared, HeaderFault>
    ensures exact { Gives (λ p. p.job) result (swap_job (has_strategy strategies.now) line text.now) }
    ensures names { IfOk result (λ p. AreNames p.job.names) }
    ensures purpose { IfOk result (λ p. p.job.purpose ≡ Purpose.Run) }
    ensures whole { IfOk result (λ p. IsWholeJob p.job) }
    ensures accepted { IfOk result (λ p. IsAcceptedOrProposed Purpose.Run p.job.deal) }
    ensures seeds { IfOk result (λ p. HaveRequiredSeeds Purpose.Run p.job) }
    ensures wallets { IfOk result (λ p. HaveRequiredWallets Purpose.Run p.job) }
    ensures strategies { IfOk result (λ p. HoldsEach (has_strategy strategies.now) p.job.roles) }
    ensures scripts { IfOk result (λ p. HaveRequiredScripts Purpose.Run p.job) }
    ensures made { IfOk result (λ p. p.wallets.items ≡ prepared_wallets Purpose.Run p.job) }
{
    let prepared = read_header(alloc, line, text, Purpose::Run, strategies)?;
    without_finish(alloc, line, text)?;
    Ok(prepared)
}
