//! The header of an input: its first line that isn't blank.

ghost use Rattle.std.specs.Prelude.{◌≡◌, Ok, IfOk, IfErr, OnOk};
ghost use Rattle.offer_header.specs.Limits.{HoldsEach};
ghost use Rattle.offer_header.specs.Names.{AreNames, has_strategy};
ghost use Rattle.swap_offer.specs.Checks.{deal_need, IsAcceptedOrProposed};
ghost use Rattle.swap_offer.specs.Job.{IsWholeJob, parse_header_job, header_names};
ghost use Rattle.swap_offer.specs.Wallets.{HaveRequiredScripts, HaveRequiredSeeds, HaveRequiredWallets, prepared_wallets};
ghost use Rattle.command_input.specs.Input.{IsLine, Stops, desk, fresh};
ghost use Rattle.swap_commands.specs.Output.{command_purpose};
ghost use Rattle.swap_commands.specs.Says.{IsCommandRefusal};
ghost use Rattle.swap_commands.specs.Words.{JobCommand, OfJob};

use command_input::{Input, InputFault, Refusal, no_line};
use std::alloc::Global;
use swap_base::{ByteText, Listed, NoMemory};
use swap_io::Source;
use swap_job::Purpose;
use swap_offer::{Prepared, read_header};
use swap_run::Strategies;

/// The names under which there is a strategy.
pub(crate) fn strategy_names<A: Strategies>(strategies: &A) -> Result<Listed<ByteText>, NoMemory>
    ensures { IfOk result (λ names. has_strategy names ≡ A.holds strategies.now) }
{
    strategies.names()
}

/// The job of an input's header, read for the purpose, with the wallets that this needs, or what is
/// said against it.
pub(crate) fn first_line<S: Source, A: Strategies>(
    alloc: Global,
    strategies: &A,
    purpose: Purpose,
    input: &mut Input,
    source: &mut S,
) -> Result<Prepared, InputFault<Refusal>>
    requires { input.old ≡ fresh }
    ensures line { OnOk result (IsLine (desk (S.left source.old) (S.faults source.old) fresh)
        (desk (S.left source.new) (S.faults source.new) input.new)) }
    ensures header { IfOk result (λ p. parse_header_job (A.holds strategies.now) purpose input.new.number
        input.new.text ≡ Ok p.job) }
    ensures names { IfOk result (λ p. p.job.names ≡ header_names (A.holds strategies.now) purpose input.new.number
        input.new.text) }
    ensures whole { IfOk result (λ p. IsWholeJob p.job) }
    ensures known { IfOk result (λ p. AreNames p.job.names) }
    ensures purpose { IfOk result (λ p. p.job.purpose ≡ purpose) }
    ensures accepted { IfOk result (λ p. IsAcceptedOrProposed purpose p.job.deal) }
    ensures seeds { IfOk result (λ p. HaveRequiredSeeds purpose p.job) }
    ensures wallets { IfOk result (λ p. HaveRequiredWallets purpose p.job) }
    ensures strategies { IfOk result (λ p. HoldsEach (A.holds strategies.now) p.job.roles) }
    ensures scripts { IfOk result (λ p. HaveRequiredScripts purpose p.job) }
    ensures made { IfOk result (λ p. p.wallets.items ≡ prepared_wallets purpose p.job) }
    ensures need { IfOk result (λ p. p.need ≡ deal_need p.job.deal) }
    // Whatever command of that purpose.
    ensures stops { (command : JobCommand) → purpose ≡ command_purpose command
        → IfErr result (λ e. Stops (IsCommandRefusal (A.holds strategies.now) (OfJob command)) (desk (S.left source.old) (S.faults source.old) fresh)
        (desk (S.left source.new) (S.faults source.new) input.new) e) }
{
    let names = strategy_names(strategies)?;
    if !input.next(source)? {
        return Err(no_line(alloc));
    }
    let number = input.number();
    let prepared = read_header(alloc, number, input.text(), purpose, names.as_slice())?;
    Ok(prepared)
}
