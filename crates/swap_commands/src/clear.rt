//! The command `clear`: wishes are read, and what of them can be swapped is written.

ghost use Rattle.std.specs.Prelude.{◌≡◌, ℕ, Bool, List, IfOk, IfErr, OnOk};
ghost use Rattle.swap_clear.specs.ClearedText.{IsClearedLine};
ghost use Rattle.swap_commands.specs.Cleared.{IsCleared, IsFurther};
ghost use Rattle.command_input.specs.Input.{Ends, Fits, IsLast, IsLine, Stops, desk, fresh};
ghost use Rattle.command_input.specs.Streams.{streams};
ghost use Rattle.swap_commands.specs.Says.{CommandSays, IsCommandRefusal};
ghost use Rattle.swap_commands.specs.Walk.{ReadsOrStops};
ghost use Rattle.swap_commands.specs.Words.{Clear};
ghost use Rattle.swap_commands.specs.Strategies.{given_strategies};

use crate::make::write_plain_text;
use command_input::{Input, InputFault, Reason, Refusal, Status, no_line, unread};
use std::alloc::Global;
use swap_base::Listed;
use swap_clear::cleared_line;
use swap_io::{Sink, Source};
use swap_run::Strategies;

/// The text of an input's first line, or what is said against it.
fn first_wishes<S: Source>(
    alloc: Global,
    input: &mut Input,
    source: &mut S,
) -> Result<Vec<u8>, InputFault<Refusal>>
    requires { input.old ≡ fresh }
    ensures line { OnOk result (IsLine (desk (S.left source.old) (S.faults source.old) fresh)
        (desk (S.left source.new) (S.faults source.new) input.new)) }
    ensures cleared { IfOk result (λ t. IsClearedLine input.new.number input.new.text t.items) }
    ensures stops { (has : List ℕ → Bool) → IfErr result (λ e. Stops (IsCommandRefusal has Clear) (desk (S.left source.old) (S.faults source.old) fresh)
        (desk (S.left source.new) (S.faults source.new) input.new) e) }
{
    if !input.next(source)? {
        return Err(no_line(alloc));
    }
    match cleared_line(alloc, input.number(), input.text()) {
        Ok(text) => Ok(text),
        Err(fault) => Err(InputFault::from(fault).with_names(Listed::empty(alloc))),
    }
}

/// A further line that isn't blank is a bad one.
fn refuse_further_line<S: Source>(
    alloc: Global,
    input: &mut Input,
    source: &mut S,
) -> Result<(), InputFault<Refusal>>
    requires fits { Fits (S.left source.old) input.old }
    ensures { ReadsOrStops (λ _. IsLast) (IsFurther input.old) (desk (S.left source.old) (S.faults source.old) input.old)
        (desk (S.left source.new) (S.faults source.new) input.new) result }
{
    if !input.next(source)? {
        return Ok(());
    }
    Err(InputFault::Refused(Refusal {
        reason: Reason::BadLine(input.number()),
        names: Listed::empty(alloc),
    }))
}

/// The text of what is cleared of an input, or what is said against it.
fn clear_wishes<S: Source>(
    alloc: Global,
    input: &mut Input,
    source: &mut S,
) -> Result<Vec<u8>, InputFault<Refusal>>
    requires { input.old ≡ fresh }
    ensures cleared { IfOk result (λ t. Ends (λ bytes. IsCleared bytes t.items) (desk (S.left source.old) (S.faults source.old) fresh)
        (desk (S.left source.new) (S.faults source.new) input.new)) }
    ensures stops { (has : List ℕ → Bool) → IfErr result (λ e. Stops (IsCommandRefusal has Clear) (desk (S.left source.old) (S.faults source.old) fresh)
        (desk (S.left source.new) (S.faults source.new) input.new) e) }
{
    let text = first_wishes(alloc, input, source)?;
    match refuse_further_line(alloc, input, source) {
        Ok(()) => Ok(text),
        Err(fault) => Err(fault),
    }
}

/// Clears wishes, for which no strategy is asked.
pub(crate) fn clear<S: Source, K: Sink, A: Strategies>(
    alloc: Global,
    _strategies: &A,
    input: &mut Input,
    source: &mut S,
    sink: &mut K,
) -> Status
    requires { input.old ≡ fresh }
    ensures { CommandSays (given_strategies (A.holds _strategies.now) (A.gives _strategies.now)) Clear
        (streams (S.left source.old) (S.faults source.old) (K.taken sink.old) (K.faults sink.old))
        (streams (S.left source.new) (S.faults source.new) (K.taken sink.new) (K.faults sink.new)) result }
{
    match clear_wishes(alloc, input, source) {
        Ok(text) => write_plain_text(sink, &text),
        Err(fault) => unread(input.stop(source, fault)),
    }
}
