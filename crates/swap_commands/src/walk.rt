//! A walk along the lines of an input: each line tells an event, which is taken before the next
//! line is read.

ghost use Rattle.std.specs.Prelude.{◌≡◌, ℕ, List, Result, Err, IfErr, OnOk};
ghost use Rattle.swap_base.specs.Fault.{Fails};
ghost use Rattle.command_input.specs.Input.{Fits, ahead, desk};
ghost use Rattle.swap_commands.specs.Walk.{HasTakenEvent, IsWalked, ReadsOrStops, lines_told};

use command_input::{Input, InputFault};
use std::alloc::Global;
use swap_base::Fault;
use swap_io::Source;

/// What takes the events of an input's lines, in a context that stays the same.
pub(crate) trait Walker<C: Copy, R> {
    type Event;

    /// What holds before each line is taken, and after the last one.
    ghost can_take: { C → Self → Type 0 };

    /// The event of a line, or what is said against the line, by how many lines came before it, its
    /// number and its text.
    ghost told: { C → ℕ → ℕ → List ℕ → Result Self.Event R };

    /// Whether an event leads from the first value to the second.
    ghost leads: { C → Self → Self.Event → Self → Type 0 };

    /// Takes the event of a line. `count` lines came before it, and `line` is its number.
    fn take(
        &mut self,
        alloc: Global,
        context: C,
        count: u32,
        line: u32,
        text: &[u8],
    ) -> Result<(), Fault<R>>
        requires can { can_take context self.old }
        ensures can { OnOk result (can_take context self.new) }
        ensures taken { OnOk result (HasTakenEvent (leads context) (told context count line text.now) self.old self.new) }
        ensures refused { IfErr result (λ e. Fails e (told context count line text.now)) };
}

/// Takes events and does nothing.
#[derive(Drop)]
pub(crate) struct Skip;

/// Takes the events of the lines ahead.
pub(crate) fn walk<S: Source, C: Copy, R: Drop, W: Walker<C, R>>(
    alloc: Global,
    context: C,
    walker: &mut W,
    input: &mut Input,
    source: &mut S,
) -> Result<(), InputFault<R>>
    requires can { W.can_take context walker.old }
    requires fits { Fits (S.left source.old) input.old }
    ensures can { OnOk result (W.can_take context walker.new) }
    ensures reads { ReadsOrStops (λ _. IsWalked (W.leads context) (W.told context) walker.old walker.new)
        (λ bytes r. lines_told (W.told context) 0 (ahead input.old bytes) ≡ Err r)
        (desk (S.left source.old) (S.faults source.old) input.old) (desk (S.left source.new) (S.faults source.new) input.new) result }
{
    let mut count: u32 = 0;
    'lines: while input.next(source)? {
        walker.take(alloc, context, count, input.number(), input.text())?;
        count += 1;
    }
    Ok(())
}
