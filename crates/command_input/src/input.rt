//! An input that is read line by line.

ghost use Rattle.std.specs.Prelude.{◌≡◌, ◌≤◌, ◌+◌, [], length, true, false, IfOk, IfErr, OnOk};
ghost use Rattle.command_input.specs.Input.{InputProgress, Breaks, Drains, Fits, GivesNoLine, GivesLine, GivesPart, IsDrained, IsDropped, CountsLine, desk, fresh, limit, past_empty};

use crate::fault::InputFault;
use crate::lines::is_blank;
use std::alloc::Global;
use std::marker::Model;
use swap_base::NoMemory;
use swap_io::{DrainFault, LineEnd, LineFault, Lines, Source};

/// The most bytes of an input.
pub const INPUT_LIMIT: usize = 16_777_216;

/// How far an input was read: the last line that was given, and its number.
#[derive(Drop)]
pub struct Input {
    lines: Lines,
    line: Vec<u8>,
    number: u32,
    over: bool,
}

impl Model for Input {
    ghost Value = { InputProgress };

    ghost view = { λ i. record { reading = i.lines; number = i.number; text = i.line.items; over = i.over } };

    ghost invariant = { λ i. (i.lines.limit ≡ limit) × (i.number + length i.lines.kept ≤ i.lines.taken)
        × (i.over ≡ true → (i.lines.kept ≡ []) × (i.lines.taken ≤ limit)) };
}

impl Input {
    /// Before the first line: no byte was taken yet.
    pub fn new(alloc: Global) -> Result<Input, NoMemory>
        ensures { IfOk result (λ i. i ≡ fresh) }
    {
        Ok(Input {
            lines: Lines::new(alloc, INPUT_LIMIT)?,
            line: Vec::new(alloc),
            number: 0,
            over: false,
        })
    }

    /// The last line that was given, without its line feed.
    pub fn text(&self) -> &[u8]
        ensures { result.now ≡ self.now.text }
    {
        &self.line
    }

    /// Its number, from 1.
    pub fn number(&self) -> u32
        ensures { result ≡ self.now.number }
    {
        self.number
    }

    /// Takes the next bytes up to a line feed or the end as the line, counts it unless no byte came,
    /// and answers what ended it.
    fn take_line<S: Source>(&mut self, source: &mut S) -> Result<LineEnd, LineFault>
        requires open_yet { self.old.over ≡ false }
        ensures takes { IfOk result (λ end. CountsLine end (desk (S.left source.old) (S.faults source.old) self.old)
            (desk (S.left source.new) (S.faults source.new) self.new)) }
        ensures fails { IfErr result (GivesNoLine (desk (S.left source.old) (S.faults source.old) self.old)
            (desk (S.left source.new) (S.faults source.new) self.new)) }
    {
        match self.lines.next(source, &mut self.line)? {
            LineEnd::Ended => {
                self.number += 1;
                Ok(LineEnd::Ended)
            }
            LineEnd::Rest => {
                self.number += 1;
                self.over = true;
                Ok(LineEnd::Rest)
            }
            LineEnd::End => {
                self.over = true;
                Ok(LineEnd::End)
            }
        }
    }

    /// Goes to the next line that a line feed ended, or to what stands after the last line feed,
    /// and answers which.
    pub fn part<S: Source>(&mut self, source: &mut S) -> Result<bool, LineFault>
        requires { self.old.over ≡ false }
        ensures gives { IfOk result (λ more. GivesPart more (desk (S.left source.old) (S.faults source.old) self.old)
            (desk (S.left source.new) (S.faults source.new) self.new)) }
        ensures fails { IfErr result (GivesNoLine (desk (S.left source.old) (S.faults source.old) self.old)
            (desk (S.left source.new) (S.faults source.new) self.new)) }
    {
        match self.take_line(source)? {
            LineEnd::Ended => Ok(true),
            LineEnd::Rest | LineEnd::End => Ok(false),
        }
    }

    /// Passes over the empty lines that were taken already, without copying them.
    fn pass_empty(&mut self)
        ensures { self.new ≡ past_empty self.old }
    {
        self.number += self.lines.pass_feeds() as u32;
    }

    /// Goes to the next line that isn't blank, and answers whether there is one.
    pub fn next<S: Source>(&mut self, source: &mut S) -> Result<bool, LineFault>
        requires { Fits (S.left source.old) self.old }
        ensures gives { IfOk result (λ more. GivesLine more (desk (S.left source.old) (S.faults source.old) self.old)
            (desk (S.left source.new) (S.faults source.new) self.new)) }
        ensures fails { IfErr result (GivesNoLine (desk (S.left source.old) (S.faults source.old) self.old)
            (desk (S.left source.new) (S.faults source.new) self.new)) }
    {
        'lines: while !self.is_finished() {
            match self.take_line(source)? {
                LineEnd::End => return Ok(false),
                LineEnd::Ended | LineEnd::Rest => {
                    if !is_blank(self.text()) {
                        return Ok(true);
                    }
                    self.pass_empty();
                }
            }
        }
        Ok(false)
    }

    /// Whether the end was met.
    fn is_finished(&self) -> bool
        ensures over { result ≡ self.now.over }
        ensures kept { self.now.over ≡ true → self.now.reading.kept ≡ [] }
    {
        self.over
    }

    /// Takes and drops the rest of the input.
    fn drain<S: Source>(&mut self, source: &mut S) -> Result<(), DrainFault>
        ensures drained { OnOk result (IsDrained (desk (S.left source.old) (S.faults source.old) self.old)
            (desk (S.left source.new) (S.faults source.new) self.new)) }
        ensures fails { IfErr result (Breaks (desk (S.left source.old) (S.faults source.old) self.old)
            (desk (S.left source.new) (S.faults source.new) self.new)) }
        ensures dropped { IsDropped self.old self.new }
    {
        if self.over {
            return Ok(());
        }
        self.lines.drain(source)
    }

    /// What stopped the reading. Where something is said against the input the rest is taken first,
    /// since a fault of reading comes before it.
    pub fn stop<S: Source, R: Drop>(
        &mut self,
        source: &mut S,
        fault: InputFault<R>,
    ) -> InputFault<R>
        ensures { Drains (desk (S.left source.old) (S.faults source.old) self.old) (desk (S.left source.new) (S.faults source.new) self.new) fault result }
    {
        match fault {
            InputFault::Refused(said) => match self.drain(source) {
                Ok(()) => InputFault::Refused(said),
                Err(fault) => InputFault::from(fault),
            },
            InputFault::ReadFault => InputFault::ReadFault,
            InputFault::TooLong => InputFault::TooLong,
            InputFault::NoMemory => InputFault::NoMemory,
        }
    }
}
