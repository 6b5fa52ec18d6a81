//! One script line on its way: its commands are attempted one after another.

ghost use Rattle.std.specs.Prelude.{◌≡◌, ◌≢◌, ◌-◌, ◌<◌, ◌≤◌, true, false, Some, is_some, is_none, option_copied, IsOkAnd, IsTrue, IfSome};
ghost use Rattle.lx_spec.specs.Desk.{Desk};
ghost use Rattle.lx_spec.specs.Script.{line_of};
ghost use Rattle.lx_spec.specs.DeskSession.{command_of, count_of};
ghost use Rattle.lx_spec.specs.TwoLists.{where_of_second};
ghost use Rattle.lx_spec.specs.Show.{InRange};
ghost use Rattle.lx_spec.specs.ValidEdit.{ValidCommand, ValidLine};
ghost use Rattle.lx_console.specs.ConsoleMeaning.{StandsFor};
ghost use Rattle.lx_console.specs.Ticks.{after_ticks};
ghost use Rattle.lx_session.specs.LineState.{unattempted, meaning_of, next_of, frame_of};
ghost use Rattle.lx_session.specs.Attempts.{Attempted};
ghost use Rattle.lx_session.specs.Spared.{IsAmple};
ghost use Rattle.lx_base.specs.declared.TheConstants.{UNIVERSES};

use lx_console::Console;
use lx_io::Heap;
use lx_script::{read_line, read_second_line};
use lx_spec::{Command, Line, Refusal};
use std::marker::Model;

/// A script line on its way. It holds what the line means, how many of its commands are still to be
/// attempted, and the refusal that ended them, if one did.
#[derive(Drop)]
pub struct Turn<'a> {
    pub(crate) line: Option<Line<'a>>,
    pub(crate) left: u32,
    pub(crate) refusal: Option<Refusal>,
    /// What is lent for each tick of a line `tick k`.
    tick: Command<'a>,
}

impl<'a> Model for Turn<'a> {
    ghost use Rattle.std.specs.Prelude.{◌≡◌};
    ghost use Rattle.lx_spec.specs.declared.Command.TheVariants as commands;
    ghost use Rattle.lx_session.specs.LineState.{LineState, IsLineState};

    ghost Value = { LineState };

    ghost view = { λ t. record { meaning = t.line; left = t.left; refusal = t.refusal } };

    ghost invariant = { λ t. IsLineState (record { meaning = t.line; left = t.left; refusal = t.refusal }) × (t.tick ≡ commands.Tick) };
}

/// What a line means. None stands for a line that is too long, which is bad.
#[inline(always)]
pub(crate) fn read_turn(line: Option<&[u8]>) -> Option<Line<'_>>
    ensures meaning { result ≡ meaning_of (option_copied line.entry) }
    ensures valid { IfSome result ValidLine }
{
    read_line(line?)
}

/// How many commands a line has.
fn count_of(line: &Option<Line>) -> u32
    ensures { result ≡ count_of line.now }
{
    match line {
        Some(Line::Command(_)) => 1,
        Some(Line::Ticks(count)) => *count,
        _ => 0,
    }
}

impl<'a> Turn<'a> {
    /// Takes up a line. None stands for a line that is too long, which is bad.
    pub fn begin(line: Option<&'a [u8]>) -> Turn<'a>
        ensures { result ≡ unattempted (meaning_of (option_copied line.entry)) }
    {
        Turn::of(read_turn(line))
    }

    /// Takes up the rest of a line that is for a second cue list. What such a list doesn't take is bad.
    pub fn begin_second(rest: &'a [u8]) -> Turn<'a>
        ensures { result ≡ unattempted (where_of_second (line_of rest.now)) }
    {
        Turn::of(read_second_line(rest))
    }

    /// Takes up a line that means this. None stands for a bad line.
    pub fn of(line: Option<Line<'a>>) -> Turn<'a>
        requires { IfSome line ValidLine }
        ensures { result ≡ unattempted line.entry }
    {
        Turn {
            left: count_of(&line),
            line,
            refusal: None,
            tick: Command::Tick,
        }
    }

    /// The command to attempt now: none where the line names no command, an attempt was refused, or all
    /// of them were made. A line `tick k` has k commands, any other command line has one.
    pub fn next(&self) -> Option<&Command<'a>>
        ensures { option_copied result ≡ next_of self.now }
    {
        if self.refusal.is_some() || self.left == 0 {
            return None;
        }
        match &self.line {
            Some(Line::Command(command)) => Some(command),
            Some(Line::Ticks(_)) => Some(&self.tick),
            _ => None,
        }
    }

    /// Says that the next command was attempted, and how it was refused, if it was.
    pub fn attempted(&mut self, refusal: Option<Refusal>)
        requires { IsTrue (is_some (next_of self.old)) }
        ensures { self.new ≡ record self.old { left = self.old.left - 1; refusal = refusal } }
    {
        self.left -= 1;
        self.refusal = refusal;
    }

    /// The universe whose frame the line asks for, if it does.
    pub fn frame_universe(&self) -> Option<u8>
        ensures universe { result ≡ frame_of self.now.meaning }
        ensures valid { IfSome result (InRange UNIVERSES) }
    {
        match &self.line {
            Some(Line::Frame(universe)) => Some(*universe),
            _ => None,
        }
    }

    /// A line `tick k`.
    fn is_ticks(&self) -> bool
        ensures { result ≡ true → command_of self.now.meaning ≡ Some Command.Tick }
    {
        matches!(&self.line, Some(Line::Ticks(_)))
    }

    /// Makes as many attempts of a line `tick k` at once as `Console::pass` lets pass, and says how many.
    pub(crate) fn pass_ticks(&mut self, console: &mut Console) -> u32
        ensures within { result ≤ self.old.left }
        ensures tick { 0 < result → next_of self.old ≡ Some Command.Tick }
        ensures turn { self.new ≡ record self.old { left = self.old.left - result } }
        ensures stands { (d : Desk) → StandsFor d console.old → IsOkAnd (after_ticks result d) (λ next. StandsFor next console.new) }
    {
        if self.refusal.is_some() || !self.is_ticks() {
            return 0;
        }
        let ticks = console.pass(self.left);
        self.left -= ticks;
        ticks
    }
}

/// The refusal of a command, if it is refused. One that was admitted is refused with `Memory` only where the heap refused memory.
pub(crate) fn try_command<H: Heap>(
    heap: &mut H,
    command: &Command,
    console: &mut Console,
    admitted: bool,
) -> Option<Refusal>
    requires { ValidCommand command.now }
    ensures attempted { (d : Desk) → StandsFor d console.old → Attempted admitted d command.now result console.new }
    ensures admitted { is_none result ≡ true → admitted ≡ true }
    ensures unchanged { IsTrue (is_some result) → console.new ≡ console.old }
    ensures memory { IsAmple admitted (H.refusals heap.old) (H.refusals heap.new) → result ≢ Some Refusal.Memory }
    ensures later { H.refusals heap.old ≤ H.refusals heap.new }
{
    if !admitted {
        return Some(Refusal::Memory);
    }
    console.command_in(heap, command).err()
}
