//! Ticks that go by.

ghost use Rattle.std.specs.Prelude.{◌≤◌, ◌<◌};
ghost use Rattle.lx_embed.specs.Imports.{IsErr, IsOkAnd, Desk, step, UndoState, StandsFor, after_ticks, UndoStands};
ghost use Rattle.lx_spec.specs.declared.Command.TheVariants as Command;

use lx_console::Console;
use lx_spec::Command;
use lx_undo::UndoDesk;

/// Lets this many ticks go by, and says how many were accepted: all of them, unless the moment comes to its end.
pub(crate) fn tick_plain(console: &mut Console, n: u32) -> u32
    ensures most { result ≤ n }
    ensures ticks { (d : Desk) → StandsFor d console.old → IsOkAnd (after_ticks result d) (λ next. StandsFor next console.new) }
    ensures end { result < n → (d : Desk) → StandsFor d console.new → IsErr (step d Command.Tick) }
{
    let mut left = n;
    'ticks: while left > 0 {
        left -= console.pass(left);
        if left > 0 {
            if console.tick().is_err() {
                return n - left;
            }
            left -= 1;
        }
    }
    n
}

/// As `tick_plain`, for a desk with a history, which stays as it is.
pub(crate) fn tick_undo(desk: &mut UndoDesk, n: u32) -> u32
    ensures most { result ≤ n }
    ensures ticks { (s : UndoState) → UndoStands s desk.old
        → IsOkAnd (after_ticks result s.desk) (λ next. UndoStands (record s { desk = next }) desk.new) }
    ensures end { result < n → (s : UndoState) → UndoStands s desk.new → IsErr (step s.desk Command.Tick) }
{
    let mut left = n;
    'ticks: while left > 0 {
        if desk.command(&Command::Tick).is_err() {
            return n - left;
        }
        left -= 1;
    }
    n
}
