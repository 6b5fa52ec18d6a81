//! The commands of a line, attempted on the list that they are for.

ghost use Rattle.std.specs.Prelude.{◌≡◌, ◌≢◌, ◌≤◌, None, Some, IfSome, IsTrue, true};
ghost use Rattle.lx_lists.specs.Imports.{begun, command_of, TwoDesks, commands_second, ValidCommand, ValidLine, Attempted, heard_of};
ghost use Rattle.lx_lists.specs.Imports.{LineProgress, HasStood, next_of, unattempted, TwoStand, TicksReach, Stays};

use crate::desk::TwoLists;
use lx_io::Heap;
use lx_session::Turn;
use lx_show::{Command, Refusal};

/// Attempts the commands of a line of the first list; its ticks are of both.
pub(crate) fn attempt_all<H: Heap>(desk: &mut TwoLists, heap: &mut H, turn: &mut Turn)
    requires start { turn.old ≡ unattempted turn.old.meaning }
    requires valid { IfSome turn.old.meaning ValidLine }
    ensures over { next_of turn.new ≡ None }
    ensures meaning { turn.new.meaning ≡ turn.old.meaning }
    ensures tried { (s : TwoDesks) → TwoStand s desk.old
        → LineProgress true (TicksReach s.second desk.new.second) (begun s.first) turn.old turn.new desk.new.first }
    ensures memory { HasStood (H.refusals heap.old) (H.refusals heap.new) → turn.new.refusal ≢ Some Refusal.Memory }
    ensures later { H.refusals heap.old ≤ H.refusals heap.new }
{
    'commands: while let Some(command) = turn.next() {
        let refusal = attempt(desk, heap, command);
        turn.attempted(refusal);
    }
}

/// Attempts a command of the first list, or a tick of both.
fn attempt<H: Heap>(desk: &mut TwoLists, heap: &mut H, command: &Command) -> Option<Refusal>
    requires { ValidCommand command.now }
    ensures first { (s : TwoDesks) → TwoStand s desk.old → Attempted true s.first command.now result desk.new.first }
    ensures second { (s : TwoDesks) → TwoStand s desk.old
        → TicksReach s.second desk.new.second (heard_of command.now result) }
    ensures memory { HasStood (H.refusals heap.old) (H.refusals heap.new) → result ≢ Some Refusal.Memory }
    ensures later { H.refusals heap.old ≤ H.refusals heap.new }
{
    match command {
        Command::Tick => desk.tick().err(),
        _ => desk.first_in(heap, command).err(),
    }
}

/// Attempts the command of a line of the second list, if it has one.
pub(crate) fn attempt_second<H: Heap>(desk: &mut TwoLists, heap: &mut H, turn: &mut Turn)
    requires start { turn.old ≡ unattempted turn.old.meaning }
    requires valid { IfSome turn.old.meaning ValidLine }
    requires taken { IfSome (command_of turn.old.meaning) (λ command. IsTrue (commands_second command)) }
    ensures over { next_of turn.new ≡ None }
    ensures meaning { turn.new.meaning ≡ turn.old.meaning }
    ensures tried { (s : TwoDesks) → TwoStand s desk.old
        → LineProgress true (Stays s.first desk.new.first) (begun s.second) turn.old turn.new desk.new.second }
    ensures memory { HasStood (H.refusals heap.old) (H.refusals heap.new) → turn.new.refusal ≢ Some Refusal.Memory }
    ensures later { H.refusals heap.old ≤ H.refusals heap.new }
{
    if let Some(command) = turn.next() {
        let refusal = desk.second_in(heap, command).err();
        turn.attempted(refusal);
    }
}
