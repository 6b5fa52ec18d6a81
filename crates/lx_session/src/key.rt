//! A line that presses a key or moves a fader, which is all that it does.

ghost use Rattle.std.specs.Prelude.{◌≡◌, ◌≢◌, IsTrue, Some, false, is_none, is_some, true};
ghost use Rattle.lx_session.specs.Imports.{HasSinkCause, Desk, StandsFor, Attempted, ListenedAttempt, heard_of, SparedAnswer, FromDesk};
ghost use Rattle.lx_session.specs.Imports.{TallyHasRoom, HasOneMore, GoesOnUnless};

use crate::finish::{give, reply_of};
use crate::listener::Listener;
use crate::tally::Tally;
use lx_console::Console;
use lx_io::{Sink, SinkFault};
use lx_spec::{Command, Key, Line, Refusal};

/// As `answer_in`, of a line that presses a key or moves a fader: no turn is made for it, since it has one command, by value. It takes
/// no memory.
pub(crate) fn answer_key<L: Listener, K: Sink>(
    listener: &mut L,
    console: &mut Console,
    key: Key,
    sink: &mut K,
    tally: &mut Tally,
) -> Result<bool, SinkFault>
    requires room { TallyHasRoom tally.old }
    requires keeps { L.keeps listener.old console.old }
    ensures keeps { L.keeps listener.new console.new }
    ensures answered { FromDesk console.old tally.old
        (λ s. SparedAnswer (L.admitted_all listener.new ≡ true) (L.admitted_all listener.new) (L.heard listener.old listener.new)
        K.Sink sink.old sink.new result s
        (Some (Line.Command (Command.Key key))) console.new tally.new) }
    ensures all { L.admitted_all listener.new ≡ true → L.admitted_all listener.old ≡ true }
    ensures goes_on { GoesOnUnless false result }
    ensures cause { HasSinkCause K.Sink sink.old sink.new result }
    ensures more { HasOneMore tally.old tally.new }
{
    let refusal = attempt_key(listener, &key, console);
    give(reply_of(refusal), sink, tally)
}

/// Attempts a key that the listener is asked to admit, and hears of where it is accepted. It says the refusal, if it is
/// refused. The console presses the key by value: so it has no room for the plan of an edit.
fn attempt_key<L: Listener>(listener: &mut L, key: &Key, console: &mut Console) -> Option<Refusal>
    requires keeps { L.keeps listener.old console.old }
    ensures keeps { L.keeps listener.new console.new }
    ensures attempted { (d : Desk) → StandsFor d console.old
        → ListenedAttempt (L.admitted_all listener.new) d (Command.Key key.now) result console.new }
    ensures heard { L.heard listener.old listener.new (heard_of (Command.Key key.now) result) }
    ensures memory { L.admitted_all listener.new ≡ true → result ≢ Some Refusal.Memory }
    ensures all { L.admitted_all listener.new ≡ true → L.admitted_all listener.old ≡ true }
{
    let command = Command::Key(*key);
    let admitted = listener.admit(&command);
    let refusal = try_key(key, console, admitted);
    if refusal.is_none() {
        listener.hear(&command, console);
    }
    refusal
}

/// The refusal of a key, if it is refused.
fn try_key(key: &Key, console: &mut Console, admitted: bool) -> Option<Refusal>
    ensures attempted { (d : Desk) → StandsFor d console.old → Attempted admitted d (Command.Key key.now) result console.new }
    ensures admitted { is_none result ≡ true → admitted ≡ true }
    ensures unchanged { IsTrue (is_some result) → console.new ≡ console.old }
    ensures memory { admitted ≡ true → result ≢ Some Refusal.Memory }
{
    if !admitted {
        return Some(Refusal::Memory);
    }
    console.press(*key).err()
}
