//! One line, from its bytes to its reply.

ghost use Rattle.std.specs.Prelude.{◌≡◌, ◌≢◌, ◌≤◌, ◌++◌, IfSome, None, Some, true, option_copied};
ghost use Rattle.lx_session.specs.Imports.{HasSinkCause, Desk, is_quit, DeskState, ValidCommand, ValidLine, StandsFor, ListenedAttempt};
ghost use Rattle.lx_session.specs.Imports.{heard_of, meaning_of, next_of, HasPassed, LineProgress, TallyHasRoom, HasOneMore, LineAnswer};
ghost use Rattle.lx_session.specs.Imports.{SparedAnswer, FromDesk, IsAmple, GoesOnUnless};

use crate::finish::{give, put_universe};
use crate::key::answer_key;
use crate::listener::Listener;
use crate::tally::Tally;
use crate::turn::{Turn, read_turn, try_command};
use lx_console::Console;
use lx_io::{Heap, Sink, SinkFault, SystemHeap};
use lx_script::{Reply, lone_key};
use lx_spec::{Command, Key, Line, PlayKey, Refusal};

/// Does what a line asks for, then appends its replies and counts them. None stands for a line that is too
/// long, which is bad. It answers false exactly for `quit`.
///
/// A fault comes only where the sink answered it in this call; then a prefix of the replies was appended, and
/// the line's commands were applied.
pub fn answer<L: Listener, K: Sink>(
    listener: &mut L,
    console: &mut Console,
    line: Option<&[u8]>,
    sink: &mut K,
    tally: &mut Tally,
) -> Result<bool, SinkFault>
    requires room { TallyHasRoom tally.old }
    requires keeps { L.keeps listener.old console.old }
    ensures keeps { L.keeps listener.new console.new }
    ensures answered { FromDesk console.old tally.old
        (λ s. LineAnswer (L.admitted_all listener.new) (L.heard listener.old listener.new) K.Sink sink.old sink.new result s
        (meaning_of (option_copied line.entry)) console.new tally.new) }
    ensures all { L.admitted_all listener.new ≡ true → L.admitted_all listener.old ≡ true }
    ensures quit { GoesOnUnless (is_quit (meaning_of (option_copied line.entry))) result }
    ensures cause { HasSinkCause K.Sink sink.old sink.new result }
    ensures more { HasOneMore tally.old tally.new }
{
    let mut heap = SystemHeap::new(console.allocator());
    answer_in(listener, &mut heap, console, line, sink, tally)
}

/// The same, by a heap. Where the listener has admitted every command so far, one is refused with `Memory` only where the heap refused
/// memory in this call.
pub fn answer_in<L: Listener, H: Heap, K: Sink>(
    listener: &mut L,
    heap: &mut H,
    console: &mut Console,
    line: Option<&[u8]>,
    sink: &mut K,
    tally: &mut Tally,
) -> Result<bool, SinkFault>
    requires room { TallyHasRoom tally.old }
    requires keeps { L.keeps listener.old console.old }
    ensures keeps { L.keeps listener.new console.new }
    ensures answered { FromDesk console.old tally.old
        (λ s. SparedAnswer (IsAmple (L.admitted_all listener.new) (H.refusals heap.old) (H.refusals heap.new)) (L.admitted_all listener.new)
        (L.heard listener.old listener.new) K.Sink sink.old sink.new result s
        (meaning_of (option_copied line.entry)) console.new tally.new) }
    ensures all { L.admitted_all listener.new ≡ true → L.admitted_all listener.old ≡ true }
    ensures quit { GoesOnUnless (is_quit (meaning_of (option_copied line.entry))) result }
    ensures cause { HasSinkCause K.Sink sink.old sink.new result }
    ensures more { HasOneMore tally.old tally.new }
    ensures later { H.refusals heap.old ≤ H.refusals heap.new }
{
    if let Some(key) = read_lone_key(line) {
        return answer_key(listener, console, Key::Play(key), sink, tally);
    }
    answer_any(listener, heap, console, line, sink, tally)
}

/// The same, for a caller that answers one line at a time: it pays for no further call where the line is no lone key.
#[inline(always)]
pub fn answer_inlined<L: Listener, H: Heap, K: Sink>(
    listener: &mut L,
    heap: &mut H,
    console: &mut Console,
    line: Option<&[u8]>,
    sink: &mut K,
    tally: &mut Tally,
) -> Result<bool, SinkFault>
    requires room { TallyHasRoom tally.old }
    requires keeps { L.keeps listener.old console.old }
    ensures keeps { L.keeps listener.new console.new }
    ensures answered { FromDesk console.old tally.old
        (λ s. SparedAnswer (IsAmple (L.admitted_all listener.new) (H.refusals heap.old) (H.refusals heap.new)) (L.admitted_all listener.new)
        (L.heard listener.old listener.new) K.Sink sink.old sink.new result s
        (meaning_of (option_copied line.entry)) console.new tally.new) }
    ensures all { L.admitted_all listener.new ≡ true → L.admitted_all listener.old ≡ true }
    ensures quit { GoesOnUnless (is_quit (meaning_of (option_copied line.entry))) result }
    ensures cause { HasSinkCause K.Sink sink.old sink.new result }
    ensures more { HasOneMore tally.old tally.new }
    ensures later { H.refusals heap.old ≤ H.refusals heap.new }
{
    match read_lone_key(line) {
        Some(key) => answer_key(listener, console, Key::Play(key), sink, tally),
        None => read_and_answer(listener, heap, console, line, sink, tally),
    }
}

/// The key that a line presses which is that key's word in small letters and nothing else. Of any other line it says nothing.
#[inline(always)]
fn read_lone_key(line: Option<&[u8]>) -> Option<PlayKey>
    ensures { IfSome result (λ key. meaning_of (option_copied line.entry) ≡ Some (Line.Command (Command.Key (Key.Play key)))) }
{
    lone_key(line?)
}

/// As `answer_in`, of any line. It is a function of its own, so that a lone key doesn't pay for the room of what a line means.
#[inline(never)]
fn answer_any<L: Listener, H: Heap, K: Sink>(
    listener: &mut L,
    heap: &mut H,
    console: &mut Console,
    line: Option<&[u8]>,
    sink: &mut K,
    tally: &mut Tally,
) -> Result<bool, SinkFault>
    requires room { TallyHasRoom tally.old }
    requires keeps { L.keeps listener.old console.old }
    ensures keeps { L.keeps listener.new console.new }
    ensures answered { FromDesk console.old tally.old
        (λ s. SparedAnswer (IsAmple (L.admitted_all listener.new) (H.refusals heap.old) (H.refusals heap.new)) (L.admitted_all listener.new)
        (L.heard listener.old listener.new) K.Sink sink.old sink.new result s
        (meaning_of (option_copied line.entry)) console.new tally.new) }
    ensures all { L.admitted_all listener.new ≡ true → L.admitted_all listener.old ≡ true }
    ensures quit { GoesOnUnless (is_quit (meaning_of (option_copied line.entry))) result }
    ensures cause { HasSinkCause K.Sink sink.old sink.new result }
    ensures more { HasOneMore tally.old tally.new }
    ensures later { H.refusals heap.old ≤ H.refusals heap.new }
{
    read_and_answer(listener, heap, console, line, sink, tally)
}

/// As `answer_in`, of any line, in the place of its call.
#[inline(always)]
fn read_and_answer<L: Listener, H: Heap, K: Sink>(
    listener: &mut L,
    heap: &mut H,
    console: &mut Console,
    line: Option<&[u8]>,
    sink: &mut K,
    tally: &mut Tally,
) -> Result<bool, SinkFault>
    requires room { TallyHasRoom tally.old }
    requires keeps { L.keeps listener.old console.old }
    ensures keeps { L.keeps listener.new console.new }
    ensures answered { FromDesk console.old tally.old
        (λ s. SparedAnswer (IsAmple (L.admitted_all listener.new) (H.refusals heap.old) (H.refusals heap.new)) (L.admitted_all listener.new)
        (L.heard listener.old listener.new) K.Sink sink.old sink.new result s
        (meaning_of (option_copied line.entry)) console.new tally.new) }
    ensures all { L.admitted_all listener.new ≡ true → L.admitted_all listener.old ≡ true }
    ensures quit { GoesOnUnless (is_quit (meaning_of (option_copied line.entry))) result }
    ensures cause { HasSinkCause K.Sink sink.old sink.new result }
    ensures more { HasOneMore tally.old tally.new }
    ensures later { H.refusals heap.old ≤ H.refusals heap.new }
{
    match read_turn(line) {
        None => give(Reply::Bad, sink, tally),
        Some(Line::Command(Command::Key(key))) => answer_key(listener, console, key, sink, tally),
        Some(Line::Frame(universe)) => put_universe(universe, console, sink),
        Some(line) => answer_read(listener, heap, console, line, sink, tally),
    }
}

/// As `answer_in`, of a line that means this. It is a function of its own, so that keys and bad lines don't pay for the room of its turn.
#[inline(never)]
fn answer_read<L: Listener, H: Heap, K: Sink>(
    listener: &mut L,
    heap: &mut H,
    console: &mut Console,
    line: Line,
    sink: &mut K,
    tally: &mut Tally,
) -> Result<bool, SinkFault>
    requires valid { ValidLine line }
    requires room { TallyHasRoom tally.old }
    requires keeps { L.keeps listener.old console.old }
    ensures keeps { L.keeps listener.new console.new }
    ensures answered { FromDesk console.old tally.old
        (λ s. SparedAnswer (IsAmple (L.admitted_all listener.new) (H.refusals heap.old) (H.refusals heap.new)) (L.admitted_all listener.new)
        (L.heard listener.old listener.new) K.Sink sink.old sink.new result s
        (Some line.entry) console.new tally.new) }
    ensures all { L.admitted_all listener.new ≡ true → L.admitted_all listener.old ≡ true }
    ensures quit { GoesOnUnless (is_quit (Some line.entry)) result }
    ensures cause { HasSinkCause K.Sink sink.old sink.new result }
    ensures more { HasOneMore tally.old tally.new }
    ensures later { H.refusals heap.old ≤ H.refusals heap.new }
{
    let mut turn = Turn::of(Some(line));
    attempt_all(listener, heap, &mut turn, console);
    turn.finish(console, sink, tally)
}

/// Attempts the commands of a line.
fn attempt_all<L: Listener, H: Heap>(
    listener: &mut L,
    heap: &mut H,
    turn: &mut Turn,
    console: &mut Console,
)
    requires start { turn.old.refusal ≡ None }
    requires valid { IfSome turn.old.meaning ValidLine }
    requires keeps { L.keeps listener.old console.old }
    ensures keeps { L.keeps listener.new console.new }
    ensures all { L.admitted_all listener.new ≡ true → L.admitted_all listener.old ≡ true }
    ensures meaning { turn.new.meaning ≡ turn.old.meaning }
    ensures over { next_of turn.new ≡ None }
    ensures tried { (s : DeskState) → StandsFor s.desk console.old
        → LineProgress (L.admitted_all listener.new) (L.heard listener.old listener.new) s turn.old turn.new console.new }
    ensures memory { IsAmple (L.admitted_all listener.new) (H.refusals heap.old) (H.refusals heap.new) → turn.new.refusal ≢ Some Refusal.Memory }
    ensures later { H.refusals heap.old ≤ H.refusals heap.new }
{
    pass_ticks(listener, turn, console);
    'commands: while let Some(command) = turn.next() {
        let refusal = attempt_one(listener, heap, command, console);
        turn.attempted(refusal);
        pass_ticks(listener, turn, console);
    }
}

/// Makes attempts at ticks at once, where nothing starts or ends at them and the listener isn't to hear of each.
fn pass_ticks<L: Listener>(listener: &L, turn: &mut Turn, console: &mut Console)
    requires keeps { L.keeps listener.now console.old }
    ensures keeps { L.keeps listener.now console.new }
    ensures passed { HasPassed (L.heard listener.now listener.now) turn.old turn.new console.old console.new }
{
    if listener.hears_ticks() {
        return;
    }
    turn.pass_ticks(console);
}

/// Attempts a command that the listener is asked to admit, and hears of where it is accepted. It says the refusal, if it is
/// refused. It is a function of its own, with the room of an edit's plan.
#[inline(never)]
fn attempt_one<L: Listener, H: Heap>(
    listener: &mut L,
    heap: &mut H,
    command: &Command,
    console: &mut Console,
) -> Option<Refusal>
    requires valid { ValidCommand command.now }
    requires keeps { L.keeps listener.old console.old }
    ensures keeps { L.keeps listener.new console.new }
    ensures attempted { (d : Desk) → StandsFor d console.old → ListenedAttempt (L.admitted_all listener.new) d command.now result console.new }
    ensures heard { L.heard listener.old listener.new (heard_of command.now result) }
    ensures memory { IsAmple (L.admitted_all listener.new) (H.refusals heap.old) (H.refusals heap.new) → result ≢ Some Refusal.Memory }
    ensures later { H.refusals heap.old ≤ H.refusals heap.new }
    ensures all { L.admitted_all listener.new ≡ true → L.admitted_all listener.old ≡ true }
{
    let admitted = listener.admit(command);
    let refusal = try_command(heap, command, console, admitted);
    if refusal.is_none() {
        listener.hear(command, console);
    }
    refusal
}
