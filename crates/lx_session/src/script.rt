//! A session: script lines are read one after another, and each is answered before the next is awaited.

ghost use Rattle.std.specs.Prelude.{◌≡◌, ◌≤◌, ℕ, Bool, true, Option, None, IfSome};
ghost use Rattle.lx_session.specs.Imports.{CanAdvance, SameSource, bytes_taken, source_left, unread, Desk, begun, desk_answering};
ghost use Rattle.lx_session.specs.Imports.{StandsFor, ScriptAnswered, HasDone, ByRefusals, IsMost, HasSessionCause};
ghost use Rattle.lx_session.specs.Imports.{KeepsLimit, HandsOnReplies};
ghost use Rattle.lx_base.specs.declared.TheConstants.{INPUT_BYTES};

use crate::answers::Answers;
use crate::beside::AnswersBeside;
use crate::fault::SessionFault;
use crate::listener::{Listener, NoListener};
use crate::take::take_line;
use crate::tally::Tally;
use lx_console::Console;
use lx_io::{Heap, Sink, Source, SystemHeap};
use lx_lex::Lines;

/// Answers the script lines that are left, up to `quit` or the end, on a console. Each line is done and
/// its reply appended before the next is awaited.
///
/// `ReadFault` comes only where the source failed, `InputTooLong` exactly where a wanted line has a byte
/// past the limit of the input; the lines before it are then wholly answered. `WriteFault` and `Memory`
/// come only where the sink answered them; what was written is then a prefix of the whole text. A fault of the
/// input comes only where the output had none, and one of the output only where the input had none. With Ok all
/// of the text is handed on, and no count of faults rose. Where a read fails, all replies before it are handed on.
/// However it ends, the console stands for the desk after the commands that were accepted.
pub fn session<S: Source, K: Sink>(
    console: &mut Console,
    lines: &mut Lines<S>,
    sink: &mut K,
) -> Result<Tally, SessionFault>
    requires going { CanAdvance lines.old }
    requires within { bytes_taken lines.old ≤ INPUT_BYTES }
    ensures same_source { SameSource lines.old lines.new }
    ensures outcome { (d : Desk) → StandsFor d console.old
        → IfSome (unread S.Source lines.old)
        (λ bytes. ScriptAnswered (desk_answering true) None (HasDone (λ commands. Unit {0}) d console.new) (begun d) (bytes_taken lines.old) bytes
        (unread S.Source lines.new) (source_left S.Source lines.new) (K.holds sink.old) (K.holds sink.new) result) }
    ensures limit { IfSome (unread S.Source lines.old) (λ bytes. KeepsLimit (bytes_taken lines.old) bytes result) }
    ensures cause { HasSessionCause S.Source K.Sink lines.old lines.new sink.old sink.new result }
    ensures handed_on { HandsOnReplies result (K.back sink.new) }
{
    let mut heap = SystemHeap::new(console.allocator());
    session_in(&mut heap, console, lines, sink)
}

/// As `session`, by a heap: at most as many lines as it refused calls in this call failed as out of memory, and none where it refused none.
pub fn session_in<H: Heap, S: Source, K: Sink>(
    heap: &mut H,
    console: &mut Console,
    lines: &mut Lines<S>,
    sink: &mut K,
) -> Result<Tally, SessionFault>
    requires going { CanAdvance lines.old }
    requires within { bytes_taken lines.old ≤ INPUT_BYTES }
    ensures same_source { SameSource lines.old lines.new }
    ensures outcome { ByRefusals (H.refusals heap.old) (H.refusals heap.new) (λ most. (d : Desk) → StandsFor d console.old
        → IfSome (unread S.Source lines.old)
        (λ bytes. ScriptAnswered (desk_answering true) most (HasDone (λ commands. Unit {0}) d console.new) (begun d)
        (bytes_taken lines.old) bytes (unread S.Source lines.new) (source_left S.Source lines.new) (K.holds sink.old) (K.holds sink.new) result)) }
    ensures limit { IfSome (unread S.Source lines.old) (λ bytes. KeepsLimit (bytes_taken lines.old) bytes result) }
    ensures cause { HasSessionCause S.Source K.Sink lines.old lines.new sink.old sink.new result }
    ensures handed_on { HandsOnReplies result (K.back sink.new) }
    ensures later { H.refusals heap.old ≤ H.refusals heap.new }
{
    session_with_in(&mut NoListener, heap, console, lines, sink)
}

/// As `session_in`, with a listener: a command that it doesn't admit isn't accepted, and it hears of each command that is, in
/// order. Where every command was admitted, at most as many lines as the heap refused calls in this call failed as out of memory.
pub fn session_with_in<L: Listener, H: Heap, S: Source, K: Sink>(
    listener: &mut L,
    heap: &mut H,
    console: &mut Console,
    lines: &mut Lines<S>,
    sink: &mut K,
) -> Result<Tally, SessionFault>
    requires going { CanAdvance lines.old }
    requires within { bytes_taken lines.old ≤ INPUT_BYTES }
    requires keeps { L.keeps listener.old console.old }
    ensures same_source { SameSource lines.old lines.new }
    ensures keeps { L.keeps listener.new console.new }
    ensures outcome { (most : Option ℕ) → IfSome most (IsMost (L.admitted_all listener.new) (H.refusals heap.old) (H.refusals heap.new))
        → (d : Desk) → StandsFor d console.old
        → IfSome (unread S.Source lines.old)
        (λ bytes. ScriptAnswered (desk_answering (L.admitted_all listener.new)) most
        (HasDone (L.heard listener.old listener.new) d console.new) (begun d) (bytes_taken lines.old) bytes
        (unread S.Source lines.new) (source_left S.Source lines.new) (K.holds sink.old) (K.holds sink.new) result) }
    ensures limit { IfSome (unread S.Source lines.old) (λ bytes. KeepsLimit (bytes_taken lines.old) bytes result) }
    ensures cause { HasSessionCause S.Source K.Sink lines.old lines.new sink.old sink.new result }
    ensures handed_on { HandsOnReplies result (K.back sink.new) }
    ensures later { H.refusals heap.old ≤ H.refusals heap.new }
{
    answer_each(listener, console, heap, lines, sink)
}

/// Answers the script lines that are left, up to `quit` or the end. Each line is done and its replies appended
/// before the next is awaited.
///
/// `ReadFault` comes only where the source failed, `InputTooLong` exactly where a wanted line has a byte
/// past the limit of the input; the lines before it are then wholly answered. `WriteFault` and `Memory`
/// come only where the sink answered them; what was written is then a prefix of the whole text. A fault of the
/// input comes only where the output had none, and one of the output only where the input had none. Where a read
/// fails, all replies before it are handed on. However it ends, what answers stands for the state after the lines
/// that were done.
///
/// At most as many lines as the heap refused calls in this call failed.
pub fn answer_lines_in<A: Answers, H: Heap, S: Source, K: Sink>(
    answerer: &mut A,
    heap: &mut H,
    lines: &mut Lines<S>,
    sink: &mut K,
) -> Result<Tally, SessionFault>
    requires going { CanAdvance lines.old }
    requires within { bytes_taken lines.old ≤ INPUT_BYTES }
    ensures same_source { SameSource lines.old lines.new }
    ensures outcome { ByRefusals (H.refusals heap.old) (H.refusals heap.new) (λ most. (state : A.by.State) → A.stands state answerer.old
        → IfSome (unread S.Source lines.old)
        (λ bytes. ScriptAnswered A.by most (λ s. A.stands s answerer.new) state (bytes_taken lines.old) bytes
        (unread S.Source lines.new) (source_left S.Source lines.new) (K.holds sink.old) (K.holds sink.new) result)) }
    ensures limit { IfSome (unread S.Source lines.old) (λ bytes. KeepsLimit (bytes_taken lines.old) bytes result) }
    ensures cause { HasSessionCause S.Source K.Sink lines.old lines.new sink.old sink.new result }
    ensures handed_on { HandsOnReplies result (K.back sink.new) }
    ensures later { H.refusals heap.old ≤ H.refusals heap.new }
{
    answer_each(answerer, &mut (), heap, lines, sink)
}

/// As `answer_lines_in`, beside what is lent.
fn answer_each<D, A: AnswersBeside<D>, H: Heap, S: Source, K: Sink>(
    answerer: &mut A,
    lent: &mut D,
    heap: &mut H,
    lines: &mut Lines<S>,
    sink: &mut K,
) -> Result<Tally, SessionFault>
    requires going { CanAdvance lines.old }
    requires within { bytes_taken lines.old ≤ INPUT_BYTES }
    requires keeps { A.keeps answerer.old lent.old }
    ensures same_source { SameSource lines.old lines.new }
    ensures keeps { A.keeps answerer.new lent.new }
    ensures outcome { (all : Bool) (most : Option ℕ) → (all ≡ true → A.admitted_all answerer.new ≡ true)
        → IfSome most (IsMost (A.admitted_all answerer.new) (H.refusals heap.old) (H.refusals heap.new))
        → (since : A.Since) (state : (A.by all).State) → A.stands since all state answerer.old lent.old
        → IfSome (unread S.Source lines.old)
        (λ bytes. ScriptAnswered (A.by all) most (λ s. A.stands since all s answerer.new lent.new) state (bytes_taken lines.old) bytes
        (unread S.Source lines.new) (source_left S.Source lines.new) (K.holds sink.old) (K.holds sink.new) result) }
    ensures limit { IfSome (unread S.Source lines.old) (λ bytes. KeepsLimit (bytes_taken lines.old) bytes result) }
    ensures cause { HasSessionCause S.Source K.Sink lines.old lines.new sink.old sink.new result }
    ensures handed_on { HandsOnReplies result (K.back sink.new) }
    ensures later { H.refusals heap.old ≤ H.refusals heap.new }
{
    let mut tally = Tally::new();
    'script: while take_line(answerer, lent, heap, lines, sink, &mut tally)? {}
    Ok(tally)
}
