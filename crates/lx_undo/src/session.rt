//! Sessions of a desk with its history.

ghost use Rattle.std.specs.Prelude.{◌≡◌, ◌≤◌, ◌-◌, ◌≢◌, List, ℕ, Bool, IfSome, None, Some, true, false, option_copied};
ghost use Rattle.lx_io.specs.Puts.{HasSinkCause};
ghost use Rattle.lx_lex.specs.Unread.{CanAdvance, SameSource, bytes_taken, source_left, unread};
ghost use Rattle.lx_spec.specs.Script.{line_of};
ghost use Rattle.lx_spec.specs.Session.{Session, ends_script};
ghost use Rattle.lx_spec.specs.DeskSession.{begun};
ghost use Rattle.lx_spec.specs.Undo.{UndoState};
ghost use Rattle.lx_spec.specs.UndoSession.{undo_line_of, undo_answering};
ghost use Rattle.lx_spec.specs.ValidEdit.{ValidLine};
ghost use Rattle.lx_session.specs.LineState.{next_of, unattempted};
ghost use Rattle.lx_session.specs.LineProgress.{LineProgress};
ghost use Rattle.lx_session.specs.LineReply.{TallyHasRoom, HasOneMore, counts_in};
ghost use Rattle.lx_session.specs.OneAnswer.{IsLine, OneAnswer, GoesOnUnless};
ghost use Rattle.lx_session.specs.Spared.{HasStood, spared, ByRefusals};
ghost use Rattle.lx_session.specs.ScriptAnswer.{ScriptAnswered};
ghost use Rattle.lx_session.specs.SessionOutcome.{HasSessionCause, KeepsLimit};
ghost use Rattle.lx_session.specs.Waits.{HandsOnReplies};
ghost use Rattle.lx_script.specs.LinesWithUndo.{IsReadWithUndo, IsValidWithUndo};
ghost use Rattle.lx_script.specs.UndoLines.{NamesCue};
ghost use Rattle.lx_undo.specs.UndoDeskMeaning.{UndoStands};
ghost use Rattle.lx_undo.specs.CommandProgress.{HasReached};
ghost use Rattle.lx_base.specs.declared.TheConstants.{INPUT_BYTES};

use crate::asked::{ask, give};
use crate::desk::UndoDesk;
use lx_io::{Heap, Sink, SinkFault, Source, SystemHeap};
use lx_lex::Lines;
use lx_script::{LineWithUndo, read_line_with_undo};
use lx_session::{Answers, SessionFault, Tally, Turn, answer_lines_in};
use lx_spec::{Line, Refusal, UndoLine};

/// Answers the script lines that are left, up to `quit` or the end, on a desk with its history: those of a session, and
/// `undo`, `redo` and `record n [only]`. Each line is done and its replies appended before the next is awaited.
///
/// `ReadFault` comes only where the source failed, `InputTooLong` exactly where a wanted line has a byte past the limit
/// of the input; the lines before it are then wholly answered. `WriteFault` and `Memory` come only where the sink
/// answered them; what was written is then a prefix of the whole text. A fault of the input comes only where the output
/// had none, and one of the output only where the input had none. Where a read fails, all replies before it are handed
/// on. However it ends, the desk stands for the state after the lines that were done. Out of memory refuses only records, and
/// edits that may take memory, that nothing else refuses.
pub fn undo_session<S: Source, K: Sink>(
    desk: &mut UndoDesk,
    lines: &mut Lines<S>,
    sink: &mut K,
) -> Result<Tally, SessionFault>
    requires going { CanAdvance lines.old }
    requires within { bytes_taken lines.old ≤ INPUT_BYTES }
    ensures same_source { SameSource lines.old lines.new }
    ensures outcome { (state : UndoState) → UndoStands state desk.old
        → IfSome (unread S.Source lines.old)
        (λ bytes. ScriptAnswered undo_answering None (λ s. UndoStands s desk.new) state (bytes_taken lines.old) bytes
        (unread S.Source lines.new) (source_left S.Source lines.new) (K.holds sink.old) (K.holds sink.new) result) }
    ensures limit { IfSome (unread S.Source lines.old) (λ bytes. KeepsLimit (bytes_taken lines.old) bytes result) }
    ensures cause { HasSessionCause S.Source K.Sink lines.old lines.new sink.old sink.new result }
    ensures handed_on { HandsOnReplies result (K.back sink.new) }
{
    let mut heap = SystemHeap::new(desk.console().allocator());
    undo_session_in(desk, &mut heap, lines, sink)
}

/// The same, by a heap: at most as many edits and records as it refused calls in this call were refused as out of memory.
pub fn undo_session_in<H: Heap, S: Source, K: Sink>(
    desk: &mut UndoDesk,
    heap: &mut H,
    lines: &mut Lines<S>,
    sink: &mut K,
) -> Result<Tally, SessionFault>
    requires going { CanAdvance lines.old }
    requires within { bytes_taken lines.old ≤ INPUT_BYTES }
    ensures same_source { SameSource lines.old lines.new }
    ensures outcome { ByRefusals (H.refusals heap.old) (H.refusals heap.new) (λ most. (state : UndoState) → UndoStands state desk.old
        → IfSome (unread S.Source lines.old)
        (λ bytes. ScriptAnswered undo_answering most (λ s. UndoStands s desk.new) state (bytes_taken lines.old) bytes
        (unread S.Source lines.new) (source_left S.Source lines.new) (K.holds sink.old) (K.holds sink.new) result)) }
    ensures limit { IfSome (unread S.Source lines.old) (λ bytes. KeepsLimit (bytes_taken lines.old) bytes result) }
    ensures cause { HasSessionCause S.Source K.Sink lines.old lines.new sink.old sink.new result }
    ensures handed_on { HandsOnReplies result (K.back sink.new) }
    ensures later { H.refusals heap.old ≤ H.refusals heap.new }
{
    answer_lines_in(desk, heap, lines, sink)
}

impl Answers for UndoDesk {
    ghost use Rattle.lx_spec.specs.UndoSession.{undo_answering};
    ghost use Rattle.lx_undo.specs.UndoDeskMeaning.{UndoStands};

    ghost by = { undo_answering };

    ghost stands = { UndoStands };

    fn answer_in<H: Heap, K: Sink>(
        &mut self,
        heap: &mut H,
        line: Option<&[u8]>,
        sink: &mut K,
        tally: &mut Tally,
    ) -> Result<bool, SinkFault> {
        match read(line) {
            LineWithUndo::OfHistory(what) => answer_asked(self, heap, what, sink, tally),
            LineWithUndo::OfDesk(meaning) => answer_plain(self, heap, meaning, sink, tally),
        }
    }
}

/// What a line means. None stands for a line that is too long, which is bad.
fn read(line: Option<&[u8]>) -> LineWithUndo<'_>
    ensures meaning { (text : List ℕ) → IsLine (option_copied line.entry) text → IsReadWithUndo result text }
    ensures valid { IsValidWithUndo result }
{
    match line {
        Some(line) => read_line_with_undo(line),
        None => LineWithUndo::OfDesk(None),
    }
}

/// Does what a line asks of the history, then appends its reply and counts it. It answers true: the session goes on.
fn answer_asked<H: Heap, K: Sink>(
    desk: &mut UndoDesk,
    heap: &mut H,
    what: UndoLine,
    sink: &mut K,
    tally: &mut Tally,
) -> Result<bool, SinkFault>
    requires cue { NamesCue what }
    requires room { TallyHasRoom tally.old }
    ensures answered { (ample : Bool) → (ample ≡ true → HasStood (H.refusals heap.old) (H.refusals heap.new))
        → (s : Session UndoState) (text : List ℕ) → UndoStands s.state desk.old → s.counts ≡ counts_in tally.old
        → undo_line_of text ≡ Some what
        → OneAnswer (spared ample undo_answering) K.Sink sink.old sink.new result s text
        (λ state. UndoStands state desk.new) tally.new }
    ensures more { GoesOnUnless false result }
    ensures cause { HasSinkCause K.Sink sink.old sink.new result }
    ensures counted { HasOneMore tally.old tally.new }
    ensures later { H.refusals heap.old ≤ H.refusals heap.new }
{
    let denial = ask(desk, heap, what);
    give(denial, sink, tally)
}

/// Does what any other line asks for, which means this, then appends its replies and counts them. None stands for a bad line.
/// It answers false exactly for `quit`.
fn answer_plain<H: Heap, K: Sink>(
    desk: &mut UndoDesk,
    heap: &mut H,
    meaning: Option<Line>,
    sink: &mut K,
    tally: &mut Tally,
) -> Result<bool, SinkFault>
    requires valid { IfSome meaning ValidLine }
    requires room { TallyHasRoom tally.old }
    ensures answered { (ample : Bool) → (ample ≡ true → HasStood (H.refusals heap.old) (H.refusals heap.new))
        → (s : Session UndoState) (text : List ℕ) → UndoStands s.state desk.old → s.counts ≡ counts_in tally.old
        → meaning.entry ≡ line_of text → undo_line_of text ≡ None
        → OneAnswer (spared ample undo_answering) K.Sink sink.old sink.new result s text
        (λ state. UndoStands state desk.new) tally.new }
    ensures quit { (text : List ℕ) → meaning.entry ≡ line_of text → GoesOnUnless (ends_script text) result }
    ensures cause { HasSinkCause K.Sink sink.old sink.new result }
    ensures counted { HasOneMore tally.old tally.new }
    ensures later { H.refusals heap.old ≤ H.refusals heap.new }
{
    let mut turn = Turn::of(meaning);
    attempt_all(desk, heap, &mut turn);
    turn.finish(desk.console(), sink, tally)
}

/// Attempts the commands of a line that asks nothing of the history.
fn attempt_all<H: Heap>(desk: &mut UndoDesk, heap: &mut H, turn: &mut Turn)
    requires start { turn.old ≡ unattempted turn.old.meaning }
    requires valid { IfSome turn.old.meaning ValidLine }
    ensures over { next_of turn.new ≡ None }
    ensures meaning { turn.new.meaning ≡ turn.old.meaning }
    ensures tried { (s : UndoState) → UndoStands s desk.old
        → LineProgress true (HasReached s desk.new (turn.old.left - turn.new.left)) (begun s.desk) turn.old turn.new desk.new.console }
    ensures memory { HasStood (H.refusals heap.old) (H.refusals heap.new) → turn.new.refusal ≢ Some Refusal.Memory }
    ensures later { H.refusals heap.old ≤ H.refusals heap.new }
{
    'commands: while let Some(command) = turn.next() {
        let refusal = desk.command_in(heap, command).err();
        turn.attempted(refusal);
    }
}
