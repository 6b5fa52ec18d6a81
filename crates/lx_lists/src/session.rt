//! Sessions of two lists: a line whose first token is 2 is for the second one.

ghost use Rattle.std.specs.Prelude.{◌≡◌, ◌≤◌, List, ℕ, Bool, IfSome, None, true, false, option_copied};
ghost use Rattle.lx_io.specs.Puts.{HasSinkCause};
ghost use Rattle.lx_lex.specs.Unread.{CanAdvance, SameSource, bytes_taken, source_left, unread};
ghost use Rattle.lx_spec.specs.Session.{Session, ends_script};
ghost use Rattle.lx_spec.specs.TwoLists.{TwoDesks, two_answering, is_for_second};
ghost use Rattle.lx_session.specs.LineReply.{TallyHasRoom, HasOneMore, counts_in};
ghost use Rattle.lx_session.specs.OneAnswer.{IsLine, OneAnswer, GoesOnUnless};
ghost use Rattle.lx_session.specs.Spared.{HasStood, spared, ByRefusals};
ghost use Rattle.lx_session.specs.ScriptAnswer.{ScriptAnswered};
ghost use Rattle.lx_session.specs.SessionOutcome.{HasSessionCause, KeepsLimit};
ghost use Rattle.lx_session.specs.Waits.{HandsOnReplies};
ghost use Rattle.lx_lists.specs.TwoListsMeaning.{TwoStand};
ghost use Rattle.lx_lists.specs.SecondLines.{IsRestFor};
ghost use Rattle.lx_base.specs.declared.TheConstants.{INPUT_BYTES};

use crate::attempts::{attempt_all, attempt_second};
use crate::desk::TwoLists;
use crate::frame::put_universe;
use lx_base::LINE_BYTES;
use lx_io::{Heap, Sink, SinkFault, Source, SystemHeap};
use lx_lex::{Lines, rest_after, tokens};
use lx_session::{Answers, SessionFault, Tally, Turn, answer_lines_in};

/// Answers the script lines that are left, up to `quit` or the end, on two lists. A line whose first token is `2` is
/// for the second list, and its rest is read as a line. Any other line is for the first list, but that a tick is of both,
/// and that a frame is what both put out. Each line is done and its replies appended before the next is awaited.
///
/// `ReadFault` comes only where the source failed, `InputTooLong` exactly where a wanted line has a byte past the limit
/// of the input; the lines before it are then wholly answered. `WriteFault` and `Memory` come only where the sink
/// answered them; what was written is then a prefix of the whole text. A fault of the input comes only where the output
/// had none, and one of the output only where the input had none. Where a read fails, all replies before it are handed
/// on. However it ends, the lists stand for the state after the lines that were done. Out of memory refuses only edits
/// that may take memory and that nothing else refuses.
pub fn two_session<S: Source, K: Sink>(
    desk: &mut TwoLists,
    lines: &mut Lines<S>,
    sink: &mut K,
) -> Result<Tally, SessionFault>
    requires going { CanAdvance lines.old }
    requires within { bytes_taken lines.old ≤ INPUT_BYTES }
    ensures same_source { SameSource lines.old lines.new }
    ensures outcome { (state : TwoDesks) → TwoStand state desk.old
        → IfSome (unread S.Source lines.old)
        (λ bytes. ScriptAnswered two_answering None (λ s. TwoStand s desk.new) state (bytes_taken lines.old) bytes
        (unread S.Source lines.new) (source_left S.Source lines.new) (K.holds sink.old) (K.holds sink.new) result) }
    ensures limit { IfSome (unread S.Source lines.old) (λ bytes. KeepsLimit (bytes_taken lines.old) bytes result) }
    ensures cause { HasSessionCause S.Source K.Sink lines.old lines.new sink.old sink.new result }
    ensures handed_on { HandsOnReplies result (K.back sink.new) }
{
    let mut heap = SystemHeap::new(desk.allocator());
    two_session_in(desk, &mut heap, lines, sink)
}

/// The same, by a heap: at most as many edits as it refused calls in this call were refused as out of memory.
pub fn two_session_in<H: Heap, S: Source, K: Sink>(
    desk: &mut TwoLists,
    heap: &mut H,
    lines: &mut Lines<S>,
    sink: &mut K,
) -> Result<Tally, SessionFault>
    requires going { CanAdvance lines.old }
    requires within { bytes_taken lines.old ≤ INPUT_BYTES }
    ensures same_source { SameSource lines.old lines.new }
    ensures outcome { ByRefusals (H.refusals heap.old) (H.refusals heap.new) (λ most. (state : TwoDesks) → TwoStand state desk.old
        → IfSome (unread S.Source lines.old)
        (λ bytes. ScriptAnswered two_answering most (λ s. TwoStand s desk.new) state (bytes_taken lines.old) bytes
        (unread S.Source lines.new) (source_left S.Source lines.new) (K.holds sink.old) (K.holds sink.new) result)) }
    ensures limit { IfSome (unread S.Source lines.old) (λ bytes. KeepsLimit (bytes_taken lines.old) bytes result) }
    ensures cause { HasSessionCause S.Source K.Sink lines.old lines.new sink.old sink.new result }
    ensures handed_on { HandsOnReplies result (K.back sink.new) }
    ensures later { H.refusals heap.old ≤ H.refusals heap.new }
{
    answer_lines_in(desk, heap, lines, sink)
}

impl Answers for TwoLists {
    ghost use Rattle.lx_spec.specs.TwoLists.{two_answering};
    ghost use Rattle.lx_lists.specs.TwoListsMeaning.{TwoStand};

    ghost by = { two_answering };

    ghost stands = { TwoStand };

    fn answer_in<H: Heap, K: Sink>(
        &mut self,
        heap: &mut H,
        line: Option<&[u8]>,
        sink: &mut K,
        tally: &mut Tally,
    ) -> Result<bool, SinkFault> {
        match rest_for_second(line) {
            Some(rest) => answer_second(self, heap, rest, sink, tally),
            None => answer_first(self, heap, line, sink, tally),
        }
    }
}

/// The rest of a line that is for the second list. None stands for a line that is too long, which is for the first.
fn rest_for_second(line: Option<&[u8]>) -> Option<&[u8]>
    ensures second { IfSome result (λ rest. (text : List ℕ) → IsLine (option_copied line.entry) text → IsRestFor text rest.now) }
    ensures first { result ≡ None → (text : List ℕ) → IsLine (option_copied line.entry) text → is_for_second text ≡ false }
{
    let line = line?;
    if leads_with_two(line) {
        Some(rest_after(line, 1))
    } else {
        None
    }
}

/// The line is for the second list.
fn leads_with_two(line: &[u8]) -> bool
    ensures { result ≡ is_for_second line.now }
{
    if line.len() > LINE_BYTES {
        return false;
    }
    match tokens(line).next() {
        Some(token) => token == b"2".as_slice(),
        None => false,
    }
}

/// Does what the rest of a line asks of the second list, then appends its reply and counts it. It answers true: the
/// session goes on.
fn answer_second<H: Heap, K: Sink>(
    desk: &mut TwoLists,
    heap: &mut H,
    rest: &[u8],
    sink: &mut K,
    tally: &mut Tally,
) -> Result<bool, SinkFault>
    requires room { TallyHasRoom tally.old }
    ensures answered { (ample : Bool) → (ample ≡ true → HasStood (H.refusals heap.old) (H.refusals heap.new))
        → (s : Session TwoDesks) (text : List ℕ) → TwoStand s.state desk.old → s.counts ≡ counts_in tally.old
        → IsRestFor text rest.now
        → OneAnswer (spared ample two_answering) K.Sink sink.old sink.new result s text (λ state. TwoStand state desk.new)
        tally.new }
    ensures more { GoesOnUnless false result }
    ensures cause { HasSinkCause K.Sink sink.old sink.new result }
    ensures counted { HasOneMore tally.old tally.new }
    ensures later { H.refusals heap.old ≤ H.refusals heap.new }
{
    let mut turn = Turn::begin_second(rest);
    attempt_second(desk, heap, &mut turn);
    turn.finish_without_frame(desk.list(true), sink, tally)
}

/// Does what a line asks of the first list or of both, then appends its replies and counts them. None stands for a
/// line that is too long, which is bad. It answers false exactly for `quit`.
fn answer_first<H: Heap, K: Sink>(
    desk: &mut TwoLists,
    heap: &mut H,
    line: Option<&[u8]>,
    sink: &mut K,
    tally: &mut Tally,
) -> Result<bool, SinkFault>
    requires room { TallyHasRoom tally.old }
    ensures answered { (ample : Bool) → (ample ≡ true → HasStood (H.refusals heap.old) (H.refusals heap.new))
        → (s : Session TwoDesks) (text : List ℕ) → TwoStand s.state desk.old → s.counts ≡ counts_in tally.old
        → IsLine (option_copied line.entry) text → is_for_second text ≡ false
        → OneAnswer (spared ample two_answering) K.Sink sink.old sink.new result s text (λ state. TwoStand state desk.new)
        tally.new }
    ensures quit { (text : List ℕ) → IsLine (option_copied line.entry) text → GoesOnUnless (ends_script text) result }
    ensures cause { HasSinkCause K.Sink sink.old sink.new result }
    ensures counted { HasOneMore tally.old tally.new }
    ensures later { H.refusals heap.old ≤ H.refusals heap.new }
{
    let mut turn = Turn::begin(line);
    match turn.frame_universe() {
        Some(universe) => put_universe(desk, universe, sink),
        None => {
            attempt_all(desk, heap, &mut turn);
            turn.finish_without_frame(desk.list(false), sink, tally)
        }
    }
}
