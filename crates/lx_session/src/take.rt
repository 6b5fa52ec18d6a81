//! One line of a session: it is taken from the source and answered.

ghost use Rattle.std.specs.Prelude.{◌≡◌, ◌⊎◌, ◌≤◌, Bool, [], true, false, Some, None, Err, IfOk, OnOk, if◌then◌else◌, option_copied};
ghost use Rattle.lx_session.specs.Imports.{Keeps, HasSinkCause, CanAdvance, SameSource, held, has_feed, lines_handed, HasOneMore, IsUpTo};
ghost use Rattle.lx_lex.specs.Unread.{current_line};
ghost use Rattle.lx_session.specs.Imports.{LineOutcome, MayTake, spared, HasSessionCause, WaitsFlushed};

use crate::beside::AnswersBeside;
use crate::fault::SessionFault;
use crate::tally::Tally;
use lx_io::{Heap, Sink, SinkFault, Source};
use lx_lex::{Lines, Step};

/// Takes the next line and answers it. Before a read that may wait, what was written is handed on. It answers
/// false where the script has ended, and then all that was written is handed on. So it is where a read fails.
pub(crate) fn take_line<D, A: AnswersBeside<D>, H: Heap, S: Source, K: Sink>(
    answerer: &mut A,
    lent: &mut D,
    heap: &mut H,
    lines: &mut Lines<S>,
    sink: &mut K,
    tally: &mut Tally,
) -> Result<bool, SessionFault>
    requires going { CanAdvance lines.old }
    requires few { IsUpTo (lines_handed lines.old) tally.old }
    requires keeps { A.keeps answerer.old lent.old }
    ensures same_source { SameSource lines.old lines.new }
    ensures keeps { A.keeps answerer.new lent.new }
    ensures outcome { (all ample : Bool) → MayTake all ample (A.admitted_all answerer.new) (H.refusals heap.old) (H.refusals heap.new)
        → LineOutcome (spared ample (A.by all)) (λ since state. A.stands since all state answerer.old lent.old)
        (λ since state. A.stands since all state answerer.new lent.new) S.Source lines.old lines.new (K.holds sink.old) (K.holds sink.new) tally.old
        tally.new result }
    ensures all { A.admitted_all answerer.new ≡ true → A.admitted_all answerer.old ≡ true }
    ensures later { H.refusals heap.old ≤ H.refusals heap.new }
    ensures cause { HasSessionCause S.Source K.Sink lines.old lines.new sink.old sink.new result }
    ensures waits { WaitsFlushed K.Sink lines.old lines.new sink.old }
    ensures handed_on { IfOk result (λ more. more ≡ false → K.back sink.new ≡ []) }
    ensures read_handed_on { result ≡ Err SessionFault.ReadFault → K.back sink.new ≡ [] }
    ensures more { HasOneMore tally.old tally.new }
{
    flush_before_wait(lines, sink)?;
    let whole = match lines.advance() {
        Step::Line => true,
        Step::LongLine => false,
        Step::End => {
            sink.flush()?;
            return Ok(false);
        }
        Step::ReadFault => return Err(SessionFault::ReadFault),
        Step::InputTooLong => return Err(SessionFault::InputTooLong),
    };
    let line = given_line(lines, whole);
    if answerer.answer_beside(lent, heap, line, sink, tally)? {
        return Ok(true);
    }
    sink.flush()?;
    Ok(false)
}

/// The line that was handed out, as it is given to what answers: none stands for one that is too long.
#[inline(always)]
fn given_line<'a, S: Source>(lines: &'a Lines<S>, whole: bool) -> Option<&'a [u8]>
    ensures { option_copied result ≡ (if whole then Some (current_line lines.now) else None) }
{
    if whole { Some(lines.line()) } else { None }
}

/// Flushes the sink where the next line isn't held yet, so that reading it may wait.
fn flush_before_wait<S: Source, K: Sink>(lines: &Lines<S>, sink: &mut K) -> Result<(), SinkFault>
    ensures holds { Keeps (K.holds sink.old) (K.holds sink.new) }
    ensures handed_on { OnOk result ((has_feed (held lines.now) ≡ true) ⊎ (K.back sink.new ≡ [])) }
    ensures cause { HasSinkCause K.Sink sink.old sink.new result }
{
    if lines.holds_line() {
        Ok(())
    } else {
        sink.flush()
    }
}
