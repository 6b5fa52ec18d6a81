//! Lines that ask something of the history, done and answered.

ghost use Rattle.std.specs.Prelude.{◌≡◌, ◌≤◌, false, Err, IfSome};
ghost use Rattle.lx_undo.specs.Imports.{Puts, UndoState, after_asking, HasStood, TallyHasRoom, HasOneMore, counts_in, NamesCue, UndoStands};
ghost use Rattle.lx_undo.specs.Imports.{HasAsked, GoesOnUnless, answer_text, counted_denial, denial_text};

use crate::desk::UndoDesk;
use lx_io::{Heap, Sink, SinkFault};
use lx_script::{Reply, put_reply, put_undo_fault};
use lx_session::Tally;
use lx_spec::{Refusal, UndoFault, UndoLine};

/// Why a line that asks something of the history was refused.
#[derive(Clone, Copy)]
pub(crate) enum Denial {
    /// Nothing can be undone, or redone.
    History(UndoFault),
    /// The record was refused.
    Desk(Refusal),
}

/// Does what a line asks. It answers why not, where it was refused; then the desk is as before. Where the heap refused nothing in this call
/// a refusal is the state's own.
pub(crate) fn ask<H: Heap>(desk: &mut UndoDesk, heap: &mut H, what: UndoLine) -> Option<Denial>
    requires { NamesCue what }
    ensures asked { (s : UndoState) → UndoStands s desk.old → HasAsked s what result desk.new }
    ensures own { HasStood (H.refusals heap.old) (H.refusals heap.new) → (s : UndoState) → UndoStands s desk.old
        → IfSome result (λ denial. after_asking s what ≡ Err (denial_text denial)) }
    ensures later { H.refusals heap.old ≤ H.refusals heap.new }
{
    match what {
        UndoLine::Undo => match desk.undo() {
            Ok(()) => None,
            Err(fault) => Some(Denial::History(fault)),
        },
        UndoLine::Redo => match desk.redo() {
            Ok(()) => None,
            Err(fault) => Some(Denial::History(fault)),
        },
        UndoLine::Record { cue, only } => match desk.record_in(heap, cue, only) {
            Ok(()) => None,
            Err(refusal) => Some(Denial::Desk(refusal)),
        },
    }
}

/// Appends the reply to what was done or denied, and counts it. It answers true: the session goes on.
pub(crate) fn give<K: Sink>(
    denial: Option<Denial>,
    sink: &mut K,
    tally: &mut Tally,
) -> Result<bool, SinkFault>
    requires room { TallyHasRoom tally.old }
    ensures text { Puts K.Sink sink.old sink.new result (answer_text denial) }
    ensures counts { counts_in tally.new ≡ counted_denial denial (counts_in tally.old) }
    ensures counted_denial { HasOneMore tally.old tally.new }
    ensures more { GoesOnUnless false result }
{
    match denial {
        None => tally.ok += 1,
        Some(_) => tally.refused += 1,
    }
    put_answer(denial, sink)?;
    Ok(true)
}

/// Appends the reply to what was done or denied.
fn put_answer<K: Sink>(denial: Option<Denial>, sink: &mut K) -> Result<(), SinkFault>
    ensures { Puts K.Sink sink.old sink.new result (answer_text denial) }
{
    match denial {
        None => put_reply(&Reply::Ok, sink),
        Some(Denial::History(fault)) => put_undo_fault(fault, sink),
        Some(Denial::Desk(refusal)) => put_reply(&Reply::Refused(refusal), sink),
    }
}
