//! A script whose edits can be undone, and which can record the stage.

ghost use Rattle.std.specs.Prelude.{◌≤◌};
ghost use Rattle.lx_desk.specs.Imports.{CanAdvance, SameSource, bytes_taken, answering_of, opening_of, Plays};
ghost use Rattle.lx_base.specs.declared.TheConstants.{INPUT_BYTES};
ghost use Rattle.lx_spec.specs.declared.ScriptKind.TheVariants.{Undo};

use crate::desk::Status;
use crate::play::status_of;
use lx_base::UNDO_DEPTH;
use lx_io::{Heap, Sink, Source};
use lx_lex::Lines;
use lx_show::Show;
use lx_undo::{UndoDesk, undo_session_in};

/// Answers the script that is left over a show, from its opening on. What the last edits and records replaced can be brought back.
pub(crate) fn play_with_undo<H: Heap, S: Source, K: Sink>(
    heap: &mut H,
    show: Show,
    lines: &mut Lines<S>,
    output: &mut K,
) -> Status
    requires going { CanAdvance lines.old }
    requires within { bytes_taken lines.old ≤ INPUT_BYTES }
    ensures same_source { SameSource lines.old lines.new }
    ensures plays { Plays S.Source K.Sink (H.refusals heap.old) (H.refusals heap.new) (answering_of Undo) (opening_of Undo show) lines.old
        lines.new output.old output.new result }
{
    match UndoDesk::open_in(heap, show, UNDO_DEPTH) {
        Ok(mut desk) => status_of(undo_session_in(&mut desk, heap, lines, output)),
        Err(_) => Status::Memory,
    }
}
