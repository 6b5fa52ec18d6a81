//! A script over two cue lists of a show, which play beside each other.

ghost use Rattle.std.specs.Prelude.{◌≤◌};
ghost use Rattle.lx_desk.specs.Imports.{CanAdvance, SameSource, bytes_taken, answering_of, opening_of, Plays};
ghost use Rattle.lx_base.specs.declared.TheConstants.{INPUT_BYTES};
ghost use Rattle.lx_spec.specs.declared.ScriptKind.TheVariants.{Two};

use crate::desk::Status;
use crate::play::status_of;
use lx_io::{Heap, Sink, Source};
use lx_lex::Lines;
use lx_lists::{TwoLists, two_session_in};
use lx_show::Show;

/// Answers the script that is left over two cue lists of a show, from its opening on.
pub(crate) fn play_two<H: Heap, S: Source, K: Sink>(
    heap: &mut H,
    show: Show,
    lines: &mut Lines<S>,
    output: &mut K,
) -> Status
    requires going { CanAdvance lines.old }
    requires within { bytes_taken lines.old ≤ INPUT_BYTES }
    ensures same_source { SameSource lines.old lines.new }
    ensures plays { Plays S.Source K.Sink (H.refusals heap.old) (H.refusals heap.new) (answering_of Two) (opening_of Two show) lines.old
        lines.new output.old output.new result }
{
    match TwoLists::open_in(heap, show) {
        Ok(mut desk) => status_of(two_session_in(&mut desk, heap, lines, output)),
        Err(_) => Status::Memory,
    }
}
