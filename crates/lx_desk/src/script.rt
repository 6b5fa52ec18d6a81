//! The jobs of a script over the show that stands before it.

ghost use Rattle.std.specs.Prelude.{◌≡◌, ◌≤◌, false, IfSome, Some};
ghost use Rattle.lx_desk.specs.Imports.{CanAdvance, SameSource, bytes_taken, answering_of, opening_of, WritesPrefix, Does, AnswersJob, HasEndedBy};
ghost use Rattle.lx_desk.specs.Imports.{HasCauseOf, is_live, ByRefusals, Finishes, HasWanted, WantsMemory, Plays};
ghost use Rattle.lx_base.specs.declared.TheConstants.{INPUT_BYTES};
ghost use Rattle.lx_spec.specs.declared.Job.TheVariants as jobs;

use crate::desk::Status;
use crate::play::play;
use crate::refuse::refuse;
use crate::two::play_two;
use crate::undo::play_with_undo;
use lx_io::{Heap, Sink, Source};
use lx_lex::Lines;
use lx_reader::read_show_in;
use lx_show::{Form, Show};
use lx_spec::ScriptKind;

/// Reads a show and then a script, and answers the script over the show. Of one that is played live nothing is done here.
pub(crate) fn script<H: Heap, S: Source, K: Sink>(
    heap: &mut H,
    kind: ScriptKind,
    form: Form,
    input: &mut S,
    output: &mut K,
) -> Status
    ensures answered { AnswersJob (jobs.Script kind form) result input.old input.new output.old output.new }
    ensures ended { ByRefusals (H.refusals heap.old) (H.refusals heap.new) (λ most. IfSome (S.left input.old)
        (λ bytes. HasEndedBy most result (jobs.Script kind form) bytes (S.left input.new) (K.holds output.old) (K.holds output.new))) }
    ensures prefix { IfSome (S.left input.old)
        (λ bytes. WritesPrefix (jobs.Script kind form) bytes (K.holds output.old) (K.holds output.new)) }
    ensures cause { HasCauseOf result (S.faults input.old) (S.faults input.new) (K.faults output.old) (K.faults output.new) }
    ensures finished { Finishes (S.faults input.old) (S.faults input.new) K.Sink output.old output.new result }
    ensures memory { HasWanted K.Sink output.old output.new result }
    ensures wanted { WantsMemory K.Sink (H.refusals heap.old) (H.refusals heap.new) output.old output.new result }
    ensures later { H.refusals heap.old ≤ H.refusals heap.new }
{
    if is_live(kind) {
        return Status::Live;
    }
    read_and_play(heap, kind, form, input, output)
}

/// Whether threads play the script beside the caller's.
fn is_live(kind: ScriptKind) -> bool
    ensures { result ≡ is_live kind }
{
    matches!(kind, ScriptKind::Live(_))
}

/// Reads a show and then a script, and answers the script over the show.
fn read_and_play<H: Heap, S: Source, K: Sink>(
    heap: &mut H,
    kind: ScriptKind,
    form: Form,
    input: &mut S,
    output: &mut K,
) -> Status
    requires here { is_live kind ≡ false }
    ensures { Does K.Sink (H.refusals heap.old) (H.refusals heap.new) (jobs.Script kind form) (S.left input.old) (S.left input.new)
        (S.faults input.old) (S.faults input.new) output.old output.new result }
{
    let mut lines = Lines::new(input);
    match read_show_in(heap, &mut lines, form) {
        Ok(loaded) => play_script(heap, kind, loaded.show, &mut lines, output),
        Err(fault) => refuse(fault, output),
    }
}

/// Answers the script that is left over a show, from its opening on.
fn play_script<H: Heap, S: Source, K: Sink>(
    heap: &mut H,
    kind: ScriptKind,
    show: Show,
    lines: &mut Lines<S>,
    output: &mut K,
) -> Status
    requires here { is_live kind ≡ false }
    requires going { CanAdvance lines.old }
    requires within { bytes_taken lines.old ≤ INPUT_BYTES }
    ensures same_source { SameSource lines.old lines.new }
    ensures plays { Plays S.Source K.Sink (H.refusals heap.old) (H.refusals heap.new) (answering_of kind) (opening_of kind show) lines.old
        lines.new output.old output.new result }
{
    match kind {
        ScriptKind::Render => play(heap, show, lines, output),
        ScriptKind::Live(_) => unreachable!(),
        ScriptKind::Undo => play_with_undo(heap, show, lines, output),
        ScriptKind::Two => play_two(heap, show, lines, output),
    }
}
