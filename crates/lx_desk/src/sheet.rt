//! The job `sheet`: the list of a show's cues.

ghost use Rattle.std.specs.Prelude.{flat_map};
ghost use Rattle.lx_desk.specs.Imports.{cue_lines, Does, Tells};
ghost use Rattle.lx_spec.specs.declared.Job.TheVariants as jobs;

use crate::desk::Status;
use crate::finish::finish;
use crate::refuse::refuse;
use lx_io::{Heap, Sink, Source};
use lx_lex::Lines;
use lx_reader::read_show_in;
use lx_report::put_cue_list;
use lx_sheet::Sheet;
use lx_show::{Form, Show};

/// Reads a show and writes its cue list: each cue, rising, with its tracked levels.
pub(crate) fn sheet<H: Heap, S: Source, K: Sink>(
    heap: &mut H,
    form: Form,
    input: &mut S,
    output: &mut K,
) -> Status
    ensures { Does K.Sink (H.refusals heap.old) (H.refusals heap.new) (jobs.Sheet form) (S.left input.old) (S.left input.new)
        (S.faults input.old) (S.faults input.new) output.old output.new result }
{
    let mut lines = Lines::new(input);
    match read_show_in(heap, &mut lines, form) {
        Ok(loaded) => list(heap, &loaded.show, output),
        Err(fault) => refuse(fault, output),
    }
}

/// Writes the cue list of a show that was read.
fn list<H: Heap, K: Sink>(heap: &mut H, show: &Show, output: &mut K) -> Status
    ensures { Tells K.Sink (H.refusals heap.old) (H.refusals heap.new) Status.Ok (flat_map (cue_lines show.now) show.now.cues) output.old
        output.new result }
{
    match Sheet::open_in(heap, show) {
        Ok(sheet) => finish(put_cue_list(show, &sheet, output), Status::Ok, output),
        Err(_) => Status::Memory,
    }
}
