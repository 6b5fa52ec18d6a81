//! The script over a show that was read: the job `render`, and what a session says of its job.

ghost use Rattle.std.specs.Prelude.{◌≡◌, ◌≤◌};
ghost use Rattle.lx_desk.specs.Imports.{CanAdvance, SameSource, bytes_taken, answering_of, opening_of, status_for, Plays};
ghost use Rattle.lx_base.specs.declared.TheConstants.{INPUT_BYTES};
ghost use Rattle.lx_spec.specs.declared.ScriptKind.TheVariants.{Render};

use crate::desk::Status;
use lx_console::Console;
use lx_io::{Heap, Sink, Source};
use lx_lex::Lines;
use lx_session::{SessionFault, Tally, session_in};
use lx_show::Show;

/// Answers the script that is left over a show, from its opening on.
pub(crate) fn play<H: Heap, S: Source, K: Sink>(
    heap: &mut H,
    show: Show,
    lines: &mut Lines<S>,
    output: &mut K,
) -> Status
    requires going { CanAdvance lines.old }
    requires within { bytes_taken lines.old ≤ INPUT_BYTES }
    ensures same_source { SameSource lines.old lines.new }
    ensures plays { Plays S.Source K.Sink (H.refusals heap.old) (H.refusals heap.new) (answering_of Render) (opening_of Render show) lines.old
        lines.new output.old output.new result }
{
    match Console::open_in(heap, show) {
        Ok(mut console) => status_of(session_in(heap, &mut console, lines, output)),
        Err(_) => Status::Memory,
    }
}

/// The status of a session.
pub(crate) fn status_of(ended: Result<Tally, SessionFault>) -> Status
    ensures { result ≡ status_for ended }
{
    match ended {
        Ok(_) => Status::Ok,
        Err(SessionFault::ReadFault) => Status::ReadFault,
        Err(SessionFault::WriteFault) => Status::WriteFault,
        Err(SessionFault::InputTooLong) => Status::InputTooLong,
        Err(SessionFault::Memory) => Status::Memory,
    }
}
