//! The jobs that are done in the caller's thread.

ghost use Rattle.std.specs.Prelude.{IfSome, Some, ◌≡◌, ◌≤◌, ℕ};
ghost use Rattle.lx_desk.specs.Imports.{given_to, WritesPrefix, ByRefusals, AnswersJob, HasEnded, HasEndedBy, HasCauseOf, Finishes, HasWanted};
ghost use Rattle.lx_desk.specs.Imports.{WantsMemory};
ghost use Rattle.lx_spec.specs.declared.Job.TheVariants.{Make};

use crate::check::check;
use crate::make::make;
use crate::script::script;
use crate::sheet::sheet;
use lx_io::{Heap, Sink, Source};
use lx_spec::Job;

/// How a job ended.
#[derive(Clone, Copy, Debug, PartialEq, Eq)]
pub enum Status {
    /// The job was done: a script was read to `quit` or to the end, and answered.
    Ok,
    /// The show was refused, and one line says why and where.
    ShowRefused,
    /// The words name no job.
    Usage,
    /// A read failed.
    ReadFault,
    /// A write failed.
    WriteFault,
    /// Out of memory.
    Memory,
    /// The input is longer than 67,108,864 bytes.
    InputTooLong,
    /// The job runs beside threads, and isn't done by this call.
    Live,
}

/// Does the job.
///
/// For the bytes that the input had left, the text that is written is what the definitions give for the job. It is the line of a
/// refused show, the line or the cue list of a show, or the replies to a script. In these each command is done or refused
/// as the desk does it, and each frame is evaluated over the whole show as it then is and the whole list of runs since the
/// opening. By `undo` edits and records are undone and redone besides, and by `two` it is so of two desks beside each other.
/// `make` reads nothing. Out of memory refuses nothing but records, and edits that may take memory.
///
/// With Ok and ShowRefused no read and no write failed, and all that was written is handed on. Memory is told only before
/// anything is written, or where the output itself is out of memory. A fault of the input is told only where the output had none, and one
/// of the output only where the input had none. Where a read failed, all replies before it are handed on.
///
/// All its memory is that of the heap. What is written is that of a script of which no more edits and records were refused as out of memory
/// than the heap refused calls. Memory is told only where the heap refused some, or where the output itself is out of memory.
///
/// `run` and `crew` run beside threads: the answer is Live, and nothing is read or written. `run_live_in` and `run_crew_in` do them.
pub fn run_job_in<H: Heap, S: Source, K: Sink>(
    heap: &mut H,
    job: Job,
    input: &mut S,
    output: &mut K,
) -> Status
    ensures answered { AnswersJob job result input.old input.new output.old output.new }
    ensures ended { IfSome (given_to job (S.left input.old))
        (λ bytes. HasEnded result job bytes (S.left input.new) (K.holds output.old) (K.holds output.new)) }
    ensures spared { ByRefusals (H.refusals heap.old) (H.refusals heap.new) (λ most. IfSome (given_to job (S.left input.old))
        (λ bytes. HasEndedBy most result job bytes (S.left input.new) (K.holds output.old) (K.holds output.new))) }
    ensures prefix { IfSome (given_to job (S.left input.old)) (λ bytes. WritesPrefix job bytes (K.holds output.old) (K.holds output.new)) }
    ensures cause { HasCauseOf result (S.faults input.old) (S.faults input.new) (K.faults output.old) (K.faults output.new) }
    ensures finished { Finishes (S.faults input.old) (S.faults input.new) K.Sink output.old output.new result }
    ensures unread { (cues : ℕ) → job ≡ Make cues → input.new ≡ input.old }
    ensures memory { HasWanted K.Sink output.old output.new result }
    ensures wanted { WantsMemory K.Sink (H.refusals heap.old) (H.refusals heap.new) output.old output.new result }
    ensures later { H.refusals heap.old ≤ H.refusals heap.new }
{
    match job {
        Job::Check(form) => check(heap, form, input, output),
        Job::Sheet(form) => sheet(heap, form, input, output),
        Job::Make(cues) => make(heap, cues, output),
        Job::Script(kind, form) => script(heap, kind, form, input, output),
        Job::Crew(..) => Status::Live,
    }
}
