//! The job `run`: a script over the show that stands before it, played live.

ghost use Rattle.std.specs.Prelude.{◌≡◌, ◌≤◌, IfSome, Some, length};
ghost use Rattle.lx_desk.specs.Imports.{CanAdvance, SameSource, bytes_taken, IsFull, ByLiveMemory, HasLived, KeepsOutlets, HasLiveCause, WantsLive};
ghost use Rattle.lx_desk.specs.Imports.{TellsOutlets, TellsRun, DecidesInOrder, LivesToEnd, PlaysLive, Finishes};
ghost use Rattle.lx_base.specs.declared.TheConstants.{INPUT_BYTES, UNIVERSES};
ghost use Rattle.lx_spec.specs.declared.Job.TheVariants.{Script};
ghost use Rattle.lx_spec.specs.declared.ScriptKind.TheVariants.{Live};

use crate::desk::Status;
use crate::play::status_of;
use crate::refuse::refuse;
use lx_console::Console;
use lx_io::{Heap, Pace, Sink, SinkFault, Source};
use lx_lex::Lines;
use lx_reader::read_show_in;
use lx_show::Show;
use lx_spec::Form;
use lx_workers::{LiveOutcome, OUTLETS, WriterHeap, play_in};
use std::sync::Wait;
use std::thread::Threads;

/// Reads a show and plays the script that follows it, live.
///
/// The script is answered on the output, as by `render`, and each command that is accepted is published
/// at once. Beside it a worker for each of the universes from 1 on, in a thread of its own, writes to the outlet at the
/// universe's place. It writes the line of each newer version that it meets: `frame`, how many commands led to it, and the
/// frame. No line is of two versions, and at the end the last one is of all accepted commands. As long as fewer than 2^62
/// commands were accepted, a line is refused with `Memory` only where it is an edit that may take memory and that the desk accepts.
///
/// The fault of the session decides the status first, then a write that failed in an outlet, and then that memory was short. An outlet
/// that fails is ended, and no other. The answer is never Live. With Ok no read and no write failed, in no outlet in use either, and all
/// that was written is handed on. A fault of the input is told only where the output had none, and any other only where the input had
/// none. Where a read failed, all replies before it are handed on.
///
/// Its memory is that of two heaps: the first's for the show and its edits, and the writer's for what is published.
/// No more edits were refused as out of memory than the heap refused calls, as long as fewer than 2^62 commands were accepted. Where the
/// writer's refused nothing, all accepted commands were published, also where the run ended by a fault. Memory is told only where the heap
/// refused some, or the writer's did, or where the output or an outlet itself is out of memory.
pub fn run_live_in<
    R: Threads + Wait + Sync,
    H: Heap + Send,
    S: Source + Send,
    O: Sink + Send,
    K: Sink + Send + Drop,
    C: Pace + Sync,
>(
    rt: &R,
    heap: &mut H,
    writers: &mut WriterHeap,
    universes: u8,
    form: Form,
    input: &mut S,
    output: &mut O,
    outlets: &mut [Option<K>],
    pace: &C,
) -> Status
    requires some { 1 ≤ universes }
    requires most { universes ≤ UNIVERSES }
    requires all { length outlets.old ≡ UNIVERSES }
    requires full { IsFull outlets.old }
    ensures outlets { KeepsOutlets K.Sink (Some (Script (Live universes) form)) result input.old input.new output.old
        output.new outlets.old outlets.new }
    ensures ended { ByLiveMemory (H.refusals heap.old) (H.refusals heap.new) writers.old writers.new (λ known. IfSome (S.left input.old)
        (λ bytes. HasLived known result K.Sink universes form bytes (S.left input.new) (O.holds output.old)
        (O.holds output.new) outlets.old outlets.new)) }
    ensures cause { HasLiveCause K.Sink result (S.faults input.old) (S.faults input.new) (O.faults output.old) (O.faults output.new)
        outlets.old outlets.new }
    ensures order { ByLiveMemory (H.refusals heap.old) (H.refusals heap.new) writers.old writers.new
        (λ known. DecidesInOrder result (S.faults input.old) (S.faults input.new) O.Sink output.old output.new outlets.old outlets.new
        (λ Told. IfSome (S.left input.old) (λ bytes. LivesToEnd known Told K.Sink universes form bytes (O.holds output.old)
        (O.holds output.new) outlets.old outlets.new))) }
    ensures finished { Finishes (S.faults input.old) (S.faults input.new) O.Sink output.old output.new result }
    ensures wanted { WantsLive O.Sink K.Sink (H.refusals heap.old) (H.refusals heap.new) writers.old writers.new output.old output.new
        outlets.old outlets.new result }
    ensures later { H.refusals heap.old ≤ H.refusals heap.new }
    ensures writers_later { writers.old ≤ writers.new }
{
    let mut lines = Lines::new(input);
    match read_show_in(heap, &mut lines, form) {
        Ok(loaded) => {
            play_live(
                rt,
                heap,
                writers,
                universes,
                loaded.show,
                &mut lines,
                output,
                outlets,
                pace,
            )
        }
        Err(fault) => refuse(fault, output),
    }
}

/// Plays the script that is left over a show, from its opening on, with the first outlets.
fn play_live<
    R: Threads + Wait + Sync,
    H: Heap + Send,
    S: Source + Send,
    O: Sink + Send,
    K: Sink + Send + Drop,
    C: Pace + Sync,
>(
    rt: &R,
    heap: &mut H,
    writers: &mut WriterHeap,
    universes: u8,
    show: Show,
    lines: &mut Lines<S>,
    output: &mut O,
    outlets: &mut [Option<K>],
    pace: &C,
) -> Status
    requires some { 1 ≤ universes }
    requires most { universes ≤ UNIVERSES }
    requires all { length outlets.old ≡ UNIVERSES }
    requires full { IsFull outlets.old }
    requires going { CanAdvance lines.old }
    requires within { bytes_taken lines.old ≤ INPUT_BYTES }
    ensures same_source { SameSource lines.old lines.new }
    ensures plays { PlaysLive S.Source O.Sink K.Sink (H.refusals heap.old) (H.refusals heap.new) writers.old writers.new show universes lines.old
        lines.new output.old output.new outlets.old outlets.new result }
{
    let Ok(mut console) = Console::open_in(heap, show) else {
        return Status::Memory;
    };
    let (used, _others) = outlets.split_at_mut(universes as usize);
    match play_in(rt, heap, writers, &mut console, lines, output, used, pace) {
        Ok(played) => status_of_run(&played),
        Err(_) => Status::Memory,
    }
}

/// The status of a live run: the session's fault first, then a write that failed, then out of memory.
fn status_of_run(played: &LiveOutcome) -> Status
    ensures { TellsRun played.now.session played.now.outlets played.now.unsent result }
{
    match played.session {
        Ok(_) => status_of_outlets(&played.outlets, played.unsent),
        Err(fault) => status_of(Err(fault)),
    }
}

/// The status where the session had no fault.
fn status_of_outlets(faults: &[Option<SinkFault>; OUTLETS], unsent: u64) -> Status
    ensures { TellsOutlets faults.now unsent result }
{
    if faults.contains(&Some(SinkFault::Failed)) {
        return Status::WriteFault;
    }
    if unsent > 0 || faults.contains(&Some(SinkFault::Memory)) {
        return Status::Memory;
    }
    Status::Ok
}
