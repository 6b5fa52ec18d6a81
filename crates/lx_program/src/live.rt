//! A live run as a call: `run U`.

ghost use Rattle.std.specs.Prelude.{◌≡◌, ◌≤◌, true, false, length, map, string_bytes};
ghost use Rattle.lx_program.specs.Imports.{job_of, IsFull, Finishes, any_memory, ByLiveMemory, DecidesInOrder, HasLiveCause, HasLived, KeepsOutlets};
ghost use Rattle.lx_program.specs.Imports.{LivesToEnd, OfRun, ReadsWordsOnce, WantsRunOrWords, begins_with_dash, list_any};
ghost use Rattle.lx_base.specs.declared.TheConstants.{UNIVERSES};

use crate::words::{WordsFault, live_run_of};
use crate::words_heap::WordsHeap;
use lx_desk::{Status, run_live_in};
use lx_io::{Heap, Pace, Sink, Source, SystemHeap};
use lx_workers::WriterHeap;
use std::alloc::Global;
use std::sync::Wait;
use std::thread::Threads;

/// Does the job of the words, where it is `run U` or `run U states`; for any other words the answer is Usage.
///
/// The script that follows the show is answered on the output, as by `render`, and each command that is accepted is published
/// at once. Beside it a worker for each of the universes 1 to U, in a thread of its own, writes to the outlet at the
/// universe's place. Each newer version that it meets gets a line: `frame`, how many commands led to it, and the frame. No line
/// is of two versions, and at the end the last one is of all accepted commands. As long as fewer than 2^62 commands were
/// accepted, a line is refused with `Memory` only where it is an edit that may take memory and that the desk accepts.
///
/// The fault of the session decides the status first, then a write that failed in an outlet, and then that memory was short. An outlet
/// that fails is ended, and no other.
pub fn desk_live<
    R: Threads + Wait + Sync,
    S: Source + Send,
    O: Sink + Send,
    K: Sink + Send + Drop,
    C: Pace + Sync,
>(
    rt: &R,
    alloc: Global,
    words: &[String],
    input: &mut S,
    output: &mut O,
    outlets: &mut [Option<K>],
    pace: &C,
) -> Status
    requires all { length outlets.old ≡ UNIVERSES }
    requires full { IsFull outlets.old }
    // Usage exactly where the words name no live run, unless memory ran out, and then nothing is read or written.
    // The outlets past the universes are never touched.
    ensures outlets { KeepsOutlets K.Sink (job_of (map string_bytes words.now)) result input.old input.new output.old
        output.new outlets.old outlets.new }

    // What was read and written, by the status: with Ok the whole output, and each outlet up to the version of all accepted commands.
    // After a fault each outlet has what was published of the commands of the lines that were answered. By it and by `order`
    // Memory refuses only edits that may take some, as said above.
    ensures ended { OfRun (job_of (map string_bytes words.now)) (S.left input.old)
        (λ universes form bytes. HasLived any_memory result K.Sink universes form bytes (S.left input.new) (O.holds output.old)
        (O.holds output.new) outlets.old outlets.new) }

    // ReadFault and WriteFault have their causes, and faults are told in their order. A fault of the input comes only where the output had
    // none, and any other only where the input had none. With Ok and ShowRefused no fault was passed over, and all that was written on the
    // output is handed on; with ReadFault all replies before it are.
    ensures cause { HasLiveCause K.Sink result (S.faults input.old) (S.faults input.new) (O.faults output.old) (O.faults output.new)
        outlets.old outlets.new }
    ensures order { DecidesInOrder result (S.faults input.old) (S.faults input.new) O.Sink output.old output.new outlets.old outlets.new
        (λ Told. OfRun (job_of (map string_bytes words.now)) (S.left input.old)
        (λ universes form bytes. LivesToEnd any_memory Told K.Sink universes form bytes (O.holds output.old) (O.holds output.new)
        outlets.old outlets.new)) }
    ensures finished { Finishes (S.faults input.old) (S.faults input.new) O.Sink output.old output.new result }

    // Words of which one begins with a dash are never out of memory.
    ensures dash { list_any begins_with_dash (map string_bytes words.now) ≡ true → result ≡ Status.Usage }
{
    desk_live_in(
        rt,
        &mut SystemHeap::new(alloc),
        &mut WriterHeap::new(alloc),
        &mut WordsHeap::new(alloc),
        words,
        input,
        output,
        outlets,
        pace,
    )
}

/// Does the job of the words as `desk_live` does, with the memory of these heaps. The words are read by the last: where it refuses
/// nothing is read or written, and the others aren't asked.
///
/// A fault of the input is told only where the output had none, and any other only where the input had none. Where a read failed, all
/// replies before it are handed on.
pub fn desk_live_in<
    R: Threads + Wait + Sync,
    H: Heap + Send,
    S: Source + Send,
    O: Sink + Send,
    K: Sink + Send + Drop,
    C: Pace + Sync,
>(
    rt: &R,
    heap: &mut H,
    writers: &mut WriterHeap,
    words_heap: &mut WordsHeap,
    words: &[String],
    input: &mut S,
    output: &mut O,
    outlets: &mut [Option<K>],
    pace: &C,
) -> Status
    requires all { length outlets.old ≡ UNIVERSES }
    requires full { IsFull outlets.old }
    ensures outlets { KeepsOutlets K.Sink (job_of (map string_bytes words.now)) result input.old input.new output.old
        output.new outlets.old outlets.new }

    // No more edits were refused as out of memory than the heap refused calls, as long as fewer than 2^62 commands were accepted. Where the
    // writer's refused nothing all accepted commands were published, however the run ended.
    ensures ended { ByLiveMemory (H.refusals heap.old) (H.refusals heap.new) writers.old writers.new
        (λ known. OfRun (job_of (map string_bytes words.now)) (S.left input.old)
        (λ universes form bytes. HasLived known result K.Sink universes form bytes (S.left input.new) (O.holds output.old)
        (O.holds output.new) outlets.old outlets.new)) }
    ensures cause { HasLiveCause K.Sink result (S.faults input.old) (S.faults input.new) (O.faults output.old) (O.faults output.new)
        outlets.old outlets.new }
    ensures order { ByLiveMemory (H.refusals heap.old) (H.refusals heap.new) writers.old writers.new
        (λ known. DecidesInOrder result (S.faults input.old) (S.faults input.new) O.Sink output.old output.new outlets.old outlets.new
        (λ Told. OfRun (job_of (map string_bytes words.now)) (S.left input.old)
        (λ universes form bytes. LivesToEnd known Told K.Sink universes form bytes (O.holds output.old) (O.holds output.new)
        outlets.old outlets.new))) }
    ensures finished { Finishes (S.faults input.old) (S.faults input.new) O.Sink output.old output.new result }
    ensures dash { list_any begins_with_dash (map string_bytes words.now) ≡ true → result ≡ Status.Usage }

    // Memory is told only where the heap refused some, or the writer's did, or the output or an outlet itself is out of memory; or where
    // the words' heap did, before anything was asked of them.
    ensures wanted { WantsRunOrWords O.Sink K.Sink words_heap.old words_heap.new H.refusals heap.old heap.new writers.old writers.new
        input.old input.new output.old output.new outlets.old outlets.new result }

    // Where the words' heap refused some, Memory is told and nothing was asked of the others, read or written.
    ensures words_kept { ReadsWordsOnce words_heap.old words_heap.new ((heap.new ≡ heap.old) × ((writers.new ≡ writers.old)
        × ((input.new ≡ input.old) × ((output.new ≡ output.old) × (outlets.new ≡ outlets.old))))) result }

    // With Usage nothing was asked of the heap or the writer's.
    ensures usage { result ≡ Status.Usage → (heap.new ≡ heap.old) × (writers.new ≡ writers.old) }
    ensures later { H.refusals heap.old ≤ H.refusals heap.new }
    ensures writers_later { writers.old ≤ writers.new }
    ensures words_later { words_heap.old ≤ words_heap.new }
{
    match live_run_of(words_heap, words) {
        Ok((universes, form)) => {
            run_live_in(
                rt, heap, writers, universes, form, input, output, outlets, pace,
            )
        }
        Err(WordsFault::Usage) => Status::Usage,
        Err(WordsFault::Memory) => Status::Memory,
    }
}
