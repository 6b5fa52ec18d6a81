//! A crew as a call: `crew N`.

ghost use Rattle.std.specs.Prelude.{◌≡◌, ◌≤◌, true, IsSome, length, map, string_bytes};
ghost use Rattle.lx_program.specs.Imports.{EachAt, job_of, reads, ByRefusals, HandsOn, HasCrewCause, HasCrewEnded, KeepsOperators, TakesNoneOrWants};
ghost use Rattle.lx_program.specs.Imports.{WritesCrewFront, Finishes, HasWanted, OfCrew, in_use, ReadsWordsOnce, WantsCrewOrWords, begins_with_dash, list_any};
ghost use Rattle.lx_base.specs.declared.TheConstants.{OPERATORS};

use crate::words::{WordsFault, crew_of};
use crate::words_heap::WordsHeap;
use lx_crew::QueueHeap;
use lx_desk::{Status, run_crew_in};
use lx_io::{Heap, Sink, Source, SystemHeap};
use std::alloc::Global;
use std::sync::Wait;
use std::thread::Threads;

/// Does the job of the words, where it is `crew N` or `crew N states`; for any other words the answer is Usage.
///
/// The show comes from the input, which is read to `ENDDATA` and no further. The scripts of operators 1 to N come from the first
/// N sources, each in a thread of its own and up to `quit` or its end. For each line that is taken the output gets `op`, its
/// operator and its number among that operator's lines, and then its replies. Which operator comes next isn't said.
///
/// A fault of an operator costs no line of another. The fault of the output decides the status first, and then that of the
/// lowest operator that had one.
pub fn desk_crew<R: Threads + Wait + Sync, I: Source, S: Source + Send + Drop, K: Sink + Send>(
    rt: &R,
    alloc: Global,
    words: &[String],
    input: &mut I,
    output: &mut K,
    operators: &mut [Option<S>],
) -> Status
    requires all { length operators.old ≡ OPERATORS }
    requires full { EachAt (λ place source. IsSome source) operators.old }
    // Usage exactly where the words name no crew, unless memory ran out, and then nothing is read or written. Each
    // place has a source again, and those past the operators in use are as they were.
    ensures words { KeepsOperators (job_of (map string_bytes words.now)) result input.old input.new output.old output.new operators.old
        operators.new }

    // What was read and written, by the status: with Ok the text of all lines of each operator in use, each once and in its order.
    // After a fault of an operator it has those of its lines that were taken whole; after a fault of the output it is a prefix of such a text.
    // A show that is refused, or couldn't be read, ends as another job's, and no operator's source is read.
    ensures ended { OfCrew (job_of (map string_bytes words.now)) (I.left input.old)
        (λ count form bytes. HasCrewEnded None S.Source count form bytes (I.left input.new) operators.old operators.new
        (K.holds output.old) (K.holds output.new) result) }

    // After every status it is a prefix of such a text, or of the line of a refused show.
    ensures prefix { OfCrew (job_of (map string_bytes words.now)) (I.left input.old)
        (λ count form bytes. WritesCrewFront S.Source count operators.old (K.holds output.old) (K.holds output.new) (reads form bytes)) }

    // ReadFault and WriteFault have their causes. A fault of the input or of an operator comes only where the output had none, and one of an
    // operator or of the output only where the input had none. With Ok and ShowRefused no fault of the input or the output was passed over,
    // and all that was written is handed on; so it is where an operator's fault is told. Memory is told only before anything is written and
    // any operator's source read, or where the output itself is out of memory.
    ensures finished { Finishes (I.faults input.old) (I.faults input.new) K.Sink output.old output.new result }
    ensures memory { HasWanted K.Sink output.old output.new result }
    ensures unread { TakesNoneOrWants K.Sink output.old output.new operators.old operators.new result }
    ensures handed_on { HandsOn K.Sink output.old output.new result }
    ensures cause { HasCrewCause S.Source result (I.faults input.old) (I.faults input.new) (K.faults output.old) (K.faults output.new)
        (in_use (job_of (map string_bytes words.now))) operators.old operators.new }

    // Words of which one begins with a dash are never out of memory.
    ensures dash { list_any begins_with_dash (map string_bytes words.now) ≡ true → result ≡ Status.Usage }
{
    desk_crew_in(
        rt,
        &mut SystemHeap::new(alloc),
        &mut QueueHeap::new(alloc),
        &mut WordsHeap::new(alloc),
        words,
        input,
        output,
        operators,
    )
}

/// Does the job of the words as `desk_crew` does, with the memory of these heaps. The words are read by the last: where it refuses
/// nothing is read or written, and the others aren't asked.
///
/// A fault of the input or of an operator is told only where the output had none, and one of an operator or of the output only where the
/// input had none.
pub fn desk_crew_in<
    R: Threads + Wait + Sync,
    H: Heap + Send,
    I: Source,
    S: Source + Send + Drop,
    K: Sink + Send,
>(
    rt: &R,
    heap: &mut H,
    queues: &mut QueueHeap,
    words_heap: &mut WordsHeap,
    words: &[String],
    input: &mut I,
    output: &mut K,
    operators: &mut [Option<S>],
) -> Status
    requires all { length operators.old ≡ OPERATORS }
    requires full { EachAt (λ place source. IsSome source) operators.old }
    ensures words { KeepsOperators (job_of (map string_bytes words.now)) result input.old input.new output.old output.new operators.old
        operators.new }
    ensures ended { OfCrew (job_of (map string_bytes words.now)) (I.left input.old)
        (λ count form bytes. HasCrewEnded None S.Source count form bytes (I.left input.new) operators.old operators.new
        (K.holds output.old) (K.holds output.new) result) }

    // No more edits were refused as out of memory than the heap refused calls.
    ensures spared { ByRefusals (H.refusals heap.old) (H.refusals heap.new) (λ most. OfCrew (job_of (map string_bytes words.now))
        (I.left input.old) (λ count form bytes. HasCrewEnded most S.Source count form bytes (I.left input.new) operators.old operators.new
        (K.holds output.old) (K.holds output.new) result)) }
    ensures prefix { OfCrew (job_of (map string_bytes words.now)) (I.left input.old)
        (λ count form bytes. WritesCrewFront S.Source count operators.old (K.holds output.old) (K.holds output.new) (reads form bytes)) }
    ensures finished { Finishes (I.faults input.old) (I.faults input.new) K.Sink output.old output.new result }
    ensures memory { HasWanted K.Sink output.old output.new result }
    ensures unread { TakesNoneOrWants K.Sink output.old output.new operators.old operators.new result }
    ensures handed_on { HandsOn K.Sink output.old output.new result }

    // Memory is told only where the heap refused some, or the queue's did, or the output itself is out of memory; or where the words' heap
    // did, before anything was asked of them.
    ensures wanted { WantsCrewOrWords K.Sink words_heap.old words_heap.new H.refusals heap.old heap.new queues.old queues.new
        input.old input.new output.old output.new operators.old operators.new result }

    // Where the words' heap refused some, Memory is told and nothing was asked of the others, read or written.
    ensures words_kept { ReadsWordsOnce words_heap.old words_heap.new ((heap.new ≡ heap.old) × ((queues.new ≡ queues.old)
        × ((input.new ≡ input.old) × ((output.new ≡ output.old) × (operators.new ≡ operators.old))))) result }

    // With Usage nothing was asked of the heap or the queue's.
    ensures usage { result ≡ Status.Usage → (heap.new ≡ heap.old) × (queues.new ≡ queues.old) }
    ensures cause { HasCrewCause S.Source result (I.faults input.old) (I.faults input.new) (K.faults output.old) (K.faults output.new)
        (in_use (job_of (map string_bytes words.now))) operators.old operators.new }
    ensures dash { list_any begins_with_dash (map string_bytes words.now) ≡ true → result ≡ Status.Usage }
    ensures later { H.refusals heap.old ≤ H.refusals heap.new }
    ensures queues_later { queues.old ≤ queues.new }
    ensures words_later { words_heap.old ≤ words_heap.new }
{
    match crew_of(words_heap, words) {
        Ok((count, form)) => run_crew_in(rt, heap, queues, count, form, input, output, operators),
        Err(WordsFault::Usage) => Status::Usage,
        Err(WordsFault::Memory) => Status::Memory,
    }
}
