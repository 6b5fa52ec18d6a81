//! The program as calls: from the words and the bytes that come in to the bytes that go out.

ghost use Rattle.std.specs.Prelude.{◌≡◌, ◌≤◌, ℕ, true, Some, map, string_bytes};
ghost use Rattle.lx_program.specs.Imports.{list_any, job_of, ByRefusals, AnswersWords, HasCauseOf, HasEnded, HasEndedBy, Finishes, HasWanted};
ghost use Rattle.lx_program.specs.Imports.{WritesPrefix, begins_with_dash, OfJob, ReadsWordsOnce, WantsMemoryOrWords};
ghost use Rattle.lx_spec.specs.declared.Job.TheVariants.{Make};

use crate::words::{WordsFault, words_of_in};
use crate::words_heap::WordsHeap;
use lx_desk::{Status, run_job_in};
use lx_io::{Heap, Sink, Source, SystemHeap};
use std::alloc::Global;

/// Does the job that the words name. `words` are those after the program's name.
///
/// What is written is the text that the definitions give for the job and the bytes of the input. It is the line of a
/// refused show, the line or the cue list of a show, or the replies to a script. In those each command is done or refused as
/// the desk does it. Each frame is evaluated over the whole show as it then is and the whole list of runs since the opening.
/// By `undo` edits and records are also undone and redone, and by `two` it is so of two desks beside each other. `make` reads
/// nothing. Running out of memory refuses nothing but records, and edits that may take memory.
pub fn desk<S: Source, K: Sink>(
    alloc: Global,
    words: &[String],
    input: &mut S,
    output: &mut K,
) -> Status
    // Usage exactly where the words name no job, and Live where they name `run` or `crew`, unless memory ran out; and
    // then nothing is read or written.
    ensures words { AnswersWords (job_of (map string_bytes words.now)) result input.old input.new output.old output.new }

    // What was read and written, by the status: with Ok and ShowRefused the whole text of the job.
    ensures ended { OfJob (map string_bytes words.now) (S.left input.old)
        (λ job bytes. HasEnded result job bytes (S.left input.new) (K.holds output.old) (K.holds output.new)) }

    // After every status it is a prefix of the whole text.
    ensures prefix { OfJob (map string_bytes words.now) (S.left input.old)
        (λ job bytes. WritesPrefix job bytes (K.holds output.old) (K.holds output.new)) }

    // ReadFault and WriteFault have their causes. A fault of the input comes only where the output had none, and one of the output only
    // where the input had none. With Ok and ShowRefused no fault was passed over, and all that was written is handed on; with ReadFault all
    // replies before it are. Memory is told only before anything is written, or where the output itself is out of memory; and never where a
    // word begins with a dash.
    ensures cause { HasCauseOf result (S.faults input.old) (S.faults input.new) (K.faults output.old) (K.faults output.new) }
    ensures finished { Finishes (S.faults input.old) (S.faults input.new) K.Sink output.old output.new result }
    ensures memory { HasWanted K.Sink output.old output.new result }
    ensures dash { list_any begins_with_dash (map string_bytes words.now) ≡ true → result ≡ Status.Usage }

    // `make` reads nothing.
    ensures unread { (cues : ℕ) → job_of (map string_bytes words.now) ≡ Some (Make cues) → input.new ≡ input.old }
{
    desk_in(
        &mut SystemHeap::new(alloc),
        &mut WordsHeap::new(alloc),
        words,
        input,
        output,
    )
}

/// Does the job that the words name as `desk` does, with the memory of these heaps. The words are read by the second: where it refuses
/// nothing is read or written, and the first isn't asked.
///
/// A fault of the input is told only where the output had none, and one of the output only where the input had none. Where a read failed,
/// all replies before it are handed on.
pub fn desk_in<H: Heap, S: Source, K: Sink>(
    heap: &mut H,
    words_heap: &mut WordsHeap,
    words: &[String],
    input: &mut S,
    output: &mut K,
) -> Status
    ensures words { AnswersWords (job_of (map string_bytes words.now)) result input.old input.new output.old output.new }
    ensures ended { OfJob (map string_bytes words.now) (S.left input.old)
        (λ job bytes. HasEnded result job bytes (S.left input.new) (K.holds output.old) (K.holds output.new)) }

    // No more edits and records were refused as out of memory than the heap refused calls.
    ensures spared { ByRefusals (H.refusals heap.old) (H.refusals heap.new) (λ most. OfJob (map string_bytes words.now) (S.left input.old)
        (λ job bytes. HasEndedBy most result job bytes (S.left input.new) (K.holds output.old) (K.holds output.new))) }
    ensures prefix { OfJob (map string_bytes words.now) (S.left input.old)
        (λ job bytes. WritesPrefix job bytes (K.holds output.old) (K.holds output.new)) }
    ensures cause { HasCauseOf result (S.faults input.old) (S.faults input.new) (K.faults output.old) (K.faults output.new) }
    ensures finished { Finishes (S.faults input.old) (S.faults input.new) K.Sink output.old output.new result }
    ensures memory { HasWanted K.Sink output.old output.new result }

    // Memory is told only where the heap refused some or the output itself is out of memory; or where the words' heap did, before anything
    // was asked of them.
    ensures wanted { WantsMemoryOrWords K.Sink words_heap.old words_heap.new H.refusals heap.old heap.new input.old input.new
        output.old output.new result }

    // Where the words' heap refused some, Memory is told and nothing was asked of the heap, read or written.
    ensures words_kept { ReadsWordsOnce words_heap.old words_heap.new ((heap.new ≡ heap.old) × ((input.new ≡ input.old)
        × (output.new ≡ output.old))) result }

    // With Usage nothing was asked of the heap.
    ensures usage { result ≡ Status.Usage → heap.new ≡ heap.old }
    ensures dash { list_any begins_with_dash (map string_bytes words.now) ≡ true → result ≡ Status.Usage }
    ensures unread { (cues : ℕ) → job_of (map string_bytes words.now) ≡ Some (Make cues) → input.new ≡ input.old }
    ensures later { H.refusals heap.old ≤ H.refusals heap.new }
    ensures words_later { words_heap.old ≤ words_heap.new }
{
    match words_of_in(words_heap, words) {
        Ok(job) => run_job_in(heap, job, input, output),
        Err(WordsFault::Usage) => Status::Usage,
        Err(WordsFault::Memory) => Status::Memory,
    }
}
