//! The job `crew`: the scripts of several operators at the same time, over a show.

ghost use Rattle.std.specs.Prelude.{◌≡◌, ◌≤◌, IfSome, IsSome, Some, length};
ghost use Rattle.lx_desk.specs.Imports.{reads, EachAt, ByRefusals, HandsOn, HasCrewCause, HasCrewEnded, KeepsOperators, ServesOver, TakesNoneOrWants};
ghost use Rattle.lx_desk.specs.Imports.{TellsCrew, TellsOperators, WantsCrew, WritesCrewFront, Finishes, HasWanted};
ghost use Rattle.lx_base.specs.declared.TheConstants.{OPERATORS};
ghost use Rattle.lx_spec.specs.declared.Job.TheVariants.{Crew};

use crate::desk::Status;
use crate::finish::status_of_sink;
use crate::refuse::refuse;
use lx_console::Console;
use lx_crew::{Crewed, OperatorFault, QueueHeap, crew_in};
use lx_io::{Heap, Sink, Source};
use lx_lex::Lines;
use lx_reader::read_show_in;
use lx_show::Show;
use lx_spec::Form;
use std::sync::Wait;
use std::thread::Threads;

/// Serves the operators 1 to `count` over a show.
///
/// The show comes from the input, which is read to `ENDDATA` and no further. The scripts of the operators come from the first
/// this many sources, each in a thread of its own and up to `quit` or its end. For each line that is taken the output gets `op`, its
/// operator and its number among that operator's lines, and then its replies. Which operator comes next isn't said.
///
/// A fault of an operator costs no line of another. The fault of the output decides the status first, and then that of the
/// lowest operator that had one; where that is told, all that was written is handed on. The answer is never Live. With Ok and ShowRefused
/// no read of the input and no write failed, and all that was written is handed on. With Ok no read of an operator in use failed either,
/// and of a refused show none was made. Memory is told only before anything is written and any operator's source read, or where the output
/// itself is out of memory. A fault of the input or of an operator is told only where the output had none, and one of an operator or of
/// the output only where the input had none.
///
/// Its memory is that of two heaps: the first's for the show and its edits, and the queue's for what the lines go through.
/// No more edits were refused as out of memory than the heap refused calls. Memory is told only where the heap refused some, or the
/// queue's did, or where the output itself is out of memory.
pub fn run_crew_in<
    R: Threads + Wait + Sync,
    H: Heap + Send,
    I: Source,
    S: Source + Send + Drop,
    K: Sink + Send,
>(
    rt: &R,
    heap: &mut H,
    queues: &mut QueueHeap,
    count: u8,
    form: Form,
    input: &mut I,
    output: &mut K,
    operators: &mut [Option<S>],
) -> Status
    requires some { 1 ≤ count }
    requires most { count ≤ OPERATORS }
    requires all { length operators.old ≡ OPERATORS }
    requires full { EachAt (λ place source. IsSome source) operators.old }
    ensures words { KeepsOperators (Some (Crew count form)) result input.old input.new output.old output.new operators.old operators.new }
    ensures ended { IfSome (I.left input.old)
        (λ bytes. HasCrewEnded None S.Source count form bytes (I.left input.new) operators.old operators.new
        (K.holds output.old) (K.holds output.new) result) }
    ensures spared { ByRefusals (H.refusals heap.old) (H.refusals heap.new) (λ most. IfSome (I.left input.old)
        (λ bytes. HasCrewEnded most S.Source count form bytes (I.left input.new) operators.old operators.new
        (K.holds output.old) (K.holds output.new) result)) }
    ensures prefix { IfSome (I.left input.old)
        (λ bytes. WritesCrewFront S.Source count operators.old (K.holds output.old) (K.holds output.new) (reads form bytes)) }
    ensures cause { HasCrewCause S.Source result (I.faults input.old) (I.faults input.new) (K.faults output.old) (K.faults output.new)
        count operators.old operators.new }
    ensures finished { Finishes (I.faults input.old) (I.faults input.new) K.Sink output.old output.new result }
    ensures memory { HasWanted K.Sink output.old output.new result }
    ensures unread { TakesNoneOrWants K.Sink output.old output.new operators.old operators.new result }
    ensures handed_on { HandsOn K.Sink output.old output.new result }
    ensures wanted { WantsCrew K.Sink (H.refusals heap.old) (H.refusals heap.new) queues.old queues.new output.old output.new result }
    ensures later { H.refusals heap.old ≤ H.refusals heap.new }
    ensures queues_later { queues.old ≤ queues.new }
{
    let mut lines = Lines::new(input);
    match read_show_in(heap, &mut lines, form) {
        Ok(loaded) => serve(rt, heap, queues, count, loaded.show, output, operators),
        Err(fault) => refuse(fault, output),
    }
}

/// Serves the first operators over a show, from its opening on.
fn serve<R: Threads + Wait + Sync, H: Heap + Send, S: Source + Send + Drop, K: Sink + Send>(
    rt: &R,
    heap: &mut H,
    queues: &mut QueueHeap,
    count: u8,
    show: Show,
    output: &mut K,
    operators: &mut [Option<S>],
) -> Status
    requires some { 1 ≤ count }
    requires most { count ≤ OPERATORS }
    requires all { length operators.old ≡ OPERATORS }
    requires full { EachAt (λ place source. IsSome source) operators.old }
    ensures { ServesOver S.Source K.Sink (H.refusals heap.old) (H.refusals heap.new) queues.old queues.new show count output.old output.new
        operators.old operators.new result }
{
    let Ok(mut console) = Console::open_in(heap, show) else {
        return Status::Memory;
    };
    let (used, _others) = operators.split_at_mut(count as usize);
    match crew_in(rt, heap, queues, &mut console, used, output) {
        Ok(crewed) => status_of_crew(&crewed),
        Err(_) => Status::Memory,
    }
}

/// The status of a crew: the fault of the output first, then that of the lowest operator that had one.
fn status_of_crew(crewed: &Crewed) -> Status
    ensures { TellsCrew crewed.now.output crewed.now.operators result }
{
    match crewed.output {
        Some(fault) => status_of_sink(fault),
        None => status_of_operators(&crewed.operators),
    }
}

/// The status where the output had no fault.
fn status_of_operators(faults: &[Option<OperatorFault>]) -> Status
    ensures { TellsOperators faults.now result }
{
    for fault in faults {
        match fault {
            Some(OperatorFault::ReadFault) => return Status::ReadFault,
            Some(OperatorFault::InputTooLong) => return Status::InputTooLong,
            None => {}
        }
    }
    Status::Ok
}
