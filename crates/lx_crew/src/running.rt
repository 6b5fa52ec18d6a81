//! A crew: the engine and the operators at the same time.

ghost use Rattle.std.specs.Prelude.{◌≡◌, ◌+◌, ◌<◌, ◌≤◌, ◌⊎◌, ℕ, List, [], ◌++◌, ◌∷◌, length, map, true, false, slice_get, Some, None};
ghost use Rattle.std.specs.Prelude.{IfOk, OnErr, IsSome, vec_len, vec_capacity};
ghost use Rattle.lx_crew.specs.Imports.{All, AllZip, view, IsPassOf, IsSamePass, Rose, Desk, ByRefusals, StandsFor, engine_view};
ghost use Rattle.lx_crew.specs.Imports.{HasServedEntries, OutputCause, HasCrewed, EachAt, HasRunOperator, Hired, HasSentNothing, Works};
ghost use Rattle.lx_crew.specs.Imports.{owned};
ghost use Rattle.lx_base.specs.declared.TheConstants.{OPERATORS};

use crate::engine::{CrewEngine, PLACES};
use crate::entry::Message;
use crate::fault::OperatorFault;
use crate::operator::Operator;
use crate::queue_heap::QueueHeap;
use crate::rule::{Enters, Leaves, Queue, Total, View};
use crossbeam_queue::Pass;
use crossbeam_utils::sync::{Parker, Unparker};
use lx_console::Console;
use lx_io::{Heap, Sink, SinkFault, Source, SystemHeap};
use lx_session::Tally;
use lx_work::run_after;
use std::alloc::{AllocError, Global};
use std::sync::Wait;
use std::thread::Threads;

/// What a crew came to.
#[derive(Drop)]
pub struct Crewed {
    /// The replies, by kind. Nothing is said of them where the output had a fault.
    pub tally: Tally,
    /// The fault of the output, if it had one.
    pub output: Option<SinkFault>,
    /// The fault of operator k, at place k - 1, where it had one.
    pub operators: [Option<OperatorFault>; PLACES],
}

/// Answers the lines of one to four operators, each up to `quit` or the end of its own source, over a console, and writes
/// their transcript. For each line that has `op K N`, its operator and its number from 1, and then its replies. Each source is read
/// in a thread of its own; which operator comes next isn't said.
///
/// A fault of an operator costs no line of another. Without a fault of the output all of the transcript is handed on. After
/// one no line is done any more, and the sources are read on to their ends. `AllocError` comes only before the first line,
/// and then nothing was read or written.
pub fn crew<R: Threads + Wait + Sync, S: Source + Send + Drop, K: Sink + Send>(
    rt: &R,
    alloc: Global,
    console: &mut Console,
    operators: &mut [Option<S>],
    sink: &mut K,
) -> Result<Crewed, AllocError>
    requires some { 1 ≤ length operators.old }
    requires most { length operators.old ≤ OPERATORS }
    requires full { EachAt (λ k place. IsSome place) operators.old }
    ensures err { OnErr result ((console.new ≡ console.old) × ((sink.new ≡ sink.old) × (operators.new ≡ operators.old))) }
    ensures crewed { IfOk result (λ c. (d : Desk) → StandsFor d console.old → HasCrewed None S.Source K.Sink d operators.old
        operators.new sink.old sink.new console.new c.tally c.output c.operators) }
    ensures cause { IfOk result (λ c. OutputCause K.Sink sink.old sink.new None c.output) }
    ensures handed_on { IfOk result (λ c. c.output ≡ None → K.back sink.new ≡ []) }
{
    let mut heap = SystemHeap::new(alloc);
    let mut queues = QueueHeap::new(alloc);
    crew_in(rt, &mut heap, &mut queues, console, operators, sink)
}

/// The same, by heaps. `AllocError` comes only where one of them refused memory in this call, and at most as many lines as the first
/// refused calls were refused with `Memory`.
pub fn crew_in<R: Threads + Wait + Sync, H: Heap + Send, S: Source + Send + Drop, K: Sink + Send>(
    rt: &R,
    heap: &mut H,
    queues: &mut QueueHeap,
    console: &mut Console,
    operators: &mut [Option<S>],
    sink: &mut K,
) -> Result<Crewed, AllocError>
    requires some { 1 ≤ length operators.old }
    requires most { length operators.old ≤ OPERATORS }
    requires full { EachAt (λ k place. IsSome place) operators.old }
    ensures err { OnErr result ((console.new ≡ console.old) × ((sink.new ≡ sink.old) × (operators.new ≡ operators.old))) }
    ensures crewed { ByRefusals (H.refusals heap.old) (H.refusals heap.new) (λ most.
        IfOk result (λ c. (d : Desk) → StandsFor d console.old → HasCrewed most S.Source K.Sink d operators.old operators.new
        sink.old sink.new console.new c.tally c.output c.operators)) }
    ensures cause { IfOk result (λ c. OutputCause K.Sink sink.old sink.new None c.output) }
    ensures handed_on { IfOk result (λ c. c.output ≡ None → K.back sink.new ≡ []) }
    ensures memory { OnErr result (Rose (H.refusals heap.old) (H.refusals heap.new) ⊎ Rose queues.old queues.new) }
    ensures later { H.refusals heap.old ≤ H.refusals heap.new }
    ensures queues_later { queues.old ≤ queues.new }
{
    let (mut parker, waker, queue, mut pass) = queues.open()?;
    let mut works = heap.room(operators.len())?;
    hire(&queue, &waker, &mut pass, operators, &mut works);
    let (tally, output) = perform(
        rt,
        &queue,
        &mut pass,
        &mut parker,
        heap,
        console,
        sink,
        works.as_mut_slice(),
    );
    let faults = release(&queue, &mut pass, operators, works);
    queue.learn_as::<Total>(&mut pass);
    Ok(Crewed {
        tally,
        output,
        operators: faults,
    })
}

/// Runs the engine and the operators at the same time.
fn perform<'q, 'e, R: Threads + Wait + Sync, H: Heap + Send, S: Source + Send, K: Sink + Send>(
    rt: &R,
    queue: &Queue,
    pass: &mut Pass<Message, View>,
    parker: &mut Parker,
    heap: &mut H,
    console: &mut Console,
    sink: &mut K,
    works: &mut [Operator<'q, 'e, S>],
) -> (Tally, Option<SinkFault>)
    requires queue { IsPassOf queue.now pass.old }
    requires view { view pass.old ≡ engine_view (length works.old) [] [] }
    requires few { length works.old ≤ OPERATORS }
    requires ready { All HasSentNothing works.old }
    ensures queue { IsSamePass pass.old pass.new }
    ensures served { HasServedEntries (H.refusals heap.old) (H.refusals heap.new) K.Sink (length works.old) (view pass.new)
        sink.old sink.new console.old console.new result.0 result.1 }
    ensures ran { AllZip (HasRunOperator S.Source) works.old works.new }
{
    let mut engine = CrewEngine {
        queue,
        pass: &mut *pass,
        parker: &mut *parker,
        heap: &mut *heap,
        console: &mut *console,
        sink: &mut *sink,
        operators: works.len(),
        tally: Tally::new(),
        output: None,
    };
    run_after(rt, works, &mut engine);
    (engine.tally, engine.output)
}

/// Moves each source into a work, beside a pass of its own.
fn hire<'q, 'e, S: Source>(
    queue: &'q Queue,
    waker: &'e Unparker,
    pass: &mut Pass<Message, View>,
    operators: &mut [Option<S>],
    works: &mut Vec<Operator<'q, 'e, S>>,
)
    requires queue { IsPassOf queue.now pass.old }
    requires view { view pass.old ≡ engine_view 0 [] [] }
    requires few { length operators.old ≤ OPERATORS }
    requires all { EachAt (λ k place. IsSome place) operators.old }
    requires none { works.old.items ≡ [] }
    requires len { vec_len works.old ≡ 0 }
    requires room { length operators.old ≤ vec_capacity works.old }
    ensures queue { IsSamePass pass.old pass.new }
    ensures view { view pass.new ≡ engine_view (length operators.old) [] [] }
    ensures works { EachAt (Hired (IsPassOf queue.now) operators.old) works.new.items }
    ensures count { length works.new.items ≡ length operators.old }
    ensures same { length operators.new ≡ length operators.old }
{
    for place in 0..operators.len() {
        let Some(source) = operators[place].take() else {
            unreachable!();
        };
        let theirs = queue.another::<Enters>(pass);
        works.push_reserved(Operator {
            queue,
            engine: waker,
            pass: theirs,
            source,
            place: place as u8,
            fault: None,
        });
    }
}

/// Takes each operator's pass in, and gives each place its source again. It says the faults, each at its operator's place.
fn release<S: Source + Drop>(
    queue: &Queue,
    pass: &mut Pass<Message, View>,
    operators: &mut [Option<S>],
    works: Vec<Operator<'_, '_, S>>,
) -> [Option<OperatorFault>; PLACES]
    requires queue { IsPassOf queue.now pass.old }
    requires pops { (view pass.old).pops ≡ true }
    requires pushes { (view pass.old).pushes ≡ false }
    requires works { EachAt (Works (IsPassOf queue.now)) works.items }
    requires count { length works.items ≡ length operators.old }
    requires few { length operators.old ≤ OPERATORS }
    ensures queue { IsSamePass pass.old pass.new }
    ensures kept { view pass.new ≡ record (view pass.old) { kept = map owned works.entry.items ++ (view pass.old).kept } }
    ensures same { length operators.new ≡ length operators.old }
    ensures back { EachAt (λ k work. slice_get operators.new k ≡ Some (Some work.source)) works.entry.items }
    ensures faults { EachAt (λ k work. slice_get result k ≡ Some work.fault) works.entry.items }
    ensures others { (place : ℕ) (fault : _) → slice_get result place ≡ Some (Some fault) → place < length operators.old }
{
    let mut works = works;
    let mut faults = [None; PLACES];
    while let Some(work) = works.pop() {
        let Operator {
            queue: _,
            engine: _,
            pass: theirs,
            source,
            place: _,
            fault,
        } = work;
        queue.absorb::<Leaves>(pass, theirs);
        let place = works.len();
        put_back(&mut operators[place], source);
        faults[place] = fault;
    }
    faults
}

/// Puts a source into its place.
fn put_back<S: Drop>(place: &mut Option<S>, source: S)
    ensures { place.new ≡ Some source }
{
    *place = Some(source);
}
