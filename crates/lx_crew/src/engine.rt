//! The engine: it pops the entries of all operators and answers each line.

ghost use Rattle.std.specs.Prelude.{◌≡◌, ◌<◌, ◌≤◌, ◌⊎◌, ℕ, [], length, true, false, slice_get, Some, None};
ghost use Rattle.crossbeam_queue.specs.Passes.{view, IsPassOf, IsSamePass};
ghost use Rattle.lx_session.specs.LineReply.{TallyHasRoom, HasOneMore, counts_in};
ghost use Rattle.lx_crew.specs.Entries.{is_last};
ghost use Rattle.lx_crew.specs.Rule.{engine_view};
ghost use Rattle.lx_crew.specs.EngineAnswers.{HasServedEntries, Marked, OutputCause, NextEntry};
ghost use Rattle.lx_base.specs.declared.TheConstants.{OPERATORS};

use crate::answering::{answer_entry, flush};
use crate::entry::{Message, Sent};
use crate::rule::{Gets, Queue, View};
use crossbeam_queue::Pass;
use crossbeam_utils::sync::Parker;
use lx_base::OPERATORS;
use lx_console::Console;
use lx_io::{Heap, Sink, SinkFault};
use lx_session::Tally;
use lx_work::Work;
use std::sync::Wait;

/// A place for each operator.
pub(crate) const PLACES: usize = OPERATORS as usize;

/// What the engine is lent, and what came of it.
#[derive(Drop)]
pub struct CrewEngine<'q, 'p, 'w, 'h, 'c, 'k, H, K> {
    pub queue: &'q Queue,
    pub pass: &'p mut Pass<Message, View>,
    /// It waits here while there is nothing to take.
    pub parker: &'w mut Parker,
    /// Edits take memory from it.
    pub heap: &'h mut H,
    pub console: &'c mut Console,
    pub sink: &'k mut K,
    pub operators: usize,
    pub tally: Tally,
    pub output: Option<SinkFault>,
}

impl<H: Heap, K: Sink> Work for CrewEngine<'_, '_, '_, '_, '_, '_, H, K> {
    ghost use Rattle.std.specs.Prelude.{◌≡◌, ◌≤◌, [], None};
    ghost use Rattle.crossbeam_queue.specs.Passes.{view, IsPassOf, IsSamePass};
    ghost use Rattle.lx_crew.specs.Rule.{engine_view};
    ghost use Rattle.lx_crew.specs.EngineAnswers.{HasServedEntries};
    ghost use Rattle.lx_base.specs.declared.TheConstants.{OPERATORS};

    ghost ready = { λ x. IsPassOf x.queue.now x.pass.now × ((view x.pass.now ≡ engine_view x.operators [] []) × (x.operators ≤ OPERATORS)) };

    ghost done = { λ x y. (y.pass.ghost_name ≡ x.pass.ghost_name)
        × ((y.heap.ghost_name ≡ x.heap.ghost_name)
        × ((y.console.ghost_name ≡ x.console.ghost_name)
        × ((y.sink.ghost_name ≡ x.sink.ghost_name)
        × ((y.operators ≡ x.operators)
        × (IsSamePass x.pass.now y.pass.now
        × HasServedEntries (H.refusals x.heap.now) (H.refusals y.heap.now) K.Sink x.operators (view y.pass.now) x.sink.now y.sink.now
        x.console.now y.console.now y.tally y.output))))) };

    fn run<R: Wait>(&mut self, rt: &R) {
        self.tally = Tally::new();
        self.output = serve(
            rt,
            self.queue,
            self.pass,
            self.parker,
            self.heap,
            self.console,
            self.sink,
            self.operators,
            &mut self.tally,
        );
    }
}

/// Takes entries and answers them, until each operator has ended. After a fault of the output they are thrown away.
fn serve<R: Wait, H: Heap, K: Sink>(
    rt: &R,
    queue: &Queue,
    pass: &mut Pass<Message, View>,
    parker: &Parker,
    heap: &mut H,
    console: &mut Console,
    sink: &mut K,
    operators: usize,
    tally: &mut Tally,
) -> Option<SinkFault>
    requires queue { IsPassOf queue.now pass.old }
    requires view { view pass.old ≡ engine_view operators [] [] }
    requires few { operators ≤ OPERATORS }
    requires none { counts_in tally.old ≡ record { ok = 0; refused = 0; bad = 0 } }
    ensures queue { IsSamePass pass.old pass.new }
    ensures served { HasServedEntries (H.refusals heap.old) (H.refusals heap.new) K.Sink operators (view pass.new) sink.old sink.new
        console.old console.new tally.new result }
{
    let mut ended = [false; PLACES];
    let mut output = None;
    for _ in rt.forever() {
        if all_of(&ended, operators) {
            flush(sink, &mut output);
            return output;
        }
        if !take_one(
            queue,
            pass,
            heap,
            console,
            sink,
            tally,
            &mut output,
            &mut ended,
        ) {
            flush(sink, &mut output);
            wait(rt, parker, sink, output);
        }
    }
    unreachable!()
}

/// Sleeps until an operator wakes the engine. Before that all that was written is handed on.
fn wait<R: Wait, K: Sink>(rt: &R, parker: &Parker, sink: &K, output: Option<SinkFault>)
    requires handed_on { output ≡ None → K.back sink.now ≡ [] }
{
    parker.park(rt);
}

/// Pops an entry and answers it, if there is one.
fn take_one<H: Heap, K: Sink>(
    queue: &Queue,
    pass: &mut Pass<Message, View>,
    heap: &mut H,
    console: &mut Console,
    sink: &mut K,
    tally: &mut Tally,
    output: &mut Option<SinkFault>,
    ended: &mut [bool; PLACES],
) -> bool
    requires queue { IsPassOf queue.now pass.old }
    requires pops { (view pass.old).pops ≡ true }
    requires room { TallyHasRoom tally.old }
    ensures queue { IsSamePass pass.old pass.new }
    ensures some { result ≡ true → NextEntry (H.refusals heap.old) (H.refusals heap.new) K.Sink (view pass.old) (view pass.new) sink.old
        sink.new console.old console.new tally.old tally.new output.old output.new ended.old ended.new }
    ensures none { result ≡ false → (view pass.new ≡ view pass.old) × ((sink.new ≡ sink.old) × ((console.new ≡ console.old)
        × ((tally.new ≡ tally.old) × ((output.new ≡ output.old) × (ended.new ≡ ended.old))))) }
    ensures cause { OutputCause K.Sink sink.old sink.new output.old output.new }
    ensures more { HasOneMore tally.old tally.new }
    ensures later { H.refusals heap.old ≤ H.refusals heap.new }
{
    let Some(entry) = queue.try_pop_as::<Gets>(pass) else {
        return false;
    };
    mark(ended, &entry);
    answer_entry(heap, console, &entry, sink, tally, output);
    true
}

/// Whether each of the first places is set.
fn all_of(ended: &[bool; PLACES], count: usize) -> bool
    requires { count ≤ OPERATORS }
    ensures { result ≡ true → (k : ℕ) → k < count → slice_get ended.now k ≡ Some true }
{
    for place in 0..count {
        if !ended[place] {
            return false;
        }
    }
    true
}

/// Sets the place of an operator that ended.
fn mark(ended: &mut [bool; PLACES], entry: &Message)
    ensures { Marked entry.now ended.old ended.new }
{
    if !is_last(&entry.sent) {
        return;
    }
    let place = usize::from(entry.place);
    if place < PLACES {
        ended[place] = true;
    }
}

/// Whether it is an operator's last.
fn is_last(sent: &Sent) -> bool
    ensures { result ≡ is_last sent.now }
{
    match sent {
        Sent::Line(_) => false,
        Sent::LongLine => false,
        _ => true,
    }
}
