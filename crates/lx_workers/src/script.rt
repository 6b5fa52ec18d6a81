//! The engine as a work: a session whose accepted commands are published, and then the stop.
ghost use Rattle.std.specs.Prelude.{◌≡◌, ◌≤◌, [], IsSomeAnd};
ghost use Rattle.lx_lex.specs.Unread.{CanAdvance, bytes_taken};
ghost use Rattle.lx_gate.specs.Desks.{IsInStep};
ghost use Rattle.lx_workers.specs.Engines.{HasRun, HasRunFrom};
ghost use Rattle.lx_base.specs.declared.TheConstants.{INPUT_BYTES};

use crate::Stop;
use crate::engine::{Before, Publisher};
use lx_console::Console;
use lx_gate::{Gate, GateWriter, Origin, Unsent, Window, WriterHeap};
use lx_io::{Heap, Pace, Sink, Source};
use lx_lex::Lines;
use lx_session::{SessionFault, Tally, session_with_in};
use lx_work::Work;
use std::marker::{Brand, PhantomData};
use std::mem::replace;
use std::sync::Wait;

/// What the engine is lent, and how its session ended. Its gate is there at its start and at its end.
#[derive(Drop)]
pub struct LiveEngine<'h, 'w, 'c, 'l, 's, 'k, 'g, 'u, 't, 'p, G: Origin, W: Window, H, S, K, C> {
    pub heap: &'h mut H,
    pub writers: &'w mut WriterHeap,
    pub console: &'c mut Console,
    pub lines: &'l mut Lines<'s, S>,
    pub output: &'k mut K,
    pub gate: &'g mut Option<Gate<G, W>>,
    pub unsent: &'u mut Unsent,
    pub stop: &'t Stop,
    pub pace: &'p C,
    pub session: Result<Tally, SessionFault>,
}

impl<G: Origin, H: Heap, S: Source, K: Sink, C: Pace> Work
    for LiveEngine<'_, '_, '_, '_, '_, '_, '_, '_, '_, '_, G, GateWriter<G>, H, S, K, C> {
    ghost ready = { λ x. IsSomeAnd x.gate.now (λ held. IsInStep G.show held [] x.console.now)
        × (CanAdvance x.lines.now × (bytes_taken x.lines.now ≤ INPUT_BYTES)) };

    ghost done = { λ x y. (y.heap.ghost_name ≡ x.heap.ghost_name)
        × ((y.writers.ghost_name ≡ x.writers.ghost_name)
        × ((y.console.ghost_name ≡ x.console.ghost_name)
        × ((y.lines.ghost_name ≡ x.lines.ghost_name)
        × ((y.output.ghost_name ≡ x.output.ghost_name)
        × ((y.gate.ghost_name ≡ x.gate.ghost_name)
        × ((y.unsent.ghost_name ≡ x.unsent.ghost_name)
        × HasRunFrom S.Source K.Sink G.show (H.refusals x.heap.now) x.writers.now x.gate.now x.console.now x.lines.now x.output.now
        (H.refusals y.heap.now) y.writers.now y.gate.now y.unsent.now y.console.now y.lines.now y.output.now y.session)))))) };

    fn run<R: Wait>(&mut self, rt: &R) {
        self.session = run_script::<Brand, G, R, H, S, K, C>(
            rt,
            self.heap,
            self.writers,
            self.console,
            self.lines,
            self.output,
            self.gate,
            self.unsent,
            self.stop,
            self.pace,
        );
        self.stop.set();
    }
}

/// Answers the script lines that are left, up to `quit` or the end, and publishes what they accept.
fn run_script<B: Before, G: Origin, R: Wait, H: Heap, S: Source, K: Sink, C: Pace>(
    rt: &R,
    heap: &mut H,
    writers: &mut WriterHeap,
    console: &mut Console,
    lines: &mut Lines<S>,
    output: &mut K,
    gate: &mut Option<Gate<G, GateWriter<G>>>,
    unsent: &mut Unsent,
    stop: &Stop,
    pace: &C,
) -> Result<Tally, SessionFault>
    requires before { B.refusals ≡ writers.old }
    requires in_step { IsSomeAnd gate.old (λ held. IsInStep G.show held [] console.old) }
    requires going { CanAdvance lines.old }
    requires within { bytes_taken lines.old ≤ INPUT_BYTES }
    ensures { HasRunFrom S.Source K.Sink G.show (H.refusals heap.old) writers.old gate.old console.old lines.old output.old
        (H.refusals heap.new) writers.new gate.new unsent.new console.new lines.new output.new result }
{
    let Some(held) = gate.take() else {
        unreachable!()
    };
    let mut publisher = Publisher {
        rt,
        gate: held,
        unsent: Unsent::new(),
        writers: replace(writers, WriterHeap::new(heap.allocator())),
        stop,
        pace,
        before: PhantomData::<B>,
    };
    let session = answer_script(&mut publisher, heap, console, lines, output);
    let Publisher {
        rt: _,
        gate: held,
        unsent: left,
        writers: held_writers,
        stop: _,
        pace: _,
        before: _,
    } = publisher;
    *unsent = left;
    *writers = held_writers;
    match gate.replace(held) {
        None => session,
        Some(_) => unreachable!(),
    }
}

/// Answers the script lines that are left, and publishes what they accept. At the end what is still unsent is published once
/// more.
fn answer_script<B: Before, R: Wait, G: Origin, H: Heap, S: Source, K: Sink, C: Pace>(
    publisher: &mut Publisher<'_, '_, '_, R, G, GateWriter<G>, C, B>,
    heap: &mut H,
    console: &mut Console,
    lines: &mut Lines<S>,
    output: &mut K,
) -> Result<Tally, SessionFault>
    requires before { B.refusals ≡ publisher.old.writers }
    requires in_step { IsInStep G.show publisher.old.gate publisher.old.unsent console.old }
    requires going { CanAdvance lines.old }
    requires within { bytes_taken lines.old ≤ INPUT_BYTES }
    ensures { HasRun S.Source K.Sink G.show (H.refusals heap.old) publisher.old.writers publisher.old.gate publisher.old.unsent console.old
        lines.old output.old (H.refusals heap.new) publisher.new.writers publisher.new.gate publisher.new.unsent console.new lines.new
        output.new result }
{
    let session = session_with_in(publisher, heap, console, lines, output);
    publisher.publish(console);
    session
}
