//! The engine's listener: each command that a session accepts is published, in order.
ghost use Rattle.std.specs.Prelude.{◌≡◌, ◌++◌, ℕ};
ghost use Rattle.lx_gate.specs.Desks.{IsInStep};
ghost use Rattle.lx_workers.specs.Engines.{accepted_of, HasAccepted, HasSentOn, leaves_room, SendsAll};

use crate::Stop;
use lx_console::Console;
use lx_gate::{Gate, GateWriter, Origin, Unsent, Window, WriterHeap};
use lx_io::Pace;
use lx_session::Listener;
use lx_spec::Command;
use std::marker::{Brand, PhantomData};
use std::sync::Wait;

/// Where this many commands were accepted, no more are admitted.
const MOST: u64 = 1 << 62;

/// What was so when a run began. It exists for proofs alone, and the call that begins the run picks it.
pub trait Before {
    /// How often the writer's heap had refused.
    ghost refusals: { ℕ };
}

impl Before for Brand {
    ghost refusals = { 0 };
}

/// Listens to the session of a live run. It keeps the pace, admits each command that can still be counted, publishes what
/// was accepted with the console's frames, and tells the workers. Commands that a publish leaves as out of memory wait
/// for a later one. The writer's heap is its own while it listens.
pub struct Publisher<'r, 't, 'p, R: Wait, G: Origin, W: Window, C: Pace, B: Before> {
    pub rt: &'r R,
    pub gate: Gate<G, W>,
    pub unsent: Unsent,
    pub writers: WriterHeap,
    pub stop: &'t Stop,
    pub pace: &'p C,
    pub before: PhantomData<B>,
}

impl<R: Wait, G: Origin, C: Pace, B: Before> Listener
    for Publisher<'_, '_, '_, R, G, GateWriter<G>, C, B> {
    ghost use Rattle.std.specs.Prelude.{◌≡◌, ◌≤◌, true};
    ghost use Rattle.lx_workers.specs.Engines.{accepted_nothing, accepted_both, sent_nothing, sent_both};

    ghost keeps = { λ x console. IsInStep G.show x.gate x.unsent console × (B.refusals ≤ x.writers) };

    ghost heard = { λ x y commands. HasAccepted x.gate x.unsent y.gate y.unsent commands
        × HasSentOn x.writers x.unsent y.writers y.unsent commands };

    ghost admitted_all = { λ x. leaves_room (accepted_of x.gate x.unsent) };

    ghost ready = { λ x _. leaves_room (accepted_of x.gate x.unsent) ≡ true };

    ghost nothing = { λ x. (accepted_nothing x.gate x.unsent, sent_nothing x.writers x.unsent) };

    ghost both = { λ x y z before after one two. (
      accepted_both x.gate x.unsent y.gate y.unsent z.gate
          z.unsent before after one.0 two.0,
      sent_both x.writers x.unsent y.writers y.unsent z.writers z.unsent before after one.1 two.1,
    ) };

    fn admit(&mut self, command: &Command) -> bool {
        if is_tick(command) {
            self.pace.beat();
        }
        has_room(&self.gate, &self.unsent)
    }

    fn hear(&mut self, command: &Command, console: &Console) {
        self.unsent.push(command);
        self.publish(console);
        self.stop.tell_news();
    }

    fn hears_ticks(&self) -> bool {
        true
    }
}

impl<R: Wait, G: Origin, C: Pace, B: Before> Publisher<'_, '_, '_, R, G, GateWriter<G>, C, B> {
    /// Publishes what is unsent. Where the writer's heap refuses it stays unsent, and goes out with a later publish.
    #[tactic(auto, using(crate::proofs::EngineSteps::sends_of))]
    pub(crate) fn publish(&mut self, console: &Console)
        requires { IsInStep G.show self.old.gate self.old.unsent console.now }
        ensures in_step { IsInStep G.show self.new.gate self.new.unsent console.now }
        ensures same { self.new.gate.published ++ self.new.unsent ≡ self.old.gate.published ++ self.old.unsent }
        ensures sends { SendsAll self.old.writers self.new.writers self.new.unsent }
    {
        let _sent = self
            .gate
            .publish_desk(self.rt, &mut self.writers, &mut self.unsent, console);
    }
}

/// A command of a line `tick`.
fn is_tick(command: &Command) -> bool {
    match command {
        Command::Tick => true,
        _ => false,
    }
}

/// Whether one more command can be counted.
fn has_room<G: Origin>(gate: &Gate<G, GateWriter<G>>, unsent: &Unsent) -> bool
    ensures { result ≡ leaves_room (accepted_of gate.now unsent.now) }
{
    gate.count().saturating_add(unsent.len()) < MOST
}
