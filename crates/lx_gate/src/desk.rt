//! The gate beside the console whose frames it publishes.
ghost use Rattle.std.specs.Prelude.{OnOk, OnErr};
ghost use Rattle.lx_io.specs.Causes.{HasCause};
ghost use Rattle.lx_gate.specs.Desks.{IsInStep};
ghost use Rattle.lx_gate.specs.Gates.{HasSent, HasSentNone};

use crate::{Gate, GateWriter, Origin, Unsent, WriterHeap};
use lx_console::Console;
use std::alloc::AllocError;
use std::sync::Wait;

impl<G: Origin> Gate<G, GateWriter<G>> {
    /// Publishes all unsent commands, with the frames and the moment of the console that obeyed them. An error comes where the writer's
    /// memory was refused.
    pub fn publish_desk<R: Wait>(
        &mut self,
        rt: &R,
        writers: &mut WriterHeap,
        unsent: &mut Unsent,
        console: &Console,
    ) -> Result<(), AllocError>
        requires { IsInStep G.show self.old unsent.old console.now }
        ensures in_step { IsInStep G.show self.new unsent.new console.now }
        ensures ok { OnOk result (HasSent self.old unsent.old self.new unsent.new) }
        ensures err { OnErr result (HasSentNone self.old unsent.old self.new unsent.new) }
        ensures cause { HasCause writers.old writers.new result }
    {
        self.publish(rt, writers, unsent, console.frames(), console.moment())
    }
}
