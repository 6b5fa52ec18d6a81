//! What may go to another thread.
use crate::{Gate, GatePort, GateWriter, Note, Origin, Tap, Unsent, WriterHeap};

fn is_send<T: Send>(_value: &T) {}

/// A gate with its unsent commands, its writer's heap, a tap and a note may each go to another thread.
pub fn may_be_sent<G: Origin + Send + Sync>(
    gate: &Gate<G, GateWriter<G>>,
    unsent: &Unsent,
    writers: &WriterHeap,
    tap: &Tap<GatePort<G>>,
    note: &Note,
) {
    is_send(gate);
    is_send(unsent);
    is_send(writers);
    is_send(tap);
    is_send(note);
}
