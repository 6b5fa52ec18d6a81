//! The reply to an undo or a redo that is refused.
#![tactic(auto, using(lx_io::proofs::Chain::puts))]

ghost use Rattle.lx_script.specs.Imports.{Puts, undo_fault_text};

use lx_io::{Sink, SinkFault, put_all};
use lx_spec::UndoFault;

/// Appends the line of a refused undo or redo: `refused` and the fault's name. A fault of the sink's is its own, and
/// then a prefix of the line was appended.
pub fn put_undo_fault<K: Sink>(fault: UndoFault, sink: &mut K) -> Result<(), SinkFault>
    ensures { Puts K.Sink sink.old sink.new result (undo_fault_text fault) }
{
    match fault {
        UndoFault::NothingToUndo => put_all(sink, b"refused NothingToUndo\n"),
        UndoFault::NothingToRedo => put_all(sink, b"refused NothingToRedo\n"),
    }
}
